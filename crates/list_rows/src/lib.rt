//! What an OSD does where the replica lists of files change, as definitions above the rows of one list (`xt_protocol`): a file is closed at
//! the version of its list, a later list is installed with the head that it begins with, and bodies that the head names are pulled. The rows
//! of one list go on as they are: messages carry the version of the list, and those of another one are passed over.
#![tactic(auto)]

ghost use Rattle.std.specs.Prelude.{◌≡◌, ℕ, max, None, [], ◌∷◌};
ghost use Rattle.xt_messages.specs.declared.event.Event.{Event};
ghost use Rattle.xt_protocol.specs.LeaseRows.{awake_at};
ghost use Rattle.xt_protocol.specs.OsdSteps.{Outside, OsdState};
ghost use Rattle.list_rows.specs.ListSteps.{step_with_lists};
ghost use Rattle.list_rows.specs.Examples.{both, marks_of, moving, moving_answers, moving_marks, moving_records, moving_reports, records_at, sent_to};

/// In its silence nothing comes of an event.
pub fn silence_is_kept()
    ensures { (outside : Outside) (osd : OsdState) (reading : ℕ) (happens : Event) →
        awake_at osd.started (max reading osd.last) ≡ None →
        (step_with_lists outside osd reading happens).osd ≡ osd }
{}

/// A file moves from the one replica of its first list to the one of its second.
pub fn a_file_moves()
    ensures marks { marks_of both moving ≡ moving_marks }
    ensures reports { sent_to 901 both moving ≡ moving_reports }
    ensures answers { sent_to 10 both moving ≡ moving_answers }
    ensures records { records_at 2 both moving ≡ moving_records }
{}
