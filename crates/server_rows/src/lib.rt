//! What the metadata server (MRC) and the directory service (DIR) do, as definitions: what comes of each request, a step each, and
//! what their records say.
//!
//! `Requests` and `Metadata` are the MRC's, `Directory` is the DIR's. The code of the servers computes these steps, and a run of a
//! world can take them. Definitions and theorems alone; nothing runs here.
#![tactic(auto)]

use xt_base::{FileId, SizeMark};
use xt_messages::Location;

/// For how long a capability serves, in milliseconds.
pub const LIFE: u64 = 600_000;

/// A file that was ever made, where it was placed, and the clock at which it was unlinked, in milliseconds, if it was.
#[derive(Clone, Copy)]
pub struct MadeFile {
    pub file: FileId,
    pub location: Location,
    pub unlinked: Option<u64>,
}

/// The issued truncate epoch and the mark that a file gets.
#[derive(Clone, Copy)]
pub struct NewSizes {
    pub file: FileId,
    pub epoch: u64,
    pub mark: SizeMark,
}

ghost use Rattle.std.specs.Prelude.{◌≡◌, ◌++◌, ℕ, Option, List, [], ◌∷◌, None, Some};
ghost use Rattle.std.specs.Option.{option_to_list};
ghost use Rattle.xt_base.specs.declared.ids.NodeId.{NodeId};
ghost use Rattle.xt_base.specs.declared.ids.FileId.{FileId};
ghost use Rattle.xt_messages.specs.declared.event.Event.{Event};
ghost use Rattle.xt_messages.specs.declared.record.Record.{Record};
ghost use Rattle.xt_messages.specs.declared.meta.MetaReq.{MetaReq};
ghost use Rattle.xt_messages.specs.declared.meta.MetaRefusal.{MetaRefusal};
ghost use Rattle.xt_messages.specs.declared.meta.MetaAnswer.TheVariants.{Refused};
ghost use Rattle.reply_cache.specs.Standings.{with_answer};
ghost use Rattle.volume_rows.specs.declared.Asker.{Asker};
ghost use Rattle.volume_rows.specs.declared.Picked.{Picked};
ghost use Rattle.volume_rows.specs.Rows.{Volumes};
ghost use Rattle.volume_rows.specs.Requests.{applied};
ghost use Rattle.volume_rows.specs.Examples.{first_steps, first_answers};
ghost use Rattle.server_rows.specs.Requests.{outcome_of};
ghost use Rattle.server_rows.specs.Metadata.{Catalogue, MrcState, after_request, catalogue_of, step_of_mrc};
ghost use Rattle.server_rows.specs.Directory.{dir_of, step_of_dir};
ghost use Rattle.server_rows.specs.Laws.{IsChange, RiseFrom, Settles, files_made};
ghost use Rattle.server_rows.specs.Naming.{GrantMade, Holds, Stays};
ghost use Rattle.server_rows.specs.Examples.{after, answers_from, at_epoch, fates, file_answers, file_steps, located_answers, located_steps, marks_reported, new_server, numbered, one_each, unlinking};

/// The records say what a metadata server knows: with that of a step after the earlier ones they say what it knows after the step.
/// The OSDs and the clock are in memory alone.
pub fn records_tell_the_catalogue()
    ensures { (key : List ℕ) (records : List Record) (osds : List NodeId) (last now : ℕ)
        (event : Event) →
        let mrc : MrcState = record {
          catalogue = catalogue_of key records;
          osds = osds;
          last = last;
        } in
        let step = step_of_mrc key mrc now event in
        catalogue_of key (records ++ option_to_list step.turned.rec) ≡ step.mrc.catalogue }
{}

/// The records determine the state of a directory service: with that of a step after the earlier ones they determine the state after
/// the step. So a service that starts from its records goes on where it was.
pub fn records_tell_the_directory()
    ensures { (records : List Record) (event : Event) →
        dir_of (records ++ option_to_list (step_of_dir (dir_of records) event).turned.rec) ≡
        (step_of_dir (dir_of records) event).dir }
{}

/// A refusal changes what its client was answered last, and nothing else.
pub fn a_refusal_changes_nothing_else()
    ensures { (key : List ℕ) (catalogue : Catalogue) (client : NodeId) (number now : ℕ)
        (nodes : Option (List NodeId)) (who : Asker) (request : MetaReq) (why : MetaRefusal) →
        (outcome_of key catalogue.volumes who now nodes request).answer ≡ Refused why →
        after_request key catalogue client number now nodes who request
        ≡ record catalogue { clients = with_answer catalogue.clients client number (Refused why) } }
{}

/// The numbers of the files that were ever made rise, from the first one on: no number is given twice.
pub fn made_files_rise()
    ensures { (key : List ℕ) (records : List Record) →
        RiseFrom 1000000 (files_made (catalogue_of key records).made) }
{}

/// A request that changes names, rights or files is done, or refused without a change.
pub fn changes_are_done_or_refused()
    ensures { (volumes : Volumes) (who : Asker) (pick : Picked) (request : MetaReq) →
        IsChange request → Settles volumes (applied volumes who pick request) }
{}

/// Each capability that a metadata server grants, also one that it grants again, names a file that the server made, at the place
/// where it was made, and what was made stays so. This holds of a server that starts from its records, and after each of its steps.
pub fn capabilities_name_made_files()
    ensures start { (key : List ℕ) (records : List Record) → Holds (catalogue_of key records) }
    ensures step { (key : List ℕ) (mrc : MrcState) (reading : ℕ) (happens : Event) →
        Holds mrc.catalogue → Holds (step_of_mrc key mrc reading happens).mrc.catalogue }
    ensures granted { (key : List ℕ) (mrc : MrcState) (reading : ℕ) (happens : Event) →
        Holds mrc.catalogue →
        (let step = step_of_mrc key mrc reading happens in
        GrantMade step.mrc.catalogue.made step.turned.outs) }
    ensures stays { (key : List ℕ) (mrc : MrcState) (reading : ℕ) (happens : Event) →
        Holds mrc.catalogue →
        Stays mrc.catalogue.made (step_of_mrc key mrc reading happens).mrc.catalogue.made }
{}

/// What a few messages come to at a metadata server, worked out by hand.
#[tactic(auto, unfolding(crate::specs::Metadata::step_of_mrc))]
pub fn examples()
    ensures first_ones { answers_from new_server (numbered 1 first_steps) ≡ one_each first_answers }
    ensures a_file { answers_from new_server file_steps ≡ file_answers }
    ensures located { answers_from (after new_server file_steps) located_steps ≡ located_answers }
    ensures made { fates (after new_server file_steps) ≡ (1000000, None) ∷ [] }
    ensures unlinked { fates (after (after new_server file_steps) unlinking) ≡
        (1000000, Some 5001) ∷ [] }
    ensures sizes { (file : FileId) →
        marks_reported file (at_epoch 0 0)
        (at_epoch 2 10 ∷ at_epoch 1 99 ∷ at_epoch 2 7 ∷ at_epoch 2 10 ∷ []) ≡
        at_epoch 2 10 ∷ at_epoch 2 10 ∷ at_epoch 2 10 ∷ at_epoch 2 10 ∷ [] }
{}
