//! The protocol, as definitions: what an OSD does in one step, row by row (what is overdue, an ask on a replicated or a striped file, the
//! lease, the replica, the primary and a wake), and what records say.
//!
//! The rows are functions in `specs/`: the crates above compute them, and the safety theorems speak of them. The types here are the
//! states that rows change, and what a step gives (`Turned`): its calls put that together as the rows do, and fail only where memory runs
//! out.
#![tactic(auto)]

mod states;
mod turned;

ghost use Rattle.std.specs.Prelude.{◌≡◌, ℕ, max, None, List, [], ◌∷◌};
ghost use Rattle.xt_messages.specs.declared.event.Event.{Event};
ghost use Rattle.xt_protocol.specs.LeaseRows.{awake_at};
ghost use Rattle.xt_protocol.specs.OsdSteps.{Outside, OsdState, step_of_osd};
ghost use Rattle.xt_protocol.specs.Examples.{marks_of, trio, alone, alone_marks, catching_up, catching_up_marks, turns_edge, turns_edge_marks, repeats, repeats_marks, forgotten_promises, vanished, vanished_marks, found, found_marks, silence, silence_marks, told_to, outrun, outrun_reply, deadline, deadline_reply, behind_issued, behind_issued_marks, committed_then, too_far_reply, file_1, ahead, shorter, taken, missed, epoch_of, promised_head, promises, refuses, stamp_of, abc, striped_ask, striped_update, striped_write, striped_read, striped_elsewhere};
ghost use Rattle.xt_messages.specs.declared.file.Op.TheVariants as op;
ghost use Rattle.xt_protocol.specs.ReplicaRows.{gathered, headed};
ghost use Rattle.xt_protocol.specs.Heads.{new_head};
ghost use Rattle.xt_protocol.specs.Folds.{body_of};

pub use states::{
    Acted, Asks, IssuedAsk, IssuedUpdate, Nodes, Peer, PeerState, Peers, Place, PlainActed,
    PrimaryState, Progress, Tenure, WaitingAsk,
};
pub use turned::{
    Turned, answers, extend, join, keeps, message, one, quiet, reply_to, sends, sends_one, shows,
    tells, to_each,
};

/// In its silence nothing comes of an event.
pub fn silence_is_kept()
    ensures { (outside : Outside) (osd : OsdState) (reading : ℕ) (happens : Event) →
        awake_at osd.started (max reading osd.last) ≡ None →
        (step_of_osd outside osd reading happens).osd ≡ osd }
{}

/// What a few nodes do by these rows.
pub fn examples()
    ensures one { marks_of 0 (1 ∷ []) alone ≡ alone_marks }
    ensures behind { marks_of 0 trio catching_up ≡ catching_up_marks }
    ensures edge { marks_of 3900 trio turns_edge ≡ turns_edge_marks }
    ensures again { marks_of 0 trio repeats ≡ repeats_marks }
    ensures unheld { marks_of 0 (1 ∷ 2 ∷ 3 ∷ 4 ∷ 5 ∷ []) forgotten_promises ≡ [] }
    ensures lost { marks_of 0 trio vanished ≡ vanished_marks }
    ensures there { marks_of 0 trio found ≡ found_marks }
    ensures silent { marks_of 2950 (1 ∷ []) silence ≡ silence_marks }
    ensures outran { told_to 10 0 trio outrun ≡ outrun_reply }
    ensures late { told_to 10 0 trio deadline ≡ deadline_reply }
    ensures issued { marks_of 0 trio behind_issued ≡ behind_issued_marks }
    ensures untested { told_to 11 0 trio behind_issued ≡ [] }
    ensures tested { told_to 11 0 trio committed_then ≡ too_far_reply }
    ensures took { headed file_1 ahead (body_of 0 (stamp_of 1 1 1) ∷ []) (epoch_of 2 2) shorter ≡
        taken }
    ensures misses { headed file_1 ahead [] (epoch_of 2 2) shorter ≡ missed }
    ensures promised { gathered file_1 new_head (epoch_of 2 3) ≡ promises }
    ensures stands { gathered file_1 promised_head (epoch_of 1 1) ≡ refuses }
    ensures striped { striped_ask 2 [] 1 (op.Write 1 0 abc) ≡ striped_write }
    ensures shown { striped_ask 2 (striped_update ∷ []) 2 (op.Read 1 1 3) ≡ striped_read }
    ensures other { striped_ask 3 [] 2 (op.Read 1 1 3) ≡ striped_elsewhere }
{}
