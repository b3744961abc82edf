//! A change of a replicated file's list of members, as definitions: what is counted of it and what is chosen for it (`Changes`), and
//! what the metadata server does with the changes that it carries out (`Coordinating`).
//!
//! Nothing runs here. The code of a change (`view_change`) computes the first, and the steps of the metadata server take the second.
#![tactic(auto)]

use std::alloc::Global;
use xt_base::{Copies, FileId, NodeId, OutOfMemory};
use xt_messages::{FileHead, Location};

/// What is chosen for a change: where the file's content is kept from then on, the head that each new member begins with, and the old
/// member that reported this head, from which its bodies are fetched.
pub struct Choice {
    pub file: FileId,
    pub location: Location,
    pub head: FileHead,
    pub source: NodeId,
}

impl Copies for Choice {
    fn copy(&self, alloc: Global) -> Result<Choice, OutOfMemory> {
        Ok(Choice {
            file: self.file,
            location: self.location,
            head: self.head.copy(alloc)?,
            source: self.source,
        })
    }
}

// A derived drop is part of the code of each function that may drop a value, and proved there. This one is proved once.
impl Drop for Choice {
    fn drop(self) {
        let Choice {
            file: _,
            location: _,
            head: _,
            source: _,
        } = self;
    }
}

ghost use Rattle.std.specs.Prelude.{◌≡◌, ◌∷◌, [], ℕ, List, None, Some};
ghost use Rattle.xt_base.specs.TimeSettings.{TimeSettings};
ghost use Rattle.xt_base.specs.declared.ids.NodeId.{NodeId as Node};
ghost use Rattle.xt_base.specs.declared.ids.FileId.{FileId as File};
ghost use Rattle.xt_messages.specs.declared.file.Location.{Location as Place};
ghost use Rattle.xt_messages.specs.declared.file.FileHead.{FileHead as Head};
ghost use Rattle.change_rows.specs.Changes.{ChangeState, choice_at, closed_by, new_change};
ghost use Rattle.xt_messages.specs.declared.event.Mark.TheVariants as mark;
ghost use Rattle.change_rows.specs.Coordinating.{Running, chosen, close_to, install_to, listed, unmoved, woken};
ghost use Rattle.change_rows.specs.Laws.{IsAbove, IsEarly, IsTimed, WakeKeeps};
ghost use Rattle.change_rows.specs.Examples.{closed_once, early_wake, first_wake, installed_once, installed_twice, late_wake, of_two, osd, some_file, to_second, two_counted, wanted_again};

/// Nothing is chosen exactly when fewer than a majority of the old members are counted, or the length of a lease and the drift haven't
/// passed since the closing that made the majority. The moment of the majority is known exactly from the majority on, and is set once.
pub fn choices_wait()
    ensures early { (c : ChangeState) (now : ℕ) → choice_at c now ≡ None → IsEarly c now }
    ensures late { (c : ChangeState) (now : ℕ) → IsEarly c now → choice_at c now ≡ None }
    ensures begun { (times : TimeSettings) (file : File) (old : Place) (next : List Node) →
        IsTimed (new_change times file old next) }
    ensures timed { (c : ChangeState) (now : ℕ) (from : Node) (version : ℕ) (head : Head) →
        IsTimed c → IsTimed (closed_by c now from version head) }
    ensures once { (c : ChangeState) (now : ℕ) (from : Node) (version : ℕ) (head : Head)
        (moment : ℕ) → IsTimed c → c.since ≡ Some moment →
        (closed_by c now from version head).since ≡ Some moment }
{}

/// The epoch that a chosen head is promised to is above each that was reported, so that no primary of the old list goes on under it.
pub fn choices_are_above()
    ensures { (c : ChangeState) → IsAbove c }
{}

/// At a Wake at most one choice is made, for a file that had none and is ready, and all other files are as they were.
pub fn a_wake_makes_one_choice()
    ensures { (now : ℕ) (running : List Running) → WakeKeeps now running (woken now running) }
{}

/// The steps of a change of a file from one OSD to another, and what is chosen of two reports of three members, worked out by hand.
#[tactic(auto, unfolding(xt_protocol::specs::Choice::chosen_of))]
pub fn examples()
    ensures closes { first_wake.turned.outs ≡ close_to some_file 1 (osd 1) ∷ [] }
    ensures waits { early_wake ≡ unmoved closed_once.running }
    ensures chooses { late_wake.turned.rec ≡ Some (chosen to_second) }
    ensures installs { late_wake.turned.outs ≡ install_to to_second (osd 2) ∷ [] }
    ensures wanted { wanted_again.turned.outs ≡ install_to to_second (osd 2) ∷ [] }
    ensures lists { installed_once.turned.rec ≡ Some (listed to_second) }
    ensures shows { installed_once.turned.marks ≡ mark.List some_file 2 (osd 2 ∷ []) ∷ [] }
    ensures once { installed_twice ≡ unmoved installed_once.running }
    ensures early { choice_at two_counted 6103 ≡ None }
    ensures ripe { choice_at two_counted 6104 ≡ Some of_two }
{}
