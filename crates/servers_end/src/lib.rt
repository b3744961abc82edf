//! A served DIR or MRC: at most one message to itself comes of an event, an answer, and nothing comes of that. What they report and
//! keep is within the limits by `server_limits`. Definitions and theorems alone; nothing runs here.
#![tactic(auto)]

ghost use Rattle.std.specs.Prelude.{◌≤◌, ℕ, List, length};
ghost use Rattle.std.specs.List.{AllByRecursion};
ghost use Rattle.xt_messages.specs.declared.event.Event.{Event};
ghost use Rattle.world_spec.specs.NodeSteps.{to_itself};
ghost use Rattle.server_rows.specs.Directory.{DirState, step_of_dir};
ghost use Rattle.server_rows.specs.Metadata.{MrcState, step_of_mrc};
ghost use Rattle.servers_end.specs.Servers.{dir_node, mrc_node, EndsAtDir, EndsAtMrc};

/// The DIR: at most one message to itself comes of an event, whatever it holds, and nothing comes of that one.
pub fn answers_of_the_dir_end()
    ensures { (dir : DirState) (happens : Event) →
        (let own = to_itself dir_node (step_of_dir dir happens).turned.outs in
        (length own ≤ 1) × AllByRecursion EndsAtDir own) }
{}

/// The MRC: at most one message to itself comes of an event, whatever it holds, and nothing comes of that one.
pub fn answers_of_the_mrc_end()
    ensures { (key : List ℕ) (mrc : MrcState) (reading : ℕ) (happens : Event) →
        (let own = to_itself mrc_node (step_of_mrc key mrc reading happens).turned.outs in
        (length own ≤ 1) × AllByRecursion (EndsAtMrc key) own) }
{}
