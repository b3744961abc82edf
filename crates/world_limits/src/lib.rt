//! What every run of a world keeps to: its records are within their limits and each in its place, its messages are within theirs,
//! and so are clocks and plans; and so is all that a step more gives.
//!
//! So a hull may be asked to keep and to carry what a step gives, and it can refuse only where there is no room. Definitions and
//! theorems alone; nothing runs here.
#![tactic(auto)]

ghost use Rattle.world_spec.specs.NodeSteps.{Room};
ghost use Rattle.world_limits.specs.Fits.{DoStepsFit};

/// In every run of lines within their limits each step of the next line is made in a world that fits: what its nodes keep and what
/// was sent is within its limits, each record is in its place, and so is whatever an event, a call or a call made again may
/// bring about next.
pub fn steps_fit()
    ensures { (room : Room) → DoStepsFit room }
{}
