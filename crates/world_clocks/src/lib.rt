//! The clocks of declared nodes: the rules that a line may break by them, and what sets them.
//!
//! Each equals its definition in `world_spec`, of a list of nodes, whatever is stored for them: a rule names the least
//! running node of which its test holds, and to set a clock changes that of the one node that is there.
#![tactic(auto)]

mod readings;
mod setting;

pub use readings::{ClockTest, Reading, least_where};
pub use setting::{set_clock, tick};
