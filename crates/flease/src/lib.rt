//! The lease of a file, as its own OSDs negotiate it: the register in which it is chosen (an acceptor's promises, a proposer's round), the
//! states of an OSD toward it (silent after a start, free, asking, writing, held), and these as one value, `FileLease`.
//!
//! Each call equals its definition in `xt_protocol` (`Register`, `LeaseRows`); no call takes memory. Nobody holds a lease but by a majority
//! of acceptances in time, and only a held one gives a [`Turn`], by which its holder may act at that moment alone. Times are in milliseconds.
#![tactic(auto)]

mod acceptor;
mod asking;
mod free;
mod held;
mod lease;
mod news;
mod proposer;
mod round;
mod seats;
mod silent;
mod targets;
mod writing;

pub use acceptor::{Acceptor, ReadAnswer, WriteAnswer};
pub use held::Turn;
pub use lease::FileLease;
pub use news::{Expiry, News};
pub use silent::{Awake, Silent};
pub use targets::Targets;
