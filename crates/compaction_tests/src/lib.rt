//! Tests of a store that is compacted on its disk: where its areas stand, and what a crash leaves at each call.
//!
//! Each goes over a table, whose answers were worked out by hand from the format. Contracts say the same of all disks; a table shows that
//! they mean what the format says.
#![tactic(auto)]

#[cfg(test)]
mod compactions;
