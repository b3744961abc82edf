//! Tests of a scrub over stores that another model of the system wrote: what is found of their bodies, what mends one, and that bodies are
//! digested beside each other.
#![tactic(auto)]

#[cfg(test)]
mod scrubs;
#[cfg(test)]
mod stores;
