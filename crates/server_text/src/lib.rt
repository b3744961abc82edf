//! The words of a line, and in words what the metadata server and the directory service are asked and answer: how each
//! request and answer is spelled, which have a spelling, and how they are read.
//!
//! Reading is loose: bytes that are no spelling give some value, or a part of one. Who reads a line compares its spelling
//! with the line afterwards.
#![tactic(auto)]

mod answer_forms;
mod answer_text;
mod bounds;
mod lists;
mod request_forms;
mod request_text;
mod spelling;
mod words;

pub use answer_forms::{denial_of, read_meta_outcome, read_registry_outcome};
pub use answer_text::{denial_number, meta_refusal, push_meta_outcome, push_registry_outcome};
pub use bounds::{
    are_members, is_meta_outcome, is_meta_request, is_registry_outcome, is_registry_request,
    is_stripe,
};
pub use lists::{members_at, node_in};
pub use request_forms::{
    kind_of, read_meta_call, read_meta_request, read_registry_call, read_registry_request,
};
pub use request_text::{push_meta_call, push_registry_request, push_report_call};
pub use spelling::{
    Phrase, Word, hex_or_dash, kind_word, push_counted, push_digits, push_lone, push_named_words,
    push_nodes, push_pair, push_phrase, push_wide_digits, push_word, push_words,
};
pub use words::{
    byte_of, bytes_of, cut, digit_of, mode_of, name_of, u8_at, u8_of, u32_at, u32_of, u64_at,
    u64_of, u128_at, u128_of,
};
