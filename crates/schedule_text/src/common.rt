//! Printing what lines of schedules and entries of traces have alike.
ghost use Rattle.std.specs.Prelude.{◌≡◌, ◌++◌, ◌∷◌, [], OnOk, codes};
ghost use Rattle.std.specs.Fmt.{decimal};
ghost use Rattle.server_text.specs.Words.{behind, spaced};
ghost use Rattle.schedule_text.specs.CallText.{file_words};

use server_text::{Word, kind_word, push_named_words, push_nodes, push_words};
use xt_base::{NodeId, OutOfMemory};
use xt_messages::Location;

/// Appends ` F rep|str STRIPE NODE .. NODE`.
fn push_file(out: &mut Vec<u8>, number: u64, location: &Location) -> Result<(), OutOfMemory>
    ensures { OnOk result (out.new.items ≡
        out.old.items ++ behind (file_words number location.now)) }
{
    push_words(
        out,
        &[
            Word::Number(number),
            Word::Text(kind_word(location.kind)),
            Word::Small(location.stripe),
        ],
    )?;
    push_nodes(out, location.members.as_slice())
}

/// Appends `file F rep|str STRIPE NODE .. NODE`.
pub(crate) fn push_file_line(
    out: &mut Vec<u8>,
    number: u64,
    location: &Location,
) -> Result<(), OutOfMemory>
    ensures { OnOk result (out.new.items ≡
        out.old.items ++ spaced (codes "file" ∷ file_words number location.now)) }
{
    out.extend_from_slice(b"file")?;
    push_file(out, number, location)
}

/// Appends `times L E`.
pub(crate) fn push_times(out: &mut Vec<u8>, lease: u64, drift: u64) -> Result<(), OutOfMemory>
    ensures { OnOk result (out.new.items ≡
        out.old.items ++ spaced (codes "times" ∷ decimal lease ∷ decimal drift ∷ [])) }
{
    push_named_words(out, b"times", &[Word::Number(lease), Word::Number(drift)])
}

/// Appends a name and a node.
pub(crate) fn push_named_node(
    out: &mut Vec<u8>,
    name: &[u8],
    node: NodeId,
) -> Result<(), OutOfMemory>
    ensures { OnOk result (out.new.items ≡
        out.old.items ++ spaced (name.now ∷ decimal node.0 ∷ [])) }
{
    push_named_words(out, name, &[Word::Node(node)])
}

/// Appends a name, a node and a clock.
pub(crate) fn push_clock(
    out: &mut Vec<u8>,
    name: &[u8],
    node: NodeId,
    clock: u64,
) -> Result<(), OutOfMemory>
    ensures { OnOk result (out.new.items ≡
        out.old.items ++ spaced (name.now ∷ decimal node.0 ∷ decimal clock ∷ [])) }
{
    push_named_words(out, name, &[Word::Node(node), Word::Number(clock)])
}

/// Appends a name and a number.
pub(crate) fn push_named(out: &mut Vec<u8>, name: &[u8], number: u128) -> Result<(), OutOfMemory>
    ensures { OnOk result (out.new.items ≡
        out.old.items ++ spaced (name.now ∷ decimal number ∷ [])) }
{
    push_named_words(out, name, &[Word::Wide(number)])
}
