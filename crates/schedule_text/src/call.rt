ghost use Rattle.std.specs.Prelude.{◌≡◌, ◌++◌, ◌∷◌, [], OnOk};
ghost use Rattle.std.specs.Fmt.{decimal};
ghost use Rattle.server_text.specs.Words.{behind, hex_of};
ghost use Rattle.schedule_text.specs.CallText.{call_name, call_words};

use server_text::{Word, push_meta_call, push_registry_request, push_report_call, push_words};
use xt_base::{Octets, OutOfMemory};
use xt_messages::Call;

/// Appends ` F OBJ AT LEN`.
fn push_read(
    out: &mut Vec<u8>,
    file: u64,
    object: u64,
    at: u32,
    len: u32,
) -> Result<(), OutOfMemory>
    ensures { OnOk result (out.new.items ≡
        out.old.items ++ behind (decimal file ∷ decimal object ∷ decimal at ∷ decimal len ∷ [])) }
{
    push_words(
        out,
        &[
            Word::Number(file),
            Word::Number(object),
            Word::Small(at),
            Word::Small(len),
        ],
    )
}

/// Appends ` F OBJ AT HEX`.
fn push_write(
    out: &mut Vec<u8>,
    file: u64,
    object: u64,
    at: u32,
    bytes: &Octets,
) -> Result<(), OutOfMemory>
    ensures { OnOk result (out.new.items ≡
        out.old.items ++
        behind (decimal file ∷ decimal object ∷ decimal at ∷ hex_of bytes.now ∷ [])) }
{
    push_words(
        out,
        &[
            Word::Number(file),
            Word::Number(object),
            Word::Small(at),
            Word::Hex(bytes.as_slice()),
        ],
    )
}

/// Appends ` F SIZE EPOCH`.
fn push_truncate(out: &mut Vec<u8>, file: u64, size: u64, epoch: u64) -> Result<(), OutOfMemory>
    ensures { OnOk result (out.new.items ≡
        out.old.items ++ behind (decimal file ∷ decimal size ∷ decimal epoch ∷ [])) }
{
    push_words(
        out,
        &[Word::Number(file), Word::Number(size), Word::Number(epoch)],
    )
}

/// The first word of a call.
#[tactic(auto, unfolding(crate::specs::CallText::call_name))]
pub(crate) fn call_name(call: &Call) -> &'static [u8]
    ensures { result.now ≡ call_name call.now }
{
    match call {
        Call::Read { .. } => b"read",
        Call::Write { .. } => b"write",
        Call::Truncate { .. } => b"truncate",
        Call::Meta { .. } | Call::Report { .. } => b"meta",
        Call::Registry { .. } => b"registry",
    }
}

/// Appends the other words of a call.
#[tactic(auto, unfolding(crate::specs::CallText::call_words))]
pub(crate) fn push_call(out: &mut Vec<u8>, call: &Call) -> Result<(), OutOfMemory>
    ensures { OnOk result (out.new.items ≡ out.old.items ++ behind (call_words call.now)) }
{
    match call {
        Call::Read {
            file,
            object,
            at,
            len,
        } => push_read(out, *file, *object, *at, *len),
        Call::Write {
            file,
            object,
            at,
            bytes,
        } => push_write(out, *file, *object, *at, bytes),
        Call::Truncate { file, size, epoch } => push_truncate(out, *file, *size, *epoch),
        Call::Meta {
            user,
            group,
            request,
        } => push_meta_call(out, *user, *group, request),
        Call::Report { user, group, file } => push_report_call(out, *user, *group, *file),
        Call::Registry { request } => push_registry_request(out, request),
    }
}
