//! Printing what the metadata server and the directory service are asked.
ghost use Rattle.std.specs.Prelude.{◌≡◌, ◌++◌, ◌∷◌, [], OnOk, codes};
ghost use Rattle.std.specs.Fmt.{decimal};
ghost use Rattle.server_text.specs.Words.{behind, mode_word, node_words};
ghost use Rattle.server_text.specs.WordText.{text_of};
ghost use Rattle.server_text.specs.RequestText.{kind_word, meta_words, name_or_dash, registry_words, want_word};

use crate::spelling::{Word, kind_word, push_nodes, push_words};
use xt_base::{Name, NodeId, OutOfMemory};
use xt_messages::{Kind, MetaReq, RegistryReq};

/// Appends ` report F`.
fn push_report(out: &mut Vec<u8>, file: u64) -> Result<(), OutOfMemory>
    ensures { OnOk result (out.new.items ≡
        out.old.items ++ behind (codes "report" ∷ decimal file ∷ [])) }
{
    push_words(out, &[Word::Text(b"report"), Word::Number(file)])
}

/// A name, or a dash for the empty one.
fn name_or_dash(name: &Name) -> Word<'_>
    ensures { text_of result ≡ name_or_dash name.now }
{
    let bytes = name.as_str().as_bytes();
    if bytes.is_empty() {
        Word::Text(b"-")
    } else {
        Word::Text(bytes)
    }
}

/// What a capability is wanted for.
fn want_word(want: u8) -> Word<'static>
    ensures { text_of result ≡ want_word want }
{
    if want == 1 {
        Word::Text(b"read")
    } else if want == 2 {
        Word::Text(b"write")
    } else if want == 3 {
        Word::Text(b"truncate")
    } else {
        Word::Number(u64::from(want))
    }
}

/// Appends a verb and a path.
fn push_path<'a>(out: &mut Vec<u8>, verb: &'a [u8], path: &'a Name) -> Result<(), OutOfMemory>
    ensures { OnOk result (out.new.items ≡ out.old.items ++ behind (verb.now ∷ path.now ∷ [])) }
{
    push_words(out, &[Word::Text(verb), Word::Name(path)])
}

/// Appends a verb, a path and a mode.
fn push_path_and_mode<'a>(
    out: &mut Vec<u8>,
    verb: &'a [u8],
    path: &'a Name,
    mode: u16,
) -> Result<(), OutOfMemory>
    ensures { OnOk result (out.new.items ≡
        out.old.items ++ behind (verb.now ∷ path.now ∷ mode_word mode ∷ [])) }
{
    push_words(out, &[Word::Text(verb), Word::Name(path), Word::Mode(mode)])
}

/// Appends ` create PATH MODE rep|str N STRIPE`.
fn push_create(
    out: &mut Vec<u8>,
    path: &Name,
    mode: u16,
    kind: Kind,
    n: u8,
    stripe: u32,
) -> Result<(), OutOfMemory>
    ensures { OnOk result (out.new.items ≡
        out.old.items ++
        behind (codes "create" ∷ path.now ∷ mode_word mode ∷ kind_word kind ∷ decimal n
        ∷ decimal stripe ∷ [])) }
{
    push_path_and_mode(out, b"create", path, mode)?;
    push_words(
        out,
        &[
            Word::Text(kind_word(kind)),
            Word::Number(u64::from(n)),
            Word::Small(stripe),
        ],
    )
}

/// Appends ` rename PATH PATH`.
fn push_rename<'a>(out: &mut Vec<u8>, from: &'a Name, to: &'a Name) -> Result<(), OutOfMemory>
    ensures { OnOk result (out.new.items ≡
        out.old.items ++ behind (codes "rename" ∷ from.now ∷ to.now ∷ [])) }
{
    push_words(
        out,
        &[Word::Text(b"rename"), Word::Name(from), Word::Name(to)],
    )
}

/// Appends ` list PATH NAME|-`.
fn push_list<'a>(out: &mut Vec<u8>, path: &'a Name, after: &'a Name) -> Result<(), OutOfMemory>
    ensures { OnOk result (out.new.items ≡
        out.old.items ++ behind (codes "list" ∷ path.now ∷ name_or_dash after.now ∷ [])) }
{
    push_words(
        out,
        &[Word::Text(b"list"), Word::Name(path), name_or_dash(after)],
    )
}

/// Appends ` grant PATH read|write|truncate`.
fn push_grant(out: &mut Vec<u8>, path: &Name, want: u8) -> Result<(), OutOfMemory>
    ensures { OnOk result (out.new.items ≡
        out.old.items ++ behind (codes "grant" ∷ path.now ∷ want_word want ∷ [])) }
{
    push_words(
        out,
        &[Word::Text(b"grant"), Word::Name(path), want_word(want)],
    )
}

/// Appends ` change PATH NODE ..`.
fn push_change(out: &mut Vec<u8>, path: &Name, nodes: &[NodeId]) -> Result<(), OutOfMemory>
    ensures { OnOk result (out.new.items ≡
        out.old.items ++ behind (codes "change" ∷ path.now ∷ node_words nodes.now)) }
{
    push_path(out, b"change", path)?;
    push_nodes(out, nodes)
}

/// Appends a request to the MRC, as ` VERB ARGS`.
#[tactic(auto, unfolding(crate::specs::RequestText::meta_words))]
fn push_meta_request(out: &mut Vec<u8>, request: &MetaReq) -> Result<(), OutOfMemory>
    ensures { OnOk result (out.new.items ≡ out.old.items ++ behind (meta_words request.now)) }
{
    match request {
        MetaReq::Mkdir { path, mode } => push_path_and_mode(out, b"mkdir", path, *mode),
        MetaReq::Create {
            path,
            mode,
            kind,
            n,
            stripe,
        } => push_create(out, path, *mode, *kind, *n, *stripe),
        MetaReq::Rename { from, to } => push_rename(out, from, to),
        MetaReq::Unlink { path } => push_path(out, b"unlink", path),
        MetaReq::Rmdir { path } => push_path(out, b"rmdir", path),
        MetaReq::List { path, after } => push_list(out, path, after),
        MetaReq::Stat { path } => push_path(out, b"stat", path),
        MetaReq::Chmod { path, mode } => push_path_and_mode(out, b"chmod", path, *mode),
        MetaReq::Grant { path, want } => push_grant(out, path, *want),
        MetaReq::Report { capability, .. } => push_report(out, capability.file.number),
        MetaReq::Change { path, nodes } => push_change(out, path, nodes.as_slice()),
        MetaReq::Locate { path } => push_path(out, b"locate", path),
    }
}

/// Appends ` set NODE KIND ADDR EXPECTED`.
fn push_set(
    out: &mut Vec<u8>,
    node: NodeId,
    kind: u8,
    address: &Name,
    expected: u64,
) -> Result<(), OutOfMemory>
    ensures { OnOk result (out.new.items ≡
        out.old.items ++
        behind (codes "set" ∷ decimal node.0 ∷ decimal kind ∷ address.now ∷ decimal expected
        ∷ [])) }
{
    push_words(
        out,
        &[
            Word::Text(b"set"),
            Word::Node(node),
            Word::Number(u64::from(kind)),
            Word::Name(address),
            Word::Number(expected),
        ],
    )
}

/// Appends ` get NODE`.
fn push_get(out: &mut Vec<u8>, node: NodeId) -> Result<(), OutOfMemory>
    ensures { OnOk result (out.new.items ≡
        out.old.items ++ behind (codes "get" ∷ decimal node.0 ∷ [])) }
{
    push_words(out, &[Word::Text(b"get"), Word::Node(node)])
}

/// Appends ` list KIND AFTER`.
fn push_rows_after(out: &mut Vec<u8>, kind: u8, after: NodeId) -> Result<(), OutOfMemory>
    ensures { OnOk result (out.new.items ≡
        out.old.items ++ behind (codes "list" ∷ decimal kind ∷ decimal after.0 ∷ [])) }
{
    push_words(
        out,
        &[
            Word::Text(b"list"),
            Word::Number(u64::from(kind)),
            Word::Node(after),
        ],
    )
}

/// Appends ` remove NODE EXPECTED`.
fn push_remove(out: &mut Vec<u8>, node: NodeId, expected: u64) -> Result<(), OutOfMemory>
    ensures { OnOk result (out.new.items ≡
        out.old.items ++ behind (codes "remove" ∷ decimal node.0 ∷ decimal expected ∷ [])) }
{
    push_words(
        out,
        &[
            Word::Text(b"remove"),
            Word::Node(node),
            Word::Number(expected),
        ],
    )
}

/// Appends a request to the DIR, as ` VERB ARGS`.
#[tactic(auto, unfolding(crate::specs::RequestText::registry_words))]
pub fn push_registry_request(out: &mut Vec<u8>, request: &RegistryReq) -> Result<(), OutOfMemory>
    ensures { OnOk result (out.new.items ≡ out.old.items ++ behind (registry_words request.now)) }
{
    match request {
        RegistryReq::Set {
            node,
            kind,
            address,
            expected,
        } => push_set(out, *node, *kind, address, *expected),
        RegistryReq::Get { node } => push_get(out, *node),
        RegistryReq::List { kind, after } => push_rows_after(out, *kind, *after),
        RegistryReq::Remove { node, expected } => push_remove(out, *node, *expected),
    }
}

/// Appends ` USER GROUP VERB ARGS`.
pub fn push_meta_call(
    out: &mut Vec<u8>,
    user: u32,
    group: u32,
    request: &MetaReq,
) -> Result<(), OutOfMemory>
    ensures { OnOk result (out.new.items ≡
        out.old.items ++ behind (decimal user ∷ decimal group ∷ meta_words request.now)) }
{
    push_words(out, &[Word::Small(user), Word::Small(group)])?;
    push_meta_request(out, request)
}

/// Appends ` USER GROUP report F`.
pub fn push_report_call(
    out: &mut Vec<u8>,
    user: u32,
    group: u32,
    file: u64,
) -> Result<(), OutOfMemory>
    ensures { OnOk result (out.new.items ≡
        out.old.items ++
        behind (decimal user ∷ decimal group ∷ codes "report" ∷ decimal file ∷ [])) }
{
    push_words(
        out,
        &[
            Word::Small(user),
            Word::Small(group),
            Word::Text(b"report"),
            Word::Number(file),
        ],
    )
}
