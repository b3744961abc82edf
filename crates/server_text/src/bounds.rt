//! Which requests and answers have a spelling, and values within their limits.
ghost use Rattle.std.specs.Prelude.{◌≡◌, ◌↔◌, IsTrue, nat_lt};
ghost use Rattle.std.specs.List.{AllByRecursion, list_all};
ghost use Rattle.xt_base.specs.FieldLimits.{FitsPath, FitsName};
ghost use Rattle.xt_messages.specs.Limits.{FitsStripe, FitsMembers, FitsMark, FitsMetaReq, FitsMetaRefusal, FitsRegistryReq, FitsRow};
ghost use Rattle.time_line.specs.Bounds.{FitsListed, FitsMetaOutcome, FitsRegistryOutcome};
ghost use Rattle.server_text.specs.Spellable.{is_of_word, IsAsciiWord, IsAfter, IsSpellableRequest, IsSpellableWish, IsSpellableMeta, IsSpellableRegistry};

use xt_base::{COUNTS, Members, Name, NodeId, SizeMark};
use xt_messages::{MetaOutcome, MetaRefusal, MetaReq, RegistryOutcome, RegistryReq, RegistryRow};

/// The longest path, in bytes.
const PATH: usize = 65_535;

/// The longest name of a list, and the longest address, in bytes.
const NAME: usize = 255;

/// The versions of lists are below this.
const VERSIONS: u32 = 1 << 31;

/// How many modes three octal digits spell.
const MODES: u16 = 512;

/// Whether each byte is of ASCII, no space and no line feed.
fn are_of_word(bytes: &[u8]) -> bool
    ensures { result ≡ list_all is_of_word bytes.now }
{
    bytes
        .iter()
        .all(|byte| *byte < 128 && *byte != b' ' && *byte != b'\n')
}

/// Whether the bytes are a word: one or more of ASCII, no space and no line feed.
fn is_word(bytes: &[u8]) -> bool
    ensures { IsTrue result ↔ IsAsciiWord bytes.now }
{
    !bytes.is_empty() && are_of_word(bytes)
}

/// Whether a text is a word, and may be a path.
#[tactic(auto, using(crate::proofs::AsciiWords::word_fits))]
fn is_path(path: &Name) -> bool
    ensures { IsTrue result ↔ (IsAsciiWord path.now × FitsPath path.now) }
{
    let bytes = path.as_str().as_bytes();
    bytes.len() <= PATH && is_word(bytes)
}

/// Whether a text is a word, and may be a name in a list or an address.
#[tactic(auto, using(crate::proofs::AsciiWords::word_fits))]
fn is_name(name: &Name) -> bool
    ensures { IsTrue result ↔ (IsAsciiWord name.now × FitsName name.now) }
{
    let bytes = name.as_str().as_bytes();
    bytes.len() <= NAME && is_word(bytes)
}

/// Whether a list may go on after this name.
fn is_after(after: &Name) -> bool
    ensures { IsTrue result ↔ (IsAfter after.now × FitsPath after.now) }
{
    let bytes = after.as_str().as_bytes();
    bytes.is_empty() || (bytes != b"-".as_slice() && is_path(after))
}

/// Whether a stripe is 1,024 to 131,072 bytes, in steps of 1,024.
pub fn is_stripe(stripe: u32) -> bool
    ensures { IsTrue result ↔ FitsStripe stripe }
{
    (1_024..=131_072).contains(&stripe) && stripe % 1_024 == 0
}

/// Whether the nodes are one to nine different ones.
#[tactic(auto, using(crate::proofs::ManyAgain::nodes_fit, crate::proofs::ManyAgain::nodes_pass))]
pub fn are_members(nodes: &[NodeId]) -> bool
    ensures { IsTrue result ↔ FitsMembers nodes.now }
{
    are_nodes(nodes) && Members::new(nodes).is_ok()
}

/// Whether a request to the MRC has a spelling, and values within their limits.
pub fn is_meta_request(request: &MetaReq) -> bool
    ensures { IsTrue result ↔ (IsSpellableRequest request.now × FitsMetaReq request.now) }
{
    match request {
        MetaReq::Mkdir { path, mode } => *mode < MODES && is_path(path),
        MetaReq::Create {
            path,
            mode,
            kind: _,
            n,
            stripe,
        } => *mode < MODES && (1..=9).contains(n) && is_stripe(*stripe) && is_path(path),
        MetaReq::Rename { from, to } => is_path(from) && is_path(to),
        MetaReq::Unlink { path } => is_path(path),
        MetaReq::Rmdir { path } => is_path(path),
        MetaReq::List { path, after } => is_path(path) && is_after(after),
        MetaReq::Stat { path } => is_path(path),
        MetaReq::Chmod { path, mode } => *mode < MODES && is_path(path),
        MetaReq::Grant { path, want } => (1..=3).contains(want) && is_path(path),
        MetaReq::Report { .. } => false,
        MetaReq::Change { path, nodes } => is_path(path) && are_members(nodes.as_slice()),
        MetaReq::Locate { path } => is_path(path),
    }
}

/// Whether a request to the DIR has a spelling, and values within their limits.
pub fn is_registry_request(request: &RegistryReq) -> bool
    ensures { IsTrue result ↔ (IsSpellableWish request.now × FitsRegistryReq request.now) }
{
    match request {
        RegistryReq::Set {
            node,
            kind,
            address,
            expected,
        } => {
            let _node_fits = node.0;
            let _kind_fits = *kind;
            *expected < COUNTS && is_name(address)
        }
        RegistryReq::Get { node } => {
            let _fits = node.0;
            true
        }
        RegistryReq::List { kind, after } => {
            let _kind_fits = *kind;
            let _after_fits = after.0;
            true
        }
        RegistryReq::Remove { node, expected } => {
            let _fits = node.0;
            *expected < COUNTS
        }
    }
}

/// Whether the values of a refusal are within their limits.
fn is_refusal(refusal: &MetaRefusal) -> bool
    ensures { IsTrue result ↔ FitsMetaRefusal refusal.now }
{
    match refusal {
        MetaRefusal::Forbidden { rule } => (1..=4).contains(rule),
        MetaRefusal::TooFew { have } => {
            let _fits = *have;
            true
        }
        MetaRefusal::Changing { version } => *version < VERSIONS,
        MetaRefusal::UnknownOsd { node } => {
            let _fits = node.0;
            true
        }
        _ => true,
    }
}

/// Whether the values of a mark are within their limits.
fn is_mark(mark: &SizeMark) -> bool
    ensures { IsTrue result ↔ FitsMark mark.now }
{
    let _fits = mark.size;
    mark.epoch < COUNTS
}

/// Whether the names are words, and may stand in a list.
fn are_names(names: &[Name]) -> bool
    ensures { IsTrue result ↔
        (AllByRecursion IsAsciiWord names.now × AllByRecursion FitsName names.now) }
{
    let mut rest = names;
    while let [name, behind @ ..] = rest {
        if !is_name(name) {
            return false;
        }
        rest = behind;
    }
    true
}

/// Whether an answer of the MRC has a spelling, and values within their limits.
pub fn is_meta_outcome(told: &MetaOutcome) -> bool
    ensures { IsTrue result ↔ (IsSpellableMeta told.now × FitsMetaOutcome told.now) }
{
    match told {
        MetaOutcome::Done => true,
        MetaOutcome::Refused { refusal } => is_refusal(refusal),
        MetaOutcome::Names { names } => names.len() <= 512 && are_names(names.as_slice()),
        MetaOutcome::Row {
            kind: _,
            owner,
            group,
            mode,
            mark,
        } => {
            let _owner_fits = *owner;
            let _group_fits = *group;
            *mode < MODES && is_mark(mark)
        }
        MetaOutcome::Granted { file, mark } => {
            let _fits = *file;
            is_mark(mark)
        }
        MetaOutcome::Located {
            version,
            changing: _,
            members,
        } => *version < VERSIONS && are_members(members.as_slice()),
    }
}

/// Whether a row of the DIR has a spelling, and values within their limits.
fn is_row(row: &RegistryRow) -> bool
    ensures { IsTrue result ↔ (IsAsciiWord row.now.address × FitsRow row.now) }
{
    let _node_fits = row.node.0;
    let _kind_fits = row.kind;
    row.version < COUNTS && is_name(&row.address)
}

/// Whether each node's number is below 2^32, as it always is.
pub fn are_nodes(nodes: &[NodeId]) -> bool
    ensures { result ≡ list_all (λ node. nat_lt node.0 4294967296) nodes.now }
{
    nodes.iter().all(|node| u64::from(node.0) < 1 << 32)
}

/// Whether nodes may stand in an answer of the DIR.
#[tactic(auto, using(crate::proofs::ManyAgain::nodes_fit, crate::proofs::ManyAgain::nodes_pass))]
fn are_listed(nodes: &[NodeId]) -> bool
    ensures { IsTrue result ↔ FitsListed nodes.now }
{
    nodes.len() <= 256 && are_nodes(nodes)
}

/// Whether an answer of the DIR has a spelling, and values within their limits.
pub fn is_registry_outcome(told: &RegistryOutcome) -> bool
    ensures { IsTrue result ↔ (IsSpellableRegistry told.now × FitsRegistryOutcome told.now) }
{
    match told {
        RegistryOutcome::Done { version } => *version < COUNTS,
        RegistryOutcome::Changed { version } => *version < COUNTS,
        RegistryOutcome::Absent => true,
        RegistryOutcome::Row { row } => is_row(row),
        RegistryOutcome::Rows { nodes } => are_listed(nodes.as_slice()),
    }
}
