//! Printing what the metadata server and the directory service answer.
ghost use Rattle.std.specs.Prelude.{◌≡◌, ◌++◌, ◌∷◌, [], OnOk, codes};
ghost use Rattle.std.specs.Fmt.{decimal};
ghost use Rattle.server_text.specs.Words.{behind, mode_word, node_words};
ghost use Rattle.server_text.specs.WordText.{phrase_words};
ghost use Rattle.server_text.specs.AnswerText.{denial_number, meta_refusal_words, row_word, changing_word, meta_outcome_words, registry_outcome_words};

use crate::spelling::{
    Phrase, Word, push_counted, push_lone, push_nodes, push_phrase, push_word, push_words,
};
use xt_base::{Name, NodeId, OutOfMemory, SizeMark};
use xt_messages::{Denial, MetaOutcome, MetaRefusal, RegistryOutcome, RegistryRow, RowKind};

/// The number of a denial.
pub fn denial_number(rule: Denial) -> u64
    ensures { result ≡ denial_number rule }
{
    match rule {
        Denial::Tag => 1,
        Denial::File => 2,
        Denial::Expired => 3,
        Denial::Mode => 4,
        Denial::List => 5,
        Denial::Range => 6,
    }
}

/// The MRC's refusal.
#[tactic(auto, unfolding(crate::specs::AnswerText::meta_refusal_words))]
pub fn meta_refusal(refusal: &MetaRefusal) -> Phrase
    ensures { phrase_words result ≡ meta_refusal_words refusal.now }
{
    match refusal {
        MetaRefusal::NotFound => Phrase::Lone(b"notfound"),
        MetaRefusal::Exists => Phrase::Lone(b"exists"),
        MetaRefusal::NotDir => Phrase::Lone(b"notdir"),
        MetaRefusal::IsDir => Phrase::Lone(b"isdir"),
        MetaRefusal::NotEmpty => Phrase::Lone(b"notempty"),
        MetaRefusal::IntoSelf => Phrase::Lone(b"intoself"),
        MetaRefusal::OtherVolume => Phrase::Lone(b"othervolume"),
        MetaRefusal::Forbidden { rule } => Phrase::Counted(b"forbidden", u64::from(*rule)),
        MetaRefusal::NameBad => Phrase::Lone(b"namebad"),
        MetaRefusal::TooFew { have } => Phrase::Counted(b"toofew", u64::from(*have)),
        MetaRefusal::Denied { rule } => Phrase::Counted(b"denied", denial_number(*rule)),
        MetaRefusal::Changing { version } => Phrase::Counted(b"changing", u64::from(*version)),
        MetaRefusal::NotReplicated => Phrase::Lone(b"notreplicated"),
        MetaRefusal::UnknownOsd { node } => Phrase::Counted(b"unknownosd", u64::from(node.0)),
    }
}

/// Appends names.
fn push_names(out: &mut Vec<u8>, names: &[Name]) -> Result<(), OutOfMemory>
    ensures { OnOk result (out.new.items ≡ out.old.items ++ behind names.now) }
{
    for name in names {
        push_word(out, &Word::Name(name))?;
    }
    Ok(())
}

/// The word of a row's kind.
fn row_word(kind: RowKind) -> &'static [u8]
    ensures { result.now ≡ row_word kind }
{
    match kind {
        RowKind::Directory => b"dir",
        RowKind::File => b"file",
    }
}

/// Appends ` row dir|file OWNER GROUP MODE EPOCH SIZE`.
fn push_row(
    out: &mut Vec<u8>,
    kind: RowKind,
    owner: u32,
    group: u32,
    mode: u16,
    mark: SizeMark,
) -> Result<(), OutOfMemory>
    ensures { OnOk result (out.new.items ≡
        out.old.items ++
        behind (codes "row" ∷ row_word kind ∷ decimal owner ∷ decimal group ∷ mode_word mode
        ∷ decimal mark.epoch ∷ decimal mark.size ∷ [])) }
{
    push_words(
        out,
        &[
            Word::Text(b"row"),
            Word::Text(row_word(kind)),
            Word::Small(owner),
            Word::Small(group),
            Word::Mode(mode),
            Word::Number(mark.epoch),
            Word::Number(mark.size),
        ],
    )
}

/// Appends ` granted F EPOCH SIZE`.
fn push_granted(out: &mut Vec<u8>, file: u64, mark: SizeMark) -> Result<(), OutOfMemory>
    ensures { OnOk result (out.new.items ≡
        out.old.items ++
        behind (codes "granted" ∷ decimal file ∷ decimal mark.epoch ∷ decimal mark.size ∷ [])) }
{
    push_words(
        out,
        &[
            Word::Text(b"granted"),
            Word::Number(file),
            Word::Number(mark.epoch),
            Word::Number(mark.size),
        ],
    )
}

/// Appends ` names` and the names.
fn push_named_names(out: &mut Vec<u8>, names: &[Name]) -> Result<(), OutOfMemory>
    ensures { OnOk result (out.new.items ≡ out.old.items ++ behind (codes "names" ∷ names.now)) }
{
    push_word(out, &Word::Text(b"names"))?;
    push_names(out, names)
}

/// Whether a file's list is being changed.
fn changing_word(changing: bool) -> &'static [u8]
    ensures { result.now ≡ changing_word changing }
{
    if changing { b"changing" } else { b"still" }
}

/// Appends ` located VERSION still|changing NODES`.
fn push_located(
    out: &mut Vec<u8>,
    version: u32,
    changing: bool,
    members: &[NodeId],
) -> Result<(), OutOfMemory>
    ensures { OnOk result (out.new.items ≡
        out.old.items ++
        behind (codes "located" ∷ decimal version ∷ changing_word changing
        ∷ node_words members.now)) }
{
    push_words(
        out,
        &[
            Word::Text(b"located"),
            Word::Small(version),
            Word::Text(changing_word(changing)),
        ],
    )?;
    push_nodes(out, members)
}

/// Appends the MRC's answer.
#[tactic(auto, unfolding(crate::specs::AnswerText::meta_outcome_words))]
pub fn push_meta_outcome(out: &mut Vec<u8>, answer: &MetaOutcome) -> Result<(), OutOfMemory>
    ensures { OnOk result (out.new.items ≡
        out.old.items ++ behind (meta_outcome_words answer.now)) }
{
    match answer {
        MetaOutcome::Done => push_lone(out, b"ok"),
        MetaOutcome::Refused { refusal } => push_phrase(out, &meta_refusal(refusal)),
        MetaOutcome::Names { names } => push_named_names(out, names.as_slice()),
        MetaOutcome::Row {
            kind,
            owner,
            group,
            mode,
            mark,
        } => push_row(out, *kind, *owner, *group, *mode, *mark),
        MetaOutcome::Granted { file, mark } => push_granted(out, *file, *mark),
        MetaOutcome::Located {
            version,
            changing,
            members,
        } => push_located(out, *version, *changing, members.as_slice()),
    }
}

/// Appends ` row NODE KIND ADDR V`.
fn push_registry_row(out: &mut Vec<u8>, row: &RegistryRow) -> Result<(), OutOfMemory>
    ensures { OnOk result (out.new.items ≡
        out.old.items ++
        behind (codes "row" ∷ decimal row.now.node.0 ∷ decimal row.now.kind ∷ row.now.address
        ∷ decimal row.now.version ∷ [])) }
{
    push_words(
        out,
        &[
            Word::Text(b"row"),
            Word::Node(row.node),
            Word::Number(u64::from(row.kind)),
            Word::Name(&row.address),
            Word::Number(row.version),
        ],
    )
}

/// Appends ` rows` and the nodes.
fn push_rows(out: &mut Vec<u8>, nodes: &[NodeId]) -> Result<(), OutOfMemory>
    ensures { OnOk result (out.new.items ≡
        out.old.items ++ behind (codes "rows" ∷ node_words nodes.now)) }
{
    push_word(out, &Word::Text(b"rows"))?;
    push_nodes(out, nodes)
}

/// Appends the DIR's answer.
#[tactic(auto, unfolding(crate::specs::AnswerText::registry_outcome_words))]
pub fn push_registry_outcome(out: &mut Vec<u8>, answer: &RegistryOutcome) -> Result<(), OutOfMemory>
    ensures { OnOk result (out.new.items ≡
        out.old.items ++ behind (registry_outcome_words answer.now)) }
{
    match answer {
        RegistryOutcome::Done { version } => push_counted(out, b"ok", *version),
        RegistryOutcome::Changed { version } => push_counted(out, b"changed", *version),
        RegistryOutcome::Absent => push_lone(out, b"absent"),
        RegistryOutcome::Row { row } => push_registry_row(out, row),
        RegistryOutcome::Rows { nodes } => push_rows(out, nodes.as_slice()),
    }
}
