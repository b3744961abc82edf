//! How an answer of the metadata server or the directory service is read, loosely.
ghost use Rattle.std.specs.Prelude.{◌≡◌, IfOk};
ghost use Rattle.server_text.specs.AnswerReading.{denial_of, bare_refusal_in, meta_refusal_in, row_kind_in, mark_in, row_in, granted_in, is_changing, located_as, located_in, meta_outcome_of, meta_outcome_in, registry_row_in, versioned_in, registry_outcome_of, registry_outcome_in};

use crate::lists::{members_at, names_in, nodes_in};
use crate::words::{cut, mode_of, name_of, u8_at, u32_at, u64_at};
use std::alloc::Global;
use xt_base::{Members, NodeId, OutOfMemory, SizeMark};
use xt_messages::{Denial, MetaOutcome, MetaRefusal, RegistryOutcome, RegistryRow, RowKind};

/// The denial of a number.
#[tactic(auto, unfolding(crate::specs::AnswerReading::denial_of))]
pub fn denial_of(number: u64) -> Denial
    ensures { result ≡ denial_of number }
{
    if number == 1 {
        Denial::Tag
    } else if number == 2 {
        Denial::File
    } else if number == 3 {
        Denial::Expired
    } else if number == 4 {
        Denial::Mode
    } else if number == 5 {
        Denial::List
    } else {
        Denial::Range
    }
}

/// A refusal of this name, of those that are a word.
#[tactic(auto, unfolding(crate::specs::AnswerReading::bare_refusal_in))]
fn bare_refusal(name: &[u8]) -> MetaRefusal
    ensures { result ≡ bare_refusal_in name.now }
{
    if name == b"notfound".as_slice() {
        MetaRefusal::NotFound
    } else if name == b"exists".as_slice() {
        MetaRefusal::Exists
    } else if name == b"notdir".as_slice() {
        MetaRefusal::NotDir
    } else if name == b"isdir".as_slice() {
        MetaRefusal::IsDir
    } else if name == b"notempty".as_slice() {
        MetaRefusal::NotEmpty
    } else if name == b"intoself".as_slice() {
        MetaRefusal::IntoSelf
    } else if name == b"othervolume".as_slice() {
        MetaRefusal::OtherVolume
    } else if name == b"notreplicated".as_slice() {
        MetaRefusal::NotReplicated
    } else {
        MetaRefusal::NameBad
    }
}

/// A refusal of this name.
#[tactic(auto, unfolding(crate::specs::AnswerReading::meta_refusal_in))]
fn refusal_of(name: &[u8], words: &[u8]) -> MetaRefusal
    ensures { result ≡ meta_refusal_in name.now words.now }
{
    if name == b"forbidden".as_slice() {
        let (rule, _) = u8_at(words);
        MetaRefusal::Forbidden { rule }
    } else if name == b"toofew".as_slice() {
        let (have, _) = u8_at(words);
        MetaRefusal::TooFew { have }
    } else if name == b"denied".as_slice() {
        let (number, _) = u64_at(words);
        MetaRefusal::Denied {
            rule: denial_of(number),
        }
    } else if name == b"changing".as_slice() {
        let (version, _) = u32_at(words);
        MetaRefusal::Changing { version }
    } else if name == b"unknownosd".as_slice() {
        let (node, _) = u32_at(words);
        MetaRefusal::UnknownOsd { node: NodeId(node) }
    } else {
        bare_refusal(name)
    }
}

/// `dir` or `file`
fn row_kind_of(word: &[u8]) -> RowKind
    ensures { result ≡ row_kind_in word.now }
{
    if word == b"dir".as_slice() {
        RowKind::Directory
    } else {
        RowKind::File
    }
}

/// `EPOCH SIZE`
#[tactic(auto, unfolding(crate::specs::AnswerReading::mark_in))]
fn mark(words: &[u8]) -> SizeMark
    ensures { result ≡ mark_in words.now }
{
    let (epoch, words) = u64_at(words);
    let (size, _) = u64_at(words);
    SizeMark { epoch, size }
}

/// `dir|file OWNER GROUP MODE EPOCH SIZE`
#[tactic(auto, unfolding(crate::specs::AnswerReading::row_in))]
fn row(words: &[u8]) -> MetaOutcome
    ensures { result ≡ row_in words.now }
{
    let (kind, words) = cut(words);
    let (owner, words) = u32_at(words);
    let (group, words) = u32_at(words);
    let (mode, words) = cut(words);
    MetaOutcome::Row {
        kind: row_kind_of(kind),
        owner,
        group,
        mode: mode_of(mode),
        mark: mark(words),
    }
}

/// `F EPOCH SIZE`
#[tactic(auto, unfolding(crate::specs::AnswerReading::granted_in))]
fn granted(words: &[u8]) -> MetaOutcome
    ensures { result ≡ granted_in words.now }
{
    let (file, words) = u64_at(words);
    MetaOutcome::Granted {
        file,
        mark: mark(words),
    }
}

/// `still` or `changing`
fn is_changing(word: &[u8]) -> bool
    ensures { result ≡ is_changing word.now }
{
    word == b"changing".as_slice()
}

/// A file's list, if these nodes are one; else what isn't spelled so.
fn located_as(version: u32, changing: bool, members: Option<Members>) -> MetaOutcome
    ensures { result ≡ located_as version changing members }
{
    match members {
        Some(members) => MetaOutcome::Located {
            version,
            changing,
            members,
        },
        None => MetaOutcome::Done,
    }
}

/// `VERSION still|changing NODES`
#[tactic(auto, unfolding(crate::specs::AnswerReading::located_in))]
fn located(words: &[u8]) -> MetaOutcome
    ensures { result ≡ located_in words.now }
{
    let (version, words) = u32_at(words);
    let (word, words) = cut(words);
    located_as(version, is_changing(word), members_at(words))
}

/// An answer of the MRC of this name.
#[tactic(auto, unfolding(crate::specs::AnswerReading::meta_outcome_of))]
fn meta_outcome_of(alloc: Global, name: &[u8], words: &[u8]) -> Result<MetaOutcome, OutOfMemory>
    ensures { IfOk result (λ told. told ≡ meta_outcome_of name.now words.now) }
{
    if name == b"ok".as_slice() {
        Ok(MetaOutcome::Done)
    } else if name == b"names".as_slice() {
        let names = names_in(alloc, words)?;
        Ok(MetaOutcome::Names { names })
    } else if name == b"row".as_slice() {
        Ok(row(words))
    } else if name == b"granted".as_slice() {
        Ok(granted(words))
    } else if name == b"located".as_slice() {
        Ok(located(words))
    } else {
        let refusal = refusal_of(name, words);
        Ok(MetaOutcome::Refused { refusal })
    }
}

/// The answer of the MRC that the words spell.
#[tactic(auto, unfolding(crate::specs::AnswerReading::meta_outcome_in))]
pub fn read_meta_outcome(alloc: Global, words: &[u8]) -> Result<MetaOutcome, OutOfMemory>
    ensures { IfOk result (λ told. told ≡ meta_outcome_in words.now) }
{
    let (name, words) = cut(words);
    meta_outcome_of(alloc, name, words)
}

/// `NODE KIND ADDR V`
#[tactic(auto, unfolding(crate::specs::AnswerReading::registry_row_in))]
fn registry_row(alloc: Global, words: &[u8]) -> Result<RegistryRow, OutOfMemory>
    ensures { IfOk result (λ row. row ≡ registry_row_in words.now) }
{
    let (node, words) = u32_at(words);
    let (kind, words) = u8_at(words);
    let (address, words) = cut(words);
    let (version, _) = u64_at(words);
    let address = name_of(alloc, address)?;
    Ok(RegistryRow {
        node: NodeId(node),
        kind,
        address,
        version,
    })
}

/// `V` after `ok` or `changed`
#[tactic(auto, unfolding(crate::specs::AnswerReading::versioned_in))]
fn versioned(name: &[u8], words: &[u8]) -> RegistryOutcome
    ensures { result ≡ versioned_in name.now words.now }
{
    let (version, _) = u64_at(words);
    if name == b"ok".as_slice() {
        RegistryOutcome::Done { version }
    } else {
        RegistryOutcome::Changed { version }
    }
}

/// An answer of the DIR of this name.
#[tactic(auto, unfolding(crate::specs::AnswerReading::registry_outcome_of))]
fn registry_outcome_of(
    alloc: Global,
    name: &[u8],
    words: &[u8],
) -> Result<RegistryOutcome, OutOfMemory>
    ensures { IfOk result (λ told. told ≡ registry_outcome_of name.now words.now) }
{
    if name == b"absent".as_slice() {
        Ok(RegistryOutcome::Absent)
    } else if name == b"row".as_slice() {
        let row = registry_row(alloc, words)?;
        Ok(RegistryOutcome::Row { row })
    } else if name == b"rows".as_slice() {
        let nodes = nodes_in(alloc, words)?;
        Ok(RegistryOutcome::Rows { nodes })
    } else {
        Ok(versioned(name, words))
    }
}

/// The answer of the DIR that the words spell.
#[tactic(auto, unfolding(crate::specs::AnswerReading::registry_outcome_in))]
pub fn read_registry_outcome(alloc: Global, words: &[u8]) -> Result<RegistryOutcome, OutOfMemory>
    ensures { IfOk result (λ told. told ≡ registry_outcome_in words.now) }
{
    let (name, words) = cut(words);
    registry_outcome_of(alloc, name, words)
}
