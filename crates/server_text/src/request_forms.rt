//! How a request to the metadata server or the directory service is read, loosely.
ghost use Rattle.std.specs.Prelude.{◌≡◌, IfOk};
ghost use Rattle.server_text.specs.RequestReading.{kind_in, want_in, after_in, mkdir_in, create_in, rename_in, list_in, chmod_in, grant_in, changed_to, change_in, path_request_in, meta_request_in, asked_in, meta_call_in, set_in, get_in, rows_after_in, remove_in, registry_request_in, registry_call_in};

use crate::lists::members_at;
use crate::words::{cut, mode_of, name_of, u8_at, u32_at, u64_at};
use std::alloc::Global;
use xt_base::{Members, Name, NodeId, OutOfMemory};
use xt_messages::{Call, Kind, MetaReq, RegistryReq};

/// `rep` or `str`
pub fn kind_of(word: &[u8]) -> Kind
    ensures { result ≡ kind_in word.now }
{
    if word == b"str".as_slice() {
        Kind::Striped
    } else {
        Kind::Replicated
    }
}

/// `read`, `write` or `truncate`
fn want_of(word: &[u8]) -> u8
    ensures { result ≡ want_in word.now }
{
    if word == b"read".as_slice() {
        1
    } else if word == b"write".as_slice() {
        2
    } else {
        3
    }
}

/// A name, or a dash for the empty one.
fn after_of(alloc: Global, word: &[u8]) -> Result<Name, OutOfMemory>
    ensures { IfOk result (λ name. name ≡ after_in word.now) }
{
    if word == b"-".as_slice() {
        Name::of(alloc, "")
    } else {
        name_of(alloc, word)
    }
}

/// `PATH MODE` of a new directory
#[tactic(auto, unfolding(crate::specs::RequestReading::mkdir_in))]
fn mkdir(alloc: Global, words: &[u8]) -> Result<MetaReq, OutOfMemory>
    ensures { IfOk result (λ made. made ≡ mkdir_in words.now) }
{
    let (path, words) = cut(words);
    let (mode, _) = cut(words);
    let mode = mode_of(mode);
    let path = name_of(alloc, path)?;
    Ok(MetaReq::Mkdir { path, mode })
}

/// `PATH MODE rep|str N STRIPE`
#[tactic(auto, unfolding(crate::specs::RequestReading::create_in))]
fn create(alloc: Global, words: &[u8]) -> Result<MetaReq, OutOfMemory>
    ensures { IfOk result (λ made. made ≡ create_in words.now) }
{
    let (path, words) = cut(words);
    let (mode, words) = cut(words);
    let (kind, words) = cut(words);
    let (n, words) = u8_at(words);
    let (stripe, _) = u32_at(words);
    let mode = mode_of(mode);
    let kind = kind_of(kind);
    let path = name_of(alloc, path)?;
    Ok(MetaReq::Create {
        path,
        mode,
        kind,
        n,
        stripe,
    })
}

/// `PATH PATH`
#[tactic(auto, unfolding(crate::specs::RequestReading::rename_in))]
fn rename(alloc: Global, words: &[u8]) -> Result<MetaReq, OutOfMemory>
    ensures { IfOk result (λ made. made ≡ rename_in words.now) }
{
    let (from, words) = cut(words);
    let (to, _) = cut(words);
    let from = name_of(alloc, from)?;
    let to = name_of(alloc, to)?;
    Ok(MetaReq::Rename { from, to })
}

/// `PATH NAME|-`
#[tactic(auto, unfolding(crate::specs::RequestReading::list_in))]
fn list(alloc: Global, words: &[u8]) -> Result<MetaReq, OutOfMemory>
    ensures { IfOk result (λ made. made ≡ list_in words.now) }
{
    let (path, words) = cut(words);
    let (after, _) = cut(words);
    let path = name_of(alloc, path)?;
    let after = after_of(alloc, after)?;
    Ok(MetaReq::List { path, after })
}

/// `PATH MODE` of what is there
#[tactic(auto, unfolding(crate::specs::RequestReading::chmod_in))]
fn chmod(alloc: Global, words: &[u8]) -> Result<MetaReq, OutOfMemory>
    ensures { IfOk result (λ made. made ≡ chmod_in words.now) }
{
    let (path, words) = cut(words);
    let (mode, _) = cut(words);
    let mode = mode_of(mode);
    let path = name_of(alloc, path)?;
    Ok(MetaReq::Chmod { path, mode })
}

/// `PATH read|write|truncate`
#[tactic(auto, unfolding(crate::specs::RequestReading::grant_in))]
fn grant(alloc: Global, words: &[u8]) -> Result<MetaReq, OutOfMemory>
    ensures { IfOk result (λ made. made ≡ grant_in words.now) }
{
    let (path, words) = cut(words);
    let (want, _) = cut(words);
    let want = want_of(want);
    let path = name_of(alloc, path)?;
    Ok(MetaReq::Grant { path, want })
}

/// A new list of members, if these nodes are one; else what isn't spelled so.
fn changed_to(path: Name, nodes: Option<Members>) -> MetaReq
    ensures { result ≡ changed_to path nodes }
{
    match nodes {
        Some(nodes) => MetaReq::Change { path, nodes },
        None => MetaReq::Locate { path },
    }
}

/// `PATH NODE ..`
#[tactic(auto, unfolding(crate::specs::RequestReading::change_in))]
fn change(alloc: Global, words: &[u8]) -> Result<MetaReq, OutOfMemory>
    ensures { IfOk result (λ made. made ≡ change_in words.now) }
{
    let (path, words) = cut(words);
    let nodes = members_at(words);
    let path = name_of(alloc, path)?;
    Ok(changed_to(path, nodes))
}

/// A request of this verb, of those that have a path alone.
#[tactic(auto, unfolding(crate::specs::RequestReading::path_request_in))]
fn path_request(alloc: Global, verb: &[u8], words: &[u8]) -> Result<MetaReq, OutOfMemory>
    ensures { IfOk result (λ made. made ≡ path_request_in verb.now words.now) }
{
    let (path, _) = cut(words);
    let path = name_of(alloc, path)?;
    if verb == b"unlink".as_slice() {
        Ok(MetaReq::Unlink { path })
    } else if verb == b"rmdir".as_slice() {
        Ok(MetaReq::Rmdir { path })
    } else if verb == b"locate".as_slice() {
        Ok(MetaReq::Locate { path })
    } else {
        Ok(MetaReq::Stat { path })
    }
}

/// A request to the MRC of this verb, of all but a report.
#[tactic(auto, unfolding(crate::specs::RequestReading::meta_request_in))]
pub fn read_meta_request(alloc: Global, verb: &[u8], words: &[u8]) -> Result<MetaReq, OutOfMemory>
    ensures { IfOk result (λ made. made ≡ meta_request_in verb.now words.now) }
{
    if verb == b"mkdir".as_slice() {
        mkdir(alloc, words)
    } else if verb == b"create".as_slice() {
        create(alloc, words)
    } else if verb == b"rename".as_slice() {
        rename(alloc, words)
    } else if verb == b"list".as_slice() {
        list(alloc, words)
    } else if verb == b"chmod".as_slice() {
        chmod(alloc, words)
    } else if verb == b"grant".as_slice() {
        grant(alloc, words)
    } else if verb == b"change".as_slice() {
        change(alloc, words)
    } else {
        path_request(alloc, verb, words)
    }
}

/// What a user asks of the MRC by this verb.
#[tactic(auto, unfolding(crate::specs::RequestReading::asked_in))]
fn asked_of(
    alloc: Global,
    user: u32,
    group: u32,
    verb: &[u8],
    words: &[u8],
) -> Result<Call, OutOfMemory>
    ensures { IfOk result (λ made. made ≡ asked_in user group verb.now words.now) }
{
    if verb == b"report".as_slice() {
        let (file, _) = u64_at(words);
        return Ok(Call::Report { user, group, file });
    }
    let request = read_meta_request(alloc, verb, words)?;
    Ok(Call::Meta {
        user,
        group,
        request,
    })
}

/// The call on the MRC of `USER GROUP VERB ARGS`.
#[tactic(auto, unfolding(crate::specs::RequestReading::meta_call_in))]
pub fn read_meta_call(alloc: Global, words: &[u8]) -> Result<Call, OutOfMemory>
    ensures { IfOk result (λ made. made ≡ meta_call_in words.now) }
{
    let (user, words) = u32_at(words);
    let (group, words) = u32_at(words);
    let (verb, words) = cut(words);
    asked_of(alloc, user, group, verb, words)
}

/// `NODE KIND ADDR EXPECTED`
#[tactic(auto, unfolding(crate::specs::RequestReading::set_in))]
fn set(alloc: Global, words: &[u8]) -> Result<RegistryReq, OutOfMemory>
    ensures { IfOk result (λ made. made ≡ set_in words.now) }
{
    let (node, words) = u32_at(words);
    let (kind, words) = u8_at(words);
    let (address, words) = cut(words);
    let (expected, _) = u64_at(words);
    let address = name_of(alloc, address)?;
    Ok(RegistryReq::Set {
        node: NodeId(node),
        kind,
        address,
        expected,
    })
}

/// `NODE`
#[tactic(auto, unfolding(crate::specs::RequestReading::get_in))]
fn get(words: &[u8]) -> RegistryReq
    ensures { result ≡ get_in words.now }
{
    let (node, _) = u32_at(words);
    RegistryReq::Get { node: NodeId(node) }
}

/// `KIND AFTER`
#[tactic(auto, unfolding(crate::specs::RequestReading::rows_after_in))]
fn rows_after(words: &[u8]) -> RegistryReq
    ensures { result ≡ rows_after_in words.now }
{
    let (kind, words) = u8_at(words);
    let (after, _) = u32_at(words);
    RegistryReq::List {
        kind,
        after: NodeId(after),
    }
}

/// `NODE EXPECTED`
#[tactic(auto, unfolding(crate::specs::RequestReading::remove_in))]
fn remove(words: &[u8]) -> RegistryReq
    ensures { result ≡ remove_in words.now }
{
    let (node, words) = u32_at(words);
    let (expected, _) = u64_at(words);
    RegistryReq::Remove {
        node: NodeId(node),
        expected,
    }
}

/// A request to the DIR of this verb.
#[tactic(auto, unfolding(crate::specs::RequestReading::registry_request_in))]
pub fn read_registry_request(
    alloc: Global,
    verb: &[u8],
    words: &[u8],
) -> Result<RegistryReq, OutOfMemory>
    ensures { IfOk result (λ made. made ≡ registry_request_in verb.now words.now) }
{
    if verb == b"set".as_slice() {
        set(alloc, words)
    } else if verb == b"get".as_slice() {
        Ok(get(words))
    } else if verb == b"list".as_slice() {
        Ok(rows_after(words))
    } else {
        Ok(remove(words))
    }
}

/// The call on the DIR of `VERB ARGS`.
#[tactic(auto, unfolding(crate::specs::RequestReading::registry_call_in))]
pub fn read_registry_call(alloc: Global, words: &[u8]) -> Result<Call, OutOfMemory>
    ensures { IfOk result (λ made. made ≡ registry_call_in words.now) }
{
    let (verb, words) = cut(words);
    let request = read_registry_request(alloc, verb, words)?;
    Ok(Call::Registry { request })
}
