//! The nodes of a cluster, with their ports, stores and words.
ghost use Rattle.std.specs.Prelude.{◌≡◌, ◌≤◌, ◌++◌, OnOk, IfOk, string_bytes};
ghost use Rattle.std.specs.Fmt.{decimal};
ghost use Rattle.cluster_words.specs.Children.{local, option_words, number_words, role_words, directory_words, given_words, child_words};

use command_words::{ClusterJob, Given};
use std::alloc::Global;
use xt_base::{Address, OutOfMemory, Words};

/// A node of a cluster.
#[derive(Clone, Copy)]
pub enum ClusterNode {
    Dir,
    Mrc,
    /// OSDs are numbered from 1.
    Osd(u8),
}

impl ClusterNode {
    ghost use Rattle.std.specs.Prelude.{◌≡◌, ◌≤◌};
    ghost use Rattle.cluster_words.specs.Children.{number_of, port_of};

    /// Its number as a node.
    pub fn number(self) -> u32
        ensures { result ≡ number_of self }
    {
        match self {
            ClusterNode::Dir => 900,
            ClusterNode::Mrc => 901,
            ClusterNode::Osd(number) => u32::from(number),
        }
    }

    /// Its port, given the DIR's.
    pub fn port(self, first: u16) -> u16
        requires { first ≤ 65000 }
        ensures { result ≡ port_of first self }
    {
        match self {
            ClusterNode::Dir => first,
            ClusterNode::Mrc => first + 1,
            ClusterNode::Osd(number) => first + 1 + u16::from(number),
        }
    }
}

/// The text of the address of a port of this machine.
fn local(alloc: Global, port: u16) -> Result<String, OutOfMemory>
    ensures { IfOk result (λ text. string_bytes text ≡ local port) }
{
    format!(in alloc; "127.0.0.1:{port}")
}

/// The same as an address.
pub fn address(alloc: Global, port: u16) -> Result<Address, OutOfMemory>
    ensures { IfOk result (λ made. made ≡ local port) }
{
    let text = local(alloc, port)?;
    match Address::of(text.as_str()) {
        Some(made) => Ok(made),
        None => unreachable!(),
    }
}

/// The path of a node's store.
fn store_path(alloc: Global, prefix: &str, number: u32) -> Result<String, OutOfMemory>
    ensures { IfOk result (λ text. string_bytes text ≡ prefix.now ++ decimal number) }
{
    format!(in alloc; "{prefix}{number}")
}

/// Appends an option.
fn push_option(alloc: Global, words: &mut Words, name: &str, value: &str) -> Result<(), OutOfMemory>
    ensures { OnOk result (words.new ≡ words.old ++ option_words name.now value.now) }
{
    words.push(alloc, name)?;
    words.push(alloc, value)
}

/// Appends an option whose value is a number, if it was given.
fn push_number(
    alloc: Global,
    words: &mut Words,
    name: &str,
    number: Option<u64>,
) -> Result<(), OutOfMemory>
    ensures { OnOk result (words.new ≡ words.old ++ number_words name.now number) }
{
    let Some(number) = number else {
        return Ok(());
    };
    let text = format!(in alloc; "{number}")?;
    push_option(alloc, words, name, text.as_str())
}

/// Appends the command, and the number of an OSD.
fn push_command(alloc: Global, words: &mut Words, node: ClusterNode) -> Result<(), OutOfMemory>
    ensures { OnOk result (words.new ≡ words.old ++ role_words node) }
{
    match node {
        ClusterNode::Dir => words.push(alloc, "dir"),
        ClusterNode::Mrc => words.push(alloc, "mrc"),
        ClusterNode::Osd(number) => {
            words.push(alloc, "osd")?;
            push_number(alloc, words, "--id", Some(u64::from(number)))
        }
    }
}

/// Appends the address of the DIR, unless it is the DIR itself that is started.
fn push_directory(
    alloc: Global,
    words: &mut Words,
    first: u16,
    node: ClusterNode,
) -> Result<(), OutOfMemory>
    ensures { OnOk result (words.new ≡ words.old ++ directory_words first node) }
{
    if matches!(node, ClusterNode::Dir) {
        return Ok(());
    }
    let text = local(alloc, first)?;
    push_option(alloc, words, "--dir", text.as_str())
}

/// Appends the options of nodes that the cluster was given.
fn push_given(alloc: Global, words: &mut Words, given: &Given) -> Result<(), OutOfMemory>
    ensures { OnOk result (words.new ≡ words.old ++ given_words given.now) }
{
    push_number(alloc, words, "--lease", given.lease)?;
    push_number(alloc, words, "--drift", given.drift)?;
    push_number(alloc, words, "--turns", given.turns)?;
    push_number(alloc, words, "--limit", given.limit)
}

/// The words with which a cluster starts this node.
#[tactic(auto, unfolding(crate::specs::Children::child_words))]
pub fn child_words(alloc: Global, job: &ClusterJob, node: ClusterNode) -> Result<Words, OutOfMemory>
    requires { job.now.port ≤ 65000 }
    ensures { IfOk result (λ words. words ≡ child_words job.now node) }
{
    let mut words = Words::new(alloc);
    push_command(alloc, &mut words, node)?;
    let listen = local(alloc, node.port(job.port))?;
    push_option(alloc, &mut words, "--listen", listen.as_str())?;
    push_directory(alloc, &mut words, job.port, node)?;
    let store = store_path(alloc, job.store.as_str(), node.number())?;
    push_option(alloc, &mut words, "--store", store.as_str())?;
    let key = hex::encode(alloc, job.key.as_slice())?;
    push_option(alloc, &mut words, "--key", key.as_str())?;
    push_given(alloc, &mut words, &job.given)?;
    Ok(words)
}
