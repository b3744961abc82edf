use anyhow::Result;
use capabilities::hmac;
use dir_core::Dir;
use std::alloc::Global;
use xt_base::{DIR_NODE, Name, NodeId, OutOfMemory};
use xt_messages::{Event, Msg, Payload, RegistryAnswer, RegistryReq};
use xt_protocol::Turned;

/// The key of the service, and of tags.
const KEY: [u8; 32] = [7; 32];

/// The service handles a client's request.
fn ask(
    alloc: Global,
    dir: &mut Dir,
    number: u64,
    request: RegistryReq,
) -> Result<Turned, OutOfMemory> {
    let event = Event::Deliver(Msg {
        from: NodeId(10),
        to: DIR_NODE,
        list: 1,
        payload: Payload::Registry { number, request },
    });
    let turned = dir.step(alloc, &event);
    drop(event);
    turned
}

/// Registers a node.
fn register(alloc: Global, dir: &mut Dir, node: u32) -> Result<(), OutOfMemory> {
    let request = RegistryReq::Set {
        node: NodeId(node),
        kind: 1,
        address: Name::of(alloc, "127.0.0.1:7400")?,
        expected: 0,
    };
    let turned = ask(alloc, dir, u64::from(node).saturating_add(1), request)?;
    drop(turned);
    Ok(())
}

/// Registers so many nodes, from 0 on, each by a request of its own.
fn register_each(alloc: Global, dir: &mut Dir, nodes: u32) -> Result<(), OutOfMemory> {
    for node in 0..nodes {
        register(alloc, dir, node)?;
    }
    Ok(())
}

/// The bytes of the address that a step reports.
fn told(turned: &Turned) -> u64 {
    match turned.outs.as_slice() {
        [
            Msg {
                payload: Payload::RegistryReply {
                    answer: RegistryAnswer::Row { row },
                    ..
                },
                ..
            },
        ] => row.address.as_str().len() as u64,
        _ => 0,
    }
}

/// Asks for one of so many nodes so many times, each time another, and gives the bytes of the addresses that were reported.
fn get_each(alloc: Global, dir: &mut Dir, nodes: u32, times: u32) -> Result<u64, OutOfMemory> {
    let number = u64::from(nodes).saturating_add(1);
    let mut bytes = 0u64;
    for turn in 0..times {
        let node = NodeId(
            turn.wrapping_mul(2_654_435_761)
                .checked_rem(nodes)
                .unwrap_or(0),
        );
        let turned = ask(alloc, dir, number, RegistryReq::Get { node })?;
        bytes = bytes.saturating_add(told(&turned));
        drop(turned);
    }
    Ok(bytes)
}

/// Registers so many nodes and then asks for them.
fn register_and_get(
    alloc: Global,
    dir: &mut Dir,
    nodes: u32,
    times: u32,
) -> Result<u64, OutOfMemory> {
    register_each(alloc, dir, nodes)?;
    get_each(alloc, dir, nodes, times)
}

/// Registers so many nodes and then asks for one so many times, each time another; gives the bytes of the addresses that were
/// reported.
pub fn get_times(alloc: Global, nodes: usize, times: u32) -> Result<u64> {
    let nodes = u32::try_from(nodes)?;
    let mut dir = Dir::start(alloc, &KEY, &[])?;
    let bytes = register_and_get(alloc, &mut dir, nodes, times);
    drop(dir);
    Ok(bytes?)
}

/// Makes the tag of a message of so many bytes so many times, and gives the bytes of all messages.
pub fn tag_times(alloc: Global, size: usize, times: u32) -> Result<u64> {
    let mut message = vec![in alloc; 7u8; size]?;
    let mut bytes = 0u64;
    for _ in 0..times {
        let tag = hmac(&KEY, message.as_slice())?;
        if let Some(first) = message.first_mut() {
            *first = tag[0];
        }
        bytes = bytes.saturating_add(message.len() as u64);
    }
    Ok(bytes)
}
