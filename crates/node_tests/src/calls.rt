use crate::OTHERWISE;
use client_core::Client;
use std::alloc::Global;
use std::process::Abort;
use std::test::*;
use xt_base::{COUNTS, FileId, MRC_NODE, Members, Name, NodeId, Octets, SizeMark, Times, VolumeId};
use xt_messages::{
    Call, Capability, Event, Kind, Location, MetaAnswer, MetaReq, Msg, Payload, Reply,
};

/// The size of the files.
const MARK: SizeMark = SizeMark { epoch: 0, size: 1 };

/// A capability of a file on three nodes.
fn capability(rt: &impl Abort, number: u64, kind: Kind) -> Capability {
    let (volume, version, stripe) = (VolumeId::NIL, 1, 1024);
    let members = Members::new(&[NodeId(1), NodeId(2), NodeId(3)]);
    let members = members.ok().expect(rt, OTHERWISE);
    Capability {
        file: FileId { volume, number },
        mode: 2,
        expiry: COUNTS,
        epoch: 0,
        location: Location {
            version,
            kind,
            stripe,
            members,
        },
        tag: [0; 32],
    }
}

/// Makes a call, which ends by what a node then sends.
fn end(rt: &impl Abort, client: &mut Client, call: Call, from: NodeId, payload: Payload) {
    assert!(rt; client.is_ready(&call), "its file isn't held");
    let asked = client.call(0, &call).ok().expect(rt, OTHERWISE);
    drop(call);
    drop(asked);
    let event = Event::Deliver(Msg {
        from,
        to: NodeId(10),
        list: 1,
        payload,
    });
    let told = client.step(0, &event).expect(rt, OTHERWISE);
    drop(event);
    drop(told);
    assert!(rt; client.result().is_some(), "from {}", from.0);
}

/// Makes a directory.
fn make_directory(rt: &impl Abort, alloc: Global, client: &mut Client) {
    let path = Name::of(alloc, "/v").expect(rt, OTHERWISE);
    let call = Call::Meta {
        user: 1,
        group: 1,
        request: MetaReq::Mkdir { path, mode: 493 },
    };
    let number = client.next();
    let answer = MetaAnswer::Done;
    let payload = Payload::MetaReply { number, answer };
    end(rt, client, call, MRC_NODE, payload);
}

/// Holds a file, and reads the first byte of it.
fn read(rt: &impl Abort, alloc: Global, client: &mut Client, held: &Capability) {
    client.hold(held, MARK).expect(rt, OTHERWISE);
    let call = Call::Read {
        file: held.file.number,
        object: 0,
        at: 0,
        len: 1,
    };
    let reply = Reply::Ok {
        count: 1,
        mark: MARK,
        bytes: Octets::of(alloc, b"a").expect(rt, OTHERWISE),
    };
    let payload = Payload::Reply {
        number: client.next(),
        file: held.file,
        reply,
    };
    end(rt, client, call, NodeId(1), payload);
}

#[test]
fn a_client_makes_its_calls(rt: HostRuntime) {
    let times = Times::new(1000, 100).ok().expect(&rt, OTHERWISE);
    let mut client = Client::new(rt.alloc(), NodeId(10), times, 1);
    make_directory(&rt, rt.alloc(), &mut client);
    for (number, kind) in [(1, Kind::Replicated), (2, Kind::Striped)] {
        let held = capability(&rt, number, kind);
        read(&rt, rt.alloc(), &mut client, &held);
    }
    drop(client);
}
