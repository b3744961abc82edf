ghost use Rattle.mrc_core.specs.Picking.{WantsSome};

use crate::OTHERWISE;
use dir_core::Dir;
use mrc_core::Mrc;
use std::alloc::Global;
use std::process::Abort;
use std::test::*;
use xt_base::{DIR_NODE, MRC_NODE, Name, NodeId, Seq};
use xt_messages::{
    Event, Kind, MetaAnswer, MetaReq, Msg, Payload, RegistryAnswer, RegistryReq, RegistryRow,
};

/// The key of both services.
const KEY: [u8; 32] = [0; 32];

/// How many requests a life has.
const LIFE: u64 = 10;

fn name(rt: &impl Abort, alloc: Global, text: &str) -> Name {
    Name::of(alloc, text).expect(rt, OTHERWISE)
}

/// Node 1 is registered again, under the version that it has.
fn register(rt: &impl Abort, alloc: Global, dir: &mut Dir, number: u64) {
    let request = RegistryReq::Set {
        node: NodeId(1),
        kind: 1,
        address: name(rt, alloc, "a"),
        expected: number,
    };
    let event = Event::Deliver(Msg {
        from: NodeId(10),
        to: DIR_NODE,
        list: 1,
        payload: Payload::Registry { number, request },
    });
    drop(dir.step(alloc, &event).expect(rt, OTHERWISE));
}

/// The MRC wakes, and hears of one OSD.
fn tell(rt: &impl Abort, alloc: Global, mrc: &mut Mrc) {
    let row = RegistryRow {
        node: NodeId(1),
        kind: 1,
        address: name(rt, alloc, "a"),
        version: 1,
    };
    let mut rows = Seq::new(alloc);
    rows.push(row).expect(rt, OTHERWISE);
    let answer = RegistryAnswer::Rows { rows };
    let event = Event::Deliver(Msg {
        from: DIR_NODE,
        to: MRC_NODE,
        list: 1,
        payload: Payload::RegistryReply { number: 1, answer },
    });
    drop(mrc.step(0, &Event::Wake).expect(rt, OTHERWISE));
    drop(mrc.step(0, &event).expect(rt, OTHERWISE));
}

/// The requests of a life, by number: a volume and a file are made, and all is asked of them until both are gone.
fn request(rt: &impl Abort, alloc: Global, number: u64) -> MetaReq
    ensures { WantsSome result }
{
    match number {
        1 => MetaReq::Mkdir {
            path: name(rt, alloc, "/v"),
            mode: 0o755,
        },
        2 => MetaReq::Create {
            path: name(rt, alloc, "/v/a"),
            mode: 0o644,
            kind: Kind::Replicated,
            n: 1,
            stripe: 1024,
        },
        3 => MetaReq::Grant {
            path: name(rt, alloc, "/v/a"),
            want: 2,
        },
        4 => MetaReq::Locate {
            path: name(rt, alloc, "/v/a"),
        },
        5 => MetaReq::Stat {
            path: name(rt, alloc, "/v/a"),
        },
        6 => MetaReq::Chmod {
            path: name(rt, alloc, "/v/a"),
            mode: 0o600,
        },
        7 => MetaReq::Rename {
            from: name(rt, alloc, "/v/a"),
            to: name(rt, alloc, "/v/b"),
        },
        8 => MetaReq::List {
            path: name(rt, alloc, "/v"),
            after: name(rt, alloc, ""),
        },
        9 => MetaReq::Unlink {
            path: name(rt, alloc, "/v/b"),
        },
        _ => MetaReq::Rmdir {
            path: name(rt, alloc, "/v"),
        },
    }
}

/// Whether these are one answer of the MRC, and no refusal.
fn is_done(outs: &[Msg]) -> bool {
    let [reply] = outs else {
        return false;
    };
    match &reply.payload {
        Payload::MetaReply { answer, .. } => !matches!(answer, MetaAnswer::Refused { .. }),
        _ => false,
    }
}

/// The MRC handles a request, and doesn't refuse it.
fn ask(rt: &impl Abort, mrc: &mut Mrc, number: u64, request: MetaReq)
    requires { WantsSome request }
{
    let event = Event::Deliver(Msg {
        from: NodeId(10),
        to: MRC_NODE,
        list: 1,
        payload: Payload::Meta {
            number,
            user: 1,
            group: 1,
            request,
        },
    });
    let turned = mrc.step(0, &event).expect(rt, OTHERWISE);
    drop(event);
    let done = is_done(turned.outs.as_slice());
    drop(turned);
    assert!(rt; done, "request {number}");
}

/// Services start, and handle what comes to them, where memory is there.
#[test]
fn services_handle_requests(rt: HostRuntime) {
    let mut dir = Dir::start(rt.alloc(), &KEY, &[]).expect(&rt, OTHERWISE);
    for number in 0..3 {
        register(&rt, rt.alloc(), &mut dir, number);
    }
    let mut mrc = Mrc::start(rt.alloc(), &KEY, &[], 0).expect(&rt, OTHERWISE);
    tell(&rt, rt.alloc(), &mut mrc);
    for number in 1..=LIFE {
        let request = request(&rt, rt.alloc(), number);
        ask(&rt, &mut mrc, number, request);
    }
}

/// How many names a path has below its volume and its last name, at most.
const LEVELS: u64 = 14;

/// How often directories are nested that deep, so that some lie below more than 100,000 others.
const ROUNDS: u64 = 7_200;

fn make_directory(rt: &impl Abort, alloc: Global, mrc: &mut Mrc, number: u64, path: &str) {
    let path = name(rt, alloc, path);
    ask(rt, mrc, number, MetaReq::Mkdir { path, mode: 0o755 });
}

fn rename(rt: &impl Abort, alloc: Global, mrc: &mut Mrc, number: u64, from: &str, to: &str) {
    let from = name(rt, alloc, from);
    let to = name(rt, alloc, to);
    ask(rt, mrc, number, MetaReq::Rename { from, to });
}

/// New directories are nested in `/v/b`, the old ones are moved into the last of them, and all of them take their place.
fn nest(rt: &impl Abort, alloc: Global, mrc: &mut Mrc, first: u64) {
    let mut path = String::from_str(alloc, "/v").expect(rt, OTHERWISE);
    for level in 0..LEVELS {
        path.push_str("/b").expect(rt, OTHERWISE);
        make_directory(rt, alloc, mrc, first.wrapping_add(level), path.as_str());
    }
    path.push_str("/a").expect(rt, OTHERWISE);
    let number = first.wrapping_add(LEVELS);
    rename(rt, alloc, mrc, number, "/v/a", path.as_str());
    rename(rt, alloc, mrc, number.wrapping_add(1), "/v/b", "/v/a");
}

/// An MRC is let go though its directories are nested deeper than the stack reaches.
#[test]
fn deep_directories_are_let_go(rt: HostRuntime) {
    let mut mrc = Mrc::start(rt.alloc(), &KEY, &[], 0).expect(&rt, OTHERWISE);
    make_directory(&rt, rt.alloc(), &mut mrc, 1, "/v");
    make_directory(&rt, rt.alloc(), &mut mrc, 2, "/v/a");
    for round in 0..ROUNDS {
        nest(&rt, rt.alloc(), &mut mrc, 3 + 16 * round);
    }
}
