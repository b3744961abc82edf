//! Parts of messages that are refused, repeated, or dropped.

use crate::OTHERWISE;
use crate::bytes::hex;
use std::alloc::Global;
use std::process::Abort;
use std::test::*;
use xt_base::{NodeId, Octets};
use xt_parts::{JoinErr, Joiner};

/// What taking a part comes to.
#[derive(Clone, Copy, PartialEq)]
enum Taken {
    /// No message is whole with it.
    Nothing,
    /// A message of so many bytes is whole with it.
    Whole(usize),
    BadPart,
    OutOfMemory,
}

/// Takes a part. A message is of sender 10 in boot 1, and of bytes 61 alone.
fn take(joiner: &mut Joiner, part: &[u8]) -> Taken {
    match joiner.take(part) {
        Ok(None) => Taken::Nothing,
        Ok(Some(whole)) => {
            let bytes = whole.bytes.as_slice();
            let is_ours = whole.sender == NodeId(10) && whole.boot.0 == 1;
            if is_ours && bytes.iter().all(|byte| *byte == 0x61) {
                Taken::Whole(bytes.len())
            } else {
                Taken::Whole(0)
            }
        }
        Err(JoinErr::BadPart) => Taken::BadPart,
        Err(JoinErr::OutOfMemory) => Taken::OutOfMemory,
    }
}

/// Parts, and what each comes to in a joiner that has taken nothing.
static ALONE: [(&str, Taken); 18] = [
    // version 01, sender 10, boot 1, message 1, index 0 of 1, 3 bytes
    (
        "01 0000000a 0000000000000001 0000000000000001 00 01 00000003 616161",
        Taken::Whole(3),
    ),
    // a header that is short, and one with nothing after it
    ("", Taken::BadPart),
    (
        "01 0000000a 0000000000000001 0000000000000001 00 01 000000",
        Taken::BadPart,
    ),
    (
        "01 0000000a 0000000000000001 0000000000000001 00 01 00000003",
        Taken::BadPart,
    ),
    // other versions
    (
        "00 0000000a 0000000000000001 0000000000000001 00 01 00000003 616161",
        Taken::BadPart,
    ),
    (
        "02 0000000a 0000000000000001 0000000000000001 00 01 00000003 616161",
        Taken::BadPart,
    ),
    // lengths out of their range: none, with one part and with no part, and 1,048,577
    (
        "01 0000000a 0000000000000001 0000000000000001 00 01 00000000",
        Taken::BadPart,
    ),
    (
        "01 0000000a 0000000000000001 0000000000000001 00 00 00000000",
        Taken::BadPart,
    ),
    (
        "01 0000000a 0000000000000001 0000000000000001 20 21 00100001 61",
        Taken::BadPart,
    ),
    // other totals than the length says
    (
        "01 0000000a 0000000000000001 0000000000000001 00 00 00000003 616161",
        Taken::BadPart,
    ),
    (
        "01 0000000a 0000000000000001 0000000000000001 00 02 00000003 616161",
        Taken::BadPart,
    ),
    (
        "01 0000000a 0000000000000001 0000000000000001 01 01 00008001 61",
        Taken::BadPart,
    ),
    (
        "01 0000000a 0000000000000001 0000000000000001 01 03 00008001 61",
        Taken::BadPart,
    ),
    // a payload that is too short, and one that is too long
    (
        "01 0000000a 0000000000000001 0000000000000001 00 01 00000003 6161",
        Taken::BadPart,
    ),
    (
        "01 0000000a 0000000000000001 0000000000000001 00 01 00000003 61616161",
        Taken::BadPart,
    ),
    // indices that aren't below the total
    (
        "01 0000000a 0000000000000001 0000000000000001 01 01 00000003 616161",
        Taken::BadPart,
    ),
    (
        "01 0000000a 0000000000000001 0000000000000001 02 02 00008001 61",
        Taken::BadPart,
    ),
    // the second of two parts
    (
        "01 0000000a 0000000000000001 0000000000000001 01 02 00008001 61",
        Taken::Nothing,
    ),
];

#[test]
fn parts_are_refused(rt: HostRuntime) {
    for (text, expected) in &ALONE {
        let part = hex(rt.alloc(), text).expect(&rt, OTHERWISE);
        let mut joiner = Joiner::new(rt.alloc());
        assert!(rt;
            take(&mut joiner, part.as_slice()) == *expected,
            "of {text}"
        );
    }
}

/// A part of a message of sender 10 in boot 1, and what it comes to: the message's number, the index, how many parts there are, the
/// length of the message, and how many bytes of it the part has.
type Step = (u64, u8, u8, u32, usize, Taken);

/// The bytes of a part.
fn bytes_of(rt: &impl Abort, alloc: Global, step: &Step) -> Octets {
    let (number, index, total, length, payload, _) = *step;
    let sender = hex(alloc, "01 0000000a 0000000000000001").expect(rt, OTHERWISE);
    let mut bytes = Vec::from_slice(alloc, sender.as_slice()).expect(rt, OTHERWISE);
    for byte in &number.to_be_bytes() {
        bytes.push(*byte).expect(rt, OTHERWISE);
    }
    bytes.push(index).expect(rt, OTHERWISE);
    bytes.push(total).expect(rt, OTHERWISE);
    for byte in &length.to_be_bytes() {
        bytes.push(*byte).expect(rt, OTHERWISE);
    }
    for _ in 0..payload {
        bytes.push(0x61).expect(rt, OTHERWISE);
    }
    Octets::from_vec(bytes).expect(rt, OTHERWISE)
}

/// Takes parts one after the other, and asserts what each comes to.
fn take_all(rt: &impl Abort, alloc: Global, joiner: &mut Joiner, steps: &[Step]) {
    for step in steps {
        let bytes = bytes_of(rt, alloc, step);
        let came = take(joiner, bytes.as_slice());
        assert!(rt; came == step.5, "part {} of message {}", step.1, step.0);
    }
}

/// The greatest message has 32 whole parts, and isn't refused.
static GREATEST: [Step; 1] = [(1, 31, 32, 1_048_576, 32_768, Taken::Nothing)];

/// A half joined message keeps its length, and takes each part once. After it was given, its parts begin it again.
static REPEATED: [Step; 12] = [
    (1, 1, 2, 32_769, 1, Taken::Nothing),
    (1, 1, 2, 32_770, 2, Taken::BadPart),
    (1, 0, 2, 32_770, 32_768, Taken::BadPart),
    (1, 1, 2, 32_769, 1, Taken::Nothing),
    // another message's parts do nothing to it
    (2, 0, 2, 32_770, 32_768, Taken::Nothing),
    (1, 0, 2, 32_769, 32_768, Taken::Whole(32_769)),
    // again, and now with another length
    (1, 1, 2, 32_770, 2, Taken::Nothing),
    (1, 1, 2, 32_770, 2, Taken::Nothing),
    (1, 0, 2, 32_769, 32_768, Taken::BadPart),
    (1, 0, 2, 32_770, 32_768, Taken::Whole(32_770)),
    (2, 1, 2, 32_770, 2, Taken::Whole(32_770)),
    (2, 1, 2, 32_770, 2, Taken::Nothing),
];

#[test]
fn parts_are_repeated(rt: HostRuntime) {
    for steps in [GREATEST.as_slice(), REPEATED.as_slice()] {
        let mut joiner = Joiner::new(rt.alloc());
        take_all(&rt, rt.alloc(), &mut joiner, steps);
    }
}

/// After 65 messages of which one part is missing, the first is forgotten, and the others aren't. To begin it again drops the oldest
/// only where 64 others are half joined.
static DROPPED: [Step; 5] = [
    (2, 0, 2, 32_769, 32_768, Taken::Whole(32_769)),
    (1, 0, 2, 32_769, 32_768, Taken::Nothing),
    (3, 0, 2, 32_769, 32_768, Taken::Whole(32_769)),
    (1, 1, 2, 32_769, 1, Taken::Whole(32_769)),
    (65, 0, 2, 32_769, 32_768, Taken::Whole(32_769)),
];

#[test]
fn the_oldest_message_is_dropped(rt: HostRuntime) {
    let mut joiner = Joiner::new(rt.alloc());
    for number in 1..66 {
        let begun = [(number, 1, 2, 32_769, 1, Taken::Nothing)];
        take_all(&rt, rt.alloc(), &mut joiner, &begun);
    }
    take_all(&rt, rt.alloc(), &mut joiner, &DROPPED);
    for number in 4..65 {
        let ended = [(number, 0, 2, 32_769, 32_768, Taken::Whole(32_769))];
        take_all(&rt, rt.alloc(), &mut joiner, &ended);
    }
}
