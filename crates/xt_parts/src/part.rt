ghost use Rattle.std.specs.Prelude.{◌≡◌, ◌+◌, ◌-◌, ◌<◌, ◌≤◌, length, take, drop, slice_index, option_map, IfOk, IfSome};
ghost use Rattle.std.specs.Bool.{OnTrue};
ghost use Rattle.std.specs.Vec.{vec_capacity};
ghost use Rattle.xt_parts.specs.Part.{parts_in, bytes_in, part_bytes, word_at, long_at, header_of, is_cut, is_part, read_part};

use crate::{HEADER, PAYLOAD, VERSION};
use message_ids::MessageId;
use xt_base::{Boot, FRAME, NodeId};

/// What a part says of itself: its message, its index in it from 0, and the length of the message in bytes.
#[derive(Clone, Copy)]
pub struct Header {
    pub id: MessageId,
    pub index: u8,
    pub size: u32,
}

/// How many parts a message of this length has.
pub fn part_count(size: usize) -> usize
    requires { size ≤ FRAME }
    ensures { result ≡ parts_in size }
{
    size.div_ceil(PAYLOAD)
}

/// How many bytes of a message of this length the part with this index carries.
fn payload_len(size: usize, index: usize) -> usize
    requires { index < parts_in size }
    ensures { result ≡ bytes_in size index }
{
    PAYLOAD.min(size - index * PAYLOAD)
}

impl Header {
    /// Puts the part with this payload in place of what a buffer has. There has to be room for it, so this takes no memory.
    pub(crate) fn put(&self, part: &mut Vec<u8>, payload: &[u8])
        requires size { self.now.size ≤ FRAME }
        requires payload { length payload.now ≤ PAYLOAD }
        requires room { HEADER + length payload.now ≤ vec_capacity part.old }
        ensures part { part.new.items ≡ part_bytes self.now payload.now }
        ensures room { vec_capacity part.old ≤ vec_capacity part.new }
    {
        let total = part_count(self.size as usize) as u8;
        part.clear();
        part.push(VERSION).unwrap();
        part.extend_from_slice(&self.id.sender.0.to_be_bytes())
            .unwrap();
        part.extend_from_slice(&self.id.boot.0.to_be_bytes())
            .unwrap();
        part.extend_from_slice(&self.id.number.to_be_bytes())
            .unwrap();
        part.extend_from_slice(&[self.index, total]).unwrap();
        part.extend_from_slice(&self.size.to_be_bytes()).unwrap();
        part.extend_from_slice(payload).unwrap();
    }
}

fn word(bytes: &[u8], at: usize) -> u32
    requires { at + 4 ≤ length bytes.now }
    ensures { result ≡ word_at bytes.now at }
{
    let (field, _) = bytes[at..].split_first_chunk::<4>().unwrap();
    u32::from_be_bytes(*field)
}

fn long(bytes: &[u8], at: usize) -> u64
    requires { at + 8 ≤ length bytes.now }
    ensures { result ≡ long_at bytes.now at }
{
    let (field, _) = bytes[at..].split_first_chunk::<8>().unwrap();
    u64::from_be_bytes(*field)
}

impl Header {
    #[tactic(auto, unfolding(crate::specs::Part::header_of))]
    fn of(bytes: &[u8]) -> Header
        requires { HEADER ≤ length bytes.now }
        ensures { result ≡ header_of bytes.now }
    {
        Header {
            id: MessageId {
                sender: NodeId(word(bytes, 1)),
                boot: Boot(long(bytes, 5)),
                number: long(bytes, 13),
            },
            index: bytes[21],
            size: word(bytes, 23),
        }
    }
}

/// Whether index, number of parts and length of the payload are what this length of the message says.
fn is_cut(bytes: &[u8], size: usize) -> bool
    requires { HEADER ≤ length bytes.now }
    ensures exact { result ≡ is_cut bytes.now size }
    ensures limits { OnTrue result ((size ≤ FRAME) × (slice_index bytes.now 21 < parts_in size)
        × (length bytes.now - HEADER ≡ bytes_in size (slice_index bytes.now 21))) }
{
    if size == 0 || size > FRAME {
        return false;
    }
    let index = bytes[21] as usize;
    let total = part_count(size);
    bytes[22] as usize == total && index < total && bytes.len() - HEADER == payload_len(size, index)
}

/// The header and the payload, where these bytes are a part.
#[tactic(auto, unfolding(crate::specs::Part::is_part, crate::specs::Part::header_of))]
pub(crate) fn read(bytes: &[u8]) -> Option<(Header, &[u8])>
    ensures exact { option_map (λ part. (part.0, part.1.now)) result ≡ read_part bytes.now }
    ensures limits { IfSome result (λ part. (part.0.size ≤ FRAME)
        × (part.0.index < parts_in part.0.size)
        × (length part.1.now ≡ bytes_in part.0.size part.0.index)) }
{
    if bytes.len() < HEADER || bytes[0] != VERSION || !is_cut(bytes, word(bytes, 23) as usize) {
        return None;
    }
    let (_, payload) = bytes.split_at(HEADER);
    Some((Header::of(bytes), payload))
}
