ghost use Rattle.std.specs.Prelude.{◌≡◌, ◌↔◌, ◌+◌, ◌++◌, ◌∷◌, ◌<◌, ◌≤◌, true, None, Some, [], length, take, drop, is_some, position, slice_get, slice_index_or, slice_set, IfOk, OnErr, OnOk, MatchOption, IsErrOf};
ghost use Rattle.std.specs.List.{list_all};
ghost use Rattle.xt_parts.specs.declared.joining.JoinErr.TheVariants.{BadPart, OutOfMemory};
ghost use Rattle.xt_parts.specs.Part.{parts_in, bytes_in};
ghost use Rattle.xt_parts.specs.Places.{StandsAt};
ghost use Rattle.message_ids.specs.Same.{is_same};
ghost use Rattle.xt_parts.specs.Joining.{HalfJoined, bytes_of, has_payload, none_taken, half_of, newest, begun, added, joined_to, after_part};

use crate::part::{Header, part_count, read};
use crate::{HALF_JOINED, PAYLOAD};
use message_ids::MessageId;
use std::alloc::{AllocError, AllocFailed, Global};
use std::marker::Model;
use thiserror::Error;
use xt_base::{Boot, Buffer, FRAME, NodeId};

/// Why a part wasn't taken. The joiner is as it was.
#[derive(Clone, Copy, Debug, Error)]
pub enum JoinErr {
    /// The bytes aren't a part, or they give a half joined message another length.
    #[error("not a part of a message")]
    BadPart,
    #[error("out of memory")]
    OutOfMemory,
}

impl From<AllocError> for JoinErr {
    ghost from_gives = { λ _ e. e ≡ OutOfMemory };

    fn from(_: AllocError) -> JoinErr {
        JoinErr::OutOfMemory
    }
}

impl<T: Drop> From<AllocFailed<T>> for JoinErr {
    ghost from_gives = { λ _ e. e ≡ OutOfMemory };

    fn from(_: AllocFailed<T>) -> JoinErr {
        JoinErr::OutOfMemory
    }
}

/// A message that is whole, and who sent it in which boot.
#[derive(Drop)]
pub struct Whole {
    pub sender: NodeId,
    pub boot: Boot,
    pub bytes: Buffer,
}

impl Whole {
    fn of(id: &MessageId, bytes: Buffer) -> Whole
        ensures { result ≡ record { sender = id.now.sender; boot = id.now.boot; bytes = bytes } }
    {
        Whole {
            sender: id.sender,
            boot: id.boot,
            bytes,
        }
    }
}

/// A message of which parts are missing: its bytes, each payload in its place, and which indices are taken. It has
/// room for the whole message from its first part on, so that each payload is copied once.
#[derive(Drop)]
struct Half {
    id: MessageId,
    taken: Vec<bool>,
    bytes: Vec<u8>,
}

impl Model for Half {
    ghost use Rattle.std.specs.Prelude.{◌≡◌, length};
    ghost use Rattle.xt_parts.specs.declared.TheConstants.{PAYLOAD};
    ghost use Rattle.xt_parts.specs.Part.{parts_in};
    ghost use Rattle.xt_parts.specs.Joining.{HalfJoined};
    ghost use Rattle.xt_parts.specs.Buffers.{payloads_in};

    ghost Value = { HalfJoined };

    ghost view = { λ h. record {
      id = h.id;
      size = length h.bytes.items;
      taken = payloads_in PAYLOAD h.taken.items h.bytes.items;
    } };

    ghost invariant = { λ h. length h.taken.items ≡ parts_in (length h.bytes.items) };
}

/// Writes these bytes over those from this place on.
fn overwrite(bytes: &mut Vec<u8>, start: usize, payload: &[u8])
    requires { start + length payload.now ≤ length bytes.old.items }
    ensures written { bytes.new.items ≡
        take start bytes.old.items
        ++ (payload.now ++ drop (start + length payload.now) bytes.old.items) }
    ensures long { length bytes.new.items ≡ length bytes.old.items }
{
    bytes.as_mut_slice()[start..start + payload.len()].copy_from_slice(payload);
}

/// Whether each of them is true.
fn are_all(flags: &[bool]) -> bool
    ensures { result ≡ list_all (λ flag. flag) flags.now }
{
    flags.iter().all(|flag| *flag)
}

impl Half {
    /// A message that this part begins, with no index taken.
    #[tactic(auto, using(crate::proofs::Payloads::none_in))]
    fn new(alloc: Global, header: &Header) -> Result<Half, AllocError>
        requires { header.now.size ≤ FRAME }
        ensures { IfOk result (λ half. half ≡
            record {
              id = header.now.id;
              size = header.now.size;
              taken = none_taken header.now.size;
            }) }
    {
        let size = header.size as usize;
        Ok(Half {
            id: header.id,
            taken: vec![in alloc; false; part_count(size)]?,
            bytes: vec![in alloc; 0u8; size]?,
        })
    }

    /// The length of the whole message, in bytes.
    fn size(&self) -> usize
        ensures { result ≡ self.now.size }
    {
        self.bytes.len()
    }

    /// Whether it is this message.
    fn is(&self, id: &MessageId) -> bool
        ensures { result ≡ is_same self.now.id id.now }
    {
        self.id.is(id)
    }

    /// Whether the payload of this index was taken.
    #[tactic(auto, using(crate::proofs::Payloads::taken_at))]
    fn has(&self, index: usize) -> bool
        requires { index < parts_in self.now.size }
        ensures { result ≡ has_payload (slice_get self.now.taken index) }
    {
        self.taken[index]
    }

    /// Adds a payload, in its place.
    #[tactic(auto, using(crate::proofs::Payloads::one_more))]
    fn add(&mut self, index: usize, payload: &[u8])
        requires index { index < parts_in self.old.size }
        requires long { length payload.now ≡ bytes_in self.old.size index }
        ensures { self.new ≡
            record self.old { taken = slice_set self.old.taken index (Some payload.now) } }
    {
        overwrite(&mut self.bytes, index * PAYLOAD, payload);
        self.taken[index] = true;
    }

    /// Whether each index is taken.
    #[tactic(auto, using(crate::proofs::Payloads::all_in))]
    fn is_whole(&self) -> bool
        ensures { result ≡ list_all is_some self.now.taken }
    {
        are_all(&self.taken)
    }

    /// The bytes of the message, as they stand.
    #[tactic(auto, using(crate::proofs::Payloads::bytes_in_place))]
    fn into_bytes(self) -> Buffer
        requires { list_all is_some self.taken ≡ true }
        ensures { Some result ≡ bytes_of self.taken }
    {
        Buffer::from(self.bytes)
    }
}

/// Appends a message, and drops the oldest where there would be too many.
fn keep(halves: &mut Vec<Half>, half: Half) -> Result<(), AllocError>
    requires { length halves.old.items ≤ HALF_JOINED }
    ensures ok { OnOk result (halves.new.items ≡ newest (halves.old.items ++ half ∷ [])) }
    ensures err { OnErr result (halves.new.items ≡ halves.old.items) }
{
    halves.push(half)?;
    if halves.len() > HALF_JOINED {
        let _ = halves.remove(0);
    }
    Ok(())
}

fn position_of(halves: &[Half], id: &MessageId) -> Option<usize>
    ensures { result ≡ position (λ half. is_same half.id id.now) halves.now }
{
    halves.iter().position(|half| half.is(id))
}

/// Where in the list the message with this id is.
#[tactic(auto, using(crate::proofs::Places::found))]
fn place_of(halves: &[Half], id: &MessageId) -> Option<usize>
    ensures { MatchOption result (half_of halves.now id.now ≡ None) (λ place.
        StandsAt halves.now id.now place) }
{
    position_of(halves, id)
}

/// The messages of a node of which parts are missing, oldest first. Contracts see them as a list.
#[derive(Drop)]
pub struct Joiner {
    alloc: Global,
    halves: Vec<Half>,
}

impl Model for Joiner {
    ghost use Rattle.std.specs.Prelude.{◌≤◌, List, length};
    ghost use Rattle.xt_parts.specs.declared.TheConstants.{HALF_JOINED};
    ghost use Rattle.xt_parts.specs.Joining.{HalfJoined};

    ghost Value = { List HalfJoined };

    ghost view = { λ j. j.halves.items };

    ghost invariant = { λ j. length j.halves.items ≤ HALF_JOINED };
}

impl Joiner {
    /// A joiner that has taken nothing.
    pub fn new(alloc: Global) -> Joiner
        ensures { result ≡ [] }
    {
        Joiner {
            alloc,
            halves: Vec::new(alloc),
        }
    }

    /// Takes a part, and gives the message that is whole with it. It gives none where the message has parts
    /// missing or the part was taken before.
    pub fn take(&mut self, part: &[u8]) -> Result<Option<Whole>, JoinErr>
        ensures ok { IfOk result (λ whole.
            after_part self.old part.now ≡ Some (record { held = self.new; whole = whole })) }
        ensures bad { IsErrOf result JoinErr.BadPart ↔ (after_part self.old part.now ≡ None) }
        ensures err { OnErr result (self.new ≡ self.old) }
    {
        let Some((header, payload)) = read(part) else {
            return Err(JoinErr::BadPart);
        };
        match place_of(&self.halves, &header.id) {
            None => Ok(self.begin(&header, payload)?),
            Some(place) => self.go_on(place, &header, payload),
        }
    }

    /// Takes the first part of a message.
    fn begin(&mut self, header: &Header, payload: &[u8]) -> Result<Option<Whole>, AllocError>
        requires size { header.now.size ≤ FRAME }
        requires index { header.now.index < parts_in header.now.size }
        requires long { length payload.now ≡ bytes_in header.now.size header.now.index }
        ensures ok { IfOk result (λ whole.
            begun self.old header.now payload.now ≡ record { held = self.new; whole = whole }) }
        ensures err { OnErr result (self.new ≡ self.old) }
    {
        let mut half = Half::new(self.alloc, header)?;
        half.add(header.index as usize, payload);
        if half.is_whole() {
            return Ok(Some(Whole::of(&header.id, half.into_bytes())));
        }
        keep(&mut self.halves, half)?;
        Ok(None)
    }

    /// Takes a part of the half joined message at this place.
    fn go_on(
        &mut self,
        place: usize,
        header: &Header,
        payload: &[u8],
    ) -> Result<Option<Whole>, JoinErr>
        requires found { StandsAt self.old header.now.id place }
        requires index { header.now.index < parts_in header.now.size }
        requires long { length payload.now ≡ bytes_in header.now.size header.now.index }
        ensures ok { IfOk result (λ whole.
            joined_to self.old (half_of self.old header.now.id) header.now payload.now
            ≡ Some (record { held = self.new; whole = whole })) }
        ensures bad { IsErrOf result JoinErr.BadPart
            ↔ (joined_to self.old (half_of self.old header.now.id) header.now payload.now ≡ None) }
        ensures err { OnErr result (self.new ≡ self.old) }
    {
        let half = &self.halves[place];
        if half.size() != header.size as usize {
            return Err(JoinErr::BadPart);
        }
        if half.has(header.index as usize) {
            return Ok(None);
        }
        Ok(self.add_to(place, header, payload))
    }

    /// Adds a new payload to the half joined message at this place, and gives the message where it is whole with it.
    fn add_to(&mut self, place: usize, header: &Header, payload: &[u8]) -> Option<Whole>
        requires found { StandsAt self.old header.now.id place }
        requires size { (other : HalfJoined) →
            (slice_index_or self.old place other).size ≡ header.now.size }
        requires index { header.now.index < parts_in header.now.size }
        requires long { length payload.now ≡ bytes_in header.now.size header.now.index }
        ensures { (other : HalfJoined) →
            added self.old (slice_index_or self.old place other) header.now payload.now ≡
            record { held = self.new; whole = result } }
    {
        let half = &mut self.halves[place];
        half.add(header.index as usize, payload);
        if !half.is_whole() {
            return None;
        }
        let half = self.halves.remove(place);
        Some(Whole::of(&header.id, half.into_bytes()))
    }
}
