ghost use Rattle.std.specs.Prelude.{◌≡◌, ◌≢◌, ◌≤◌, ◌<◌, ◌^◌, ◌++◌, length, map, take, OnOk, IfErr, IfOk, Ok, Err};
ghost use Rattle.xt_fields.specs.declared.fault.FieldErr.TheVariants.{OutOfMemory};
ghost use Rattle.xt_messages.specs.Limits.{FitsOp, FitsUpdate, FitsVersions, FitsSessions, FitsHead, rise, is_at_most};
ghost use Rattle.xt_fields.specs.Reading.{Fails, Gives, Takes, Tries};
ghost use Rattle.xt_fields.specs.BasicFields.{byte_bytes, word_bytes, long_bytes, octets_bytes, long_at, list_at};
ghost use Rattle.xt_wire.specs.IdFields.{node_at};
ghost use Rattle.xt_wire.specs.FileFields.{kind_bytes, kind_at, kind_arms, version_at, stripe_at, members_bytes, members_at, location_bytes, location_at, sealed_bytes, capability_bytes, capability_at, op_bytes, op_at, op_arms, read_op_at, write_op_at, some_octets_at, update_bytes, update_at, object_version_bytes, object_version_at, session_bytes, session_at, versions_bytes, versions_at, sessions_bytes, sessions_at, head_bytes, head_at};

use crate::ids::{ReadIds, WriteIds};
use std::alloc::Global;
use xt_base::{
    BODY, CLIENTS, Epoch, Members, NO_OBJECT, NodeId, OBJECTS, Octets, OutOfMemory, Seq,
};
use xt_fields::{FieldErr, FieldReader, FieldWriter};
use xt_messages::{
    Capability, FileHead, Kind, Location, ObjectVersion, Op, Session, Sessions, Update, Versions,
};

/// The longest `bytes` field, in bytes.
const BODY_LIMIT: u32 = BODY as u32;

/// Location versions are below this.
const VERSIONS_END: u32 = 1 << 31;

/// How many versions, and how many sessions, a head may have.
const OBJECTS_LIMIT: u32 = OBJECTS as u32;

const CLIENTS_LIMIT: u32 = CLIENTS as u32;

/// Whether the first epoch is the second or before it.
pub fn is_at_most(first: Epoch, second: Epoch) -> bool
    ensures { result ≡ is_at_most first second }
{
    first.number < second.number || (first.number == second.number && first.node.0 <= second.node.0)
}

/// Whether each object's number is above the one before it.
pub fn objects_rise(versions: &[ObjectVersion]) -> bool
    ensures { result ≡ rise (map (λ v. v.object) versions.now) }
{
    let mut rest = versions;
    while let [first, others @ ..] = rest {
        if let [second, ..] = others {
            if second.object <= first.object {
                return false;
            }
        }
        rest = others;
    }
    true
}

/// Whether each client's number is above the one before it.
pub fn clients_rise(sessions: &[Session]) -> bool
    ensures { result ≡ rise (map (λ s. s.client.0) sessions.now) }
{
    let mut rest = sessions;
    while let [first, others @ ..] = rest {
        if let [second, ..] = others {
            if second.client.0 <= first.client.0 {
                return false;
            }
        }
        rest = others;
    }
    true
}

/// Reads locations, capabilities, operations, updates and heads. A field that is refused leaves the reader as it was,
/// and what takes no allocator never runs out of memory.
pub trait ReadFiles {
    /// An object, or in an update `NO_OBJECT`.
    fn object(&mut self) -> Result<u64, FieldErr>;

    /// How a file's objects lie.
    fn kind(&mut self) -> Result<Kind, FieldErr>;

    /// The version of a location.
    fn version(&mut self) -> Result<u32, FieldErr>;

    /// The size of an object, in bytes.
    fn stripe(&mut self) -> Result<u32, FieldErr>;

    /// One to nine different nodes.
    fn members(&mut self) -> Result<Members, FieldErr>;

    /// Where a file lies.
    fn location(&mut self) -> Result<Location, FieldErr>;

    /// A capability.
    fn capability(&mut self) -> Result<Capability, FieldErr>;

    /// An operation.
    fn op(&mut self, alloc: Global) -> Result<Op, FieldErr>;

    /// An update.
    fn update(&mut self, alloc: Global) -> Result<Update, FieldErr>;

    /// The version of an object.
    fn object_version(&mut self) -> Result<ObjectVersion, FieldErr>;

    /// The last write of a client.
    fn session(&mut self) -> Result<Session, FieldErr>;

    /// At most 16,384 versions, rising by object.
    fn versions(&mut self, alloc: Global) -> Result<Versions, FieldErr>;

    /// At most 256 sessions, rising by client.
    fn sessions(&mut self, alloc: Global) -> Result<Sessions, FieldErr>;

    /// The state of a replica.
    fn head(&mut self, alloc: Global) -> Result<FileHead, FieldErr>;
}

/// The kind of this number.
#[tactic(auto, unfolding(crate::specs::FileFields::kind_arms))]
fn kind_arm(fields: &mut FieldReader<'_>, number: u8) -> Result<Kind, FieldErr>
    ensures { Takes result fields.old fields.new (kind_arms number fields.old) }
{
    match number {
        1 => Ok(Kind::Replicated),
        2 => Ok(Kind::Striped),
        _ => Err(FieldErr::Unfit),
    }
}

/// So many nodes, at most nine, in the first places.
fn node_list(fields: &mut FieldReader<'_>, count: u8) -> Result<[NodeId; 9], FieldErr>
    requires { count ≤ 9 }
    ensures ok { IfOk result (λ nodes. list_at node_at count fields.old ≡
        Ok (take count nodes, fields.new)) }
    ensures err { IfErr result (λ e. Fails e (list_at node_at count fields.old)) }
    ensures never { IfErr result (λ e. e ≢ OutOfMemory) }
{
    let mut nodes = [NodeId(0); 9];
    for place in 0..count {
        let node = fields.node()?;
        nodes[usize::from(place)] = node;
    }
    Ok(nodes)
}

/// The operation of this number.
#[tactic(auto, unfolding(crate::specs::FileFields::op_arms, crate::specs::FileFields::truncate_op_at))]
fn op_arm(fields: &mut FieldReader<'_>, number: u8, alloc: Global) -> Result<Op, FieldErr>
    ensures { Gives result fields.new (op_arms number fields.old) }
{
    match number {
        1 => read_op(fields),
        2 => write_op(fields, alloc),
        3 => Ok(Op::Truncate {
            size: fields.long()?,
        }),
        _ => Err(FieldErr::Unfit),
    }
}

/// A read.
#[tactic(auto, unfolding(crate::specs::FileFields::read_op_at))]
fn read_op(fields: &mut FieldReader<'_>) -> Result<Op, FieldErr>
    ensures { Gives result fields.new (read_op_at fields.old) }
{
    let object = fields.object()?;
    let at = fields.word()?;
    let len = fields.word_within(1, BODY_LIMIT)?;
    Ok(Op::Read { object, at, len })
}

/// A write.
#[tactic(auto, unfolding(crate::specs::FileFields::write_op_at))]
fn write_op(fields: &mut FieldReader<'_>, alloc: Global) -> Result<Op, FieldErr>
    ensures { Gives result fields.new (write_op_at fields.old) }
{
    let object = fields.object()?;
    let at = fields.word()?;
    let bytes = some_octets(fields, alloc)?;
    Ok(Op::Write { object, at, bytes })
}

/// Bytes that aren't empty.
#[tactic(auto, unfolding(crate::specs::FileFields::some_octets_at))]
fn some_octets(fields: &mut FieldReader<'_>, alloc: Global) -> Result<Octets, FieldErr>
    ensures { Gives result fields.new (some_octets_at fields.old) }
{
    let bytes = fields.octets(alloc, BODY_LIMIT)?;
    if bytes.as_slice().is_empty() {
        return Err(FieldErr::Unfit);
    }
    Ok(bytes)
}

/// So many entries.
fn object_version_list(
    fields: &mut FieldReader<'_>,
    alloc: Global,
    count: u32,
) -> Result<Versions, FieldErr>
    ensures { Gives result fields.new (list_at object_version_at count fields.old) }
{
    let mut list = Seq::new(alloc);
    for _ in 0..count {
        let entry = fields.object_version()?;
        list.push(entry)?;
    }
    Ok(list)
}

/// So many entries.
fn session_list(
    fields: &mut FieldReader<'_>,
    alloc: Global,
    count: u32,
) -> Result<Sessions, FieldErr>
    ensures { Gives result fields.new (list_at session_at count fields.old) }
{
    let mut list = Seq::new(alloc);
    for _ in 0..count {
        let entry = fields.session()?;
        list.push(entry)?;
    }
    Ok(list)
}

impl ReadFiles for FieldReader<'_> {
    fn object(&mut self) -> Result<u64, FieldErr>
        ensures { Takes result self.old self.new (long_at self.old) }
    {
        self.long()
    }

    #[tactic(auto, unfolding(crate::specs::FileFields::kind_at))]
    fn kind(&mut self) -> Result<Kind, FieldErr>
        ensures { Takes result self.old self.new (kind_at self.old) }
    {
        let mut ahead = self.ahead();
        let number = ahead.byte()?;
        let kind = kind_arm(&mut ahead, number)?;
        *self = ahead;
        Ok(kind)
    }

    #[tactic(auto, unfolding(crate::specs::FileFields::version_at))]
    fn version(&mut self) -> Result<u32, FieldErr>
        ensures { Takes result self.old self.new (version_at self.old) }
    {
        let mut ahead = self.ahead();
        let version = ahead.word()?;
        if version >= VERSIONS_END {
            return Err(FieldErr::Unfit);
        }
        *self = ahead;
        Ok(version)
    }

    #[tactic(auto, unfolding(crate::specs::FileFields::stripe_at))]
    fn stripe(&mut self) -> Result<u32, FieldErr>
        ensures { Takes result self.old self.new (stripe_at self.old) }
    {
        let mut ahead = self.ahead();
        let stripe = ahead.word_within(1_024, BODY_LIMIT)?;
        if stripe % 1_024 != 0 {
            return Err(FieldErr::Unfit);
        }
        *self = ahead;
        Ok(stripe)
    }

    #[tactic(auto, unfolding(crate::specs::FileFields::members_at))]
    fn members(&mut self) -> Result<Members, FieldErr>
        ensures { Takes result self.old self.new (members_at self.old) }
    {
        let mut ahead = self.ahead();
        let count = ahead.byte()?;
        if count > 9 {
            return Err(FieldErr::Over);
        }
        let nodes = node_list(&mut ahead, count)?;
        match Members::new(&nodes[..usize::from(count)]) {
            Ok(members) => {
                *self = ahead;
                Ok(members)
            }
            Err(_) => Err(FieldErr::Unfit),
        }
    }

    #[tactic(auto, unfolding(crate::specs::FileFields::location_at))]
    fn location(&mut self) -> Result<Location, FieldErr>
        ensures { Takes result self.old self.new (location_at self.old) }
    {
        let mut ahead = self.ahead();
        let version = ahead.version()?;
        let kind = ahead.kind()?;
        let stripe = ahead.stripe()?;
        let members = ahead.members()?;
        *self = ahead;
        Ok(Location {
            version,
            kind,
            stripe,
            members,
        })
    }

    #[tactic(auto, unfolding(crate::specs::FileFields::capability_at))]
    fn capability(&mut self) -> Result<Capability, FieldErr>
        ensures { Takes result self.old self.new (capability_at self.old) }
    {
        let mut ahead = self.ahead();
        let file = ahead.file()?;
        let mode = ahead.byte_within(1, 2)?;
        let expiry = ahead.long()?;
        let epoch = ahead.count()?;
        let location = ahead.location()?;
        let tag = ahead.tag()?;
        *self = ahead;
        Ok(Capability {
            file,
            mode,
            expiry,
            epoch,
            location,
            tag,
        })
    }

    #[tactic(auto, unfolding(crate::specs::FileFields::op_at))]
    fn op(&mut self, alloc: Global) -> Result<Op, FieldErr>
        ensures { Tries result self.old self.new (op_at self.old) }
    {
        let mut ahead = self.ahead();
        let number = ahead.byte()?;
        let op = op_arm(&mut ahead, number, alloc)?;
        *self = ahead;
        Ok(op)
    }

    #[tactic(auto, unfolding(crate::specs::FileFields::update_at))]
    fn update(&mut self, alloc: Global) -> Result<Update, FieldErr>
        ensures { Tries result self.old self.new (update_at self.old) }
    {
        let mut ahead = self.ahead();
        let stamp = ahead.stamp()?;
        let id = ahead.op_id()?;
        let mark = ahead.mark()?;
        let drop_from = ahead.object()?;
        let object = ahead.object()?;
        let body = ahead.octets(alloc, BODY_LIMIT)?;
        if body.as_slice().is_empty() != (object == NO_OBJECT) {
            return Err(FieldErr::Unfit);
        }
        *self = ahead;
        Ok(Update {
            stamp,
            id,
            mark,
            drop_from,
            object,
            body,
        })
    }

    #[tactic(auto, unfolding(crate::specs::FileFields::object_version_at))]
    fn object_version(&mut self) -> Result<ObjectVersion, FieldErr>
        ensures { Takes result self.old self.new (object_version_at self.old) }
    {
        let mut ahead = self.ahead();
        let object = ahead.object()?;
        let version = ahead.stamp()?;
        *self = ahead;
        Ok(ObjectVersion { object, version })
    }

    #[tactic(auto, unfolding(crate::specs::FileFields::session_at))]
    fn session(&mut self) -> Result<Session, FieldErr>
        ensures { Takes result self.old self.new (session_at self.old) }
    {
        let mut ahead = self.ahead();
        let client = ahead.node()?;
        let number = ahead.count()?;
        let count = ahead.count()?;
        *self = ahead;
        Ok(Session {
            client,
            number,
            count,
        })
    }

    #[tactic(auto, unfolding(crate::specs::FileFields::versions_at))]
    fn versions(&mut self, alloc: Global) -> Result<Versions, FieldErr>
        ensures { Tries result self.old self.new (versions_at self.old) }
    {
        let mut ahead = self.ahead();
        let count = ahead.word()?;
        if count > OBJECTS_LIMIT {
            return Err(FieldErr::Over);
        }
        let list = object_version_list(&mut ahead, alloc, count)?;
        if !objects_rise(list.as_slice()) {
            return Err(FieldErr::Unfit);
        }
        *self = ahead;
        Ok(list)
    }

    #[tactic(auto, unfolding(crate::specs::FileFields::sessions_at))]
    fn sessions(&mut self, alloc: Global) -> Result<Sessions, FieldErr>
        ensures { Tries result self.old self.new (sessions_at self.old) }
    {
        let mut ahead = self.ahead();
        let count = ahead.word()?;
        if count > CLIENTS_LIMIT {
            return Err(FieldErr::Over);
        }
        let list = session_list(&mut ahead, alloc, count)?;
        if !clients_rise(list.as_slice()) {
            return Err(FieldErr::Unfit);
        }
        *self = ahead;
        Ok(list)
    }

    #[tactic(auto, unfolding(crate::specs::FileFields::head_at))]
    fn head(&mut self, alloc: Global) -> Result<FileHead, FieldErr>
        ensures { Tries result self.old self.new (head_at self.old) }
    {
        let mut ahead = self.ahead();
        let promised = ahead.epoch()?;
        let stamp = ahead.stamp()?;
        let last = ahead.op_id()?;
        let mark = ahead.mark()?;
        let versions = ahead.versions(alloc)?;
        let sessions = ahead.sessions(alloc)?;
        if !is_at_most(stamp.epoch, promised) {
            return Err(FieldErr::Unfit);
        }
        *self = ahead;
        Ok(FileHead {
            promised,
            stamp,
            last,
            mark,
            versions,
            sessions,
        })
    }
}

/// Writes locations, capabilities, operations, updates and heads.
pub trait WriteFiles {
    /// An object, or in an update `NO_OBJECT`.
    fn object(&mut self, object: u64) -> Result<(), OutOfMemory>;

    /// How a file's objects lie.
    fn kind(&mut self, kind: Kind) -> Result<(), OutOfMemory>;

    /// One to nine different nodes.
    fn members(&mut self, members: Members) -> Result<(), OutOfMemory>;

    /// Where a file lies.
    fn location(&mut self, location: Location) -> Result<(), OutOfMemory>;

    /// What the tag of a capability is made of.
    fn sealed(&mut self, capability: &Capability) -> Result<(), OutOfMemory>;

    /// A capability.
    fn capability(&mut self, capability: &Capability) -> Result<(), OutOfMemory>;

    /// An operation.
    fn op(&mut self, op: &Op) -> Result<(), OutOfMemory>
        requires { FitsOp op.now };

    /// An update.
    fn update(&mut self, update: &Update) -> Result<(), OutOfMemory>
        requires { FitsUpdate update.now };

    /// The version of an object.
    fn object_version(&mut self, entry: ObjectVersion) -> Result<(), OutOfMemory>;

    /// The last write of a client.
    fn session(&mut self, session: Session) -> Result<(), OutOfMemory>;

    /// The versions of objects.
    fn versions(&mut self, versions: &Versions) -> Result<(), OutOfMemory>
        requires { FitsVersions versions.now };

    /// The last writes of clients.
    fn sessions(&mut self, sessions: &Sessions) -> Result<(), OutOfMemory>
        requires { FitsSessions sessions.now };

    /// The state of a replica.
    fn head(&mut self, head: &FileHead) -> Result<(), OutOfMemory>
        requires { FitsHead head.now };
}

/// A read.
fn put_read_op(fields: &mut FieldWriter, object: u64, at: u32, len: u32) -> Result<(), OutOfMemory>
    ensures { OnOk result (fields.new ≡ fields.old
        ++ (byte_bytes 1 ++ long_bytes object ++ word_bytes at ++ word_bytes len)) }
{
    fields.byte(1)?;
    fields.object(object)?;
    fields.word(at)?;
    fields.word(len)
}

/// A write.
fn put_write_op(
    fields: &mut FieldWriter,
    object: u64,
    at: u32,
    bytes: &[u8],
) -> Result<(), OutOfMemory>
    requires { length bytes.now < 2 ^ 32 }
    ensures { OnOk result (fields.new ≡ fields.old
        ++ (byte_bytes 2 ++ long_bytes object ++ word_bytes at ++ octets_bytes bytes.now)) }
{
    fields.byte(2)?;
    fields.object(object)?;
    fields.word(at)?;
    fields.octets(bytes)
}

/// A truncation.
fn put_truncate_op(fields: &mut FieldWriter, size: u64) -> Result<(), OutOfMemory>
    ensures { OnOk result (fields.new ≡ fields.old ++ (byte_bytes 3 ++ long_bytes size)) }
{
    fields.byte(3)?;
    fields.long(size)
}

impl WriteFiles for FieldWriter {
    fn object(&mut self, object: u64) -> Result<(), OutOfMemory>
        ensures { OnOk result (self.new ≡ self.old ++ long_bytes object) }
    {
        self.long(object)
    }

    fn kind(&mut self, kind: Kind) -> Result<(), OutOfMemory>
        ensures { OnOk result (self.new ≡ self.old ++ kind_bytes kind) }
    {
        self.byte(match kind {
            Kind::Replicated => 1,
            Kind::Striped => 2,
        })
    }

    fn members(&mut self, members: Members) -> Result<(), OutOfMemory>
        ensures { OnOk result (self.new ≡ self.old ++ members_bytes members) }
    {
        let nodes = members.as_slice();
        self.byte(nodes.len() as u8)?;
        for node in nodes {
            self.node(*node)?;
        }
        Ok(())
    }

    fn location(&mut self, location: Location) -> Result<(), OutOfMemory>
        ensures { OnOk result (self.new ≡ self.old ++ location_bytes location) }
    {
        self.word(location.version)?;
        self.kind(location.kind)?;
        self.word(location.stripe)?;
        self.members(location.members)
    }

    fn sealed(&mut self, capability: &Capability) -> Result<(), OutOfMemory>
        ensures { OnOk result (self.new ≡ self.old ++ sealed_bytes capability.now) }
    {
        self.file(capability.file)?;
        self.byte(capability.mode)?;
        self.long(capability.expiry)?;
        self.long(capability.epoch)?;
        self.location(capability.location)
    }

    fn capability(&mut self, capability: &Capability) -> Result<(), OutOfMemory>
        ensures { OnOk result (self.new ≡ self.old ++ capability_bytes capability.now) }
    {
        self.sealed(capability)?;
        self.tag(capability.tag)
    }

    fn op(&mut self, op: &Op) -> Result<(), OutOfMemory>
        requires { FitsOp op.now }
        ensures { OnOk result (self.new ≡ self.old ++ op_bytes op.now) }
    {
        match op {
            Op::Read { object, at, len } => put_read_op(self, *object, *at, *len),
            Op::Write { object, at, bytes } => put_write_op(self, *object, *at, bytes.as_slice()),
            Op::Truncate { size } => put_truncate_op(self, *size),
        }
    }

    fn update(&mut self, update: &Update) -> Result<(), OutOfMemory>
        requires { FitsUpdate update.now }
        ensures { OnOk result (self.new ≡ self.old ++ update_bytes update.now) }
    {
        self.stamp(update.stamp)?;
        self.op_id(update.id)?;
        self.mark(update.mark)?;
        self.object(update.drop_from)?;
        self.object(update.object)?;
        self.octets(update.body.as_slice())
    }

    fn object_version(&mut self, entry: ObjectVersion) -> Result<(), OutOfMemory>
        ensures { OnOk result (self.new ≡ self.old ++ object_version_bytes entry) }
    {
        self.object(entry.object)?;
        self.stamp(entry.version)
    }

    fn session(&mut self, session: Session) -> Result<(), OutOfMemory>
        ensures { OnOk result (self.new ≡ self.old ++ session_bytes session) }
    {
        self.node(session.client)?;
        self.long(session.number)?;
        self.long(session.count)
    }

    fn versions(&mut self, versions: &Versions) -> Result<(), OutOfMemory>
        requires { FitsVersions versions.now }
        ensures { OnOk result (self.new ≡ self.old ++ versions_bytes versions.now) }
    {
        let list = versions.as_slice();
        self.word(list.len() as u32)?;
        for entry in list {
            self.object_version(*entry)?;
        }
        Ok(())
    }

    fn sessions(&mut self, sessions: &Sessions) -> Result<(), OutOfMemory>
        requires { FitsSessions sessions.now }
        ensures { OnOk result (self.new ≡ self.old ++ sessions_bytes sessions.now) }
    {
        let list = sessions.as_slice();
        self.word(list.len() as u32)?;
        for entry in list {
            self.session(*entry)?;
        }
        Ok(())
    }

    fn head(&mut self, head: &FileHead) -> Result<(), OutOfMemory>
        requires { FitsHead head.now }
        ensures { OnOk result (self.new ≡ self.old ++ head_bytes head.now) }
    {
        self.epoch(head.promised)?;
        self.stamp(head.stamp)?;
        self.op_id(head.last)?;
        self.mark(head.mark)?;
        self.versions(&head.versions)?;
        self.sessions(&head.sessions)
    }
}
