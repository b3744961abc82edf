ghost use Rattle.std.specs.Prelude.{◌≡◌, ◌≤◌, take, IfOk, IfErr, Ok};
ghost use Rattle.xt_fields.specs.Reading.{Gives, Fails};
ghost use Rattle.xt_fields.specs.BasicFields.{list_at};
ghost use Rattle.xt_wire.specs.IdFields.{node_at};
ghost use Rattle.replica_records.specs.RecordFields.{nodes_at, logged_at, meta_logged_at, registry_logged_at, record_at, boot_record_at, promise_record_at, update_record_at, stage_record_at, head_record_at, view_record_at, meta_record_at, close_record_at, install_record_at, choice_record_at, listed_record_at, seal_record_at, forget_record_at, written_arms, is_old};

use crate::old::old_record;
use std::alloc::Global;
use xt_base::{BODY, Members, NodeId};
use xt_messages::{Logged, Record};
use xt_wire::{FieldErr, FieldReader, ReadFiles, ReadIds, ReadRequests};

/// The longest `bytes` field, in bytes.
const BODY_LIMIT: u32 = BODY as u32;

/// Whether records of this kind are read alone, and no longer written.
fn is_old(kind: u8) -> bool
    ensures { result ≡ is_old kind }
{
    kind == 3 || kind == 4 || kind == 5 || kind == 10 || kind == 11
}

/// A record.
#[tactic(auto, unfolding(crate::specs::RecordFields::record_at, crate::specs::RecordFields::record_arms))]
pub(crate) fn record_at(reader: &mut FieldReader<'_>, alloc: Global) -> Result<Record, FieldErr>
    ensures { Gives result reader.new (record_at reader.old) }
{
    let kind = reader.byte()?;
    if is_old(kind) {
        old_record(reader, alloc, kind)
    } else {
        written_record(reader, alloc, kind)
    }
}

/// A record of a kind that is written.
#[tactic(auto, unfolding(crate::specs::RecordFields::written_arms))]
fn written_record(reader: &mut FieldReader<'_>, alloc: Global, kind: u8) -> Result<Record, FieldErr>
    ensures { Gives result reader.new (written_arms kind reader.old) }
{
    match kind {
        1 => boot_record(reader),
        2 => promise_record(reader),
        6 => view_record(reader),
        7 => meta_record(reader, alloc),
        9 => close_record(reader),
        12 => listed_record(reader),
        13 => update_record(reader, alloc),
        14 => stage_record(reader, alloc),
        15 => head_record(reader, alloc),
        16 => install_record(reader, alloc),
        17 => choice_record(reader, alloc),
        18 => seal_record(reader),
        19 => forget_record(reader),
        _ => Err(FieldErr::Unfit),
    }
}

/// A start.
#[tactic(auto, unfolding(crate::specs::RecordFields::boot_record_at))]
fn boot_record(reader: &mut FieldReader<'_>) -> Result<Record, FieldErr>
    ensures { Gives result reader.new (boot_record_at reader.old) }
{
    let boot = reader.boot()?;
    Ok(Record::Boot { boot })
}

/// A replica's promise.
#[tactic(auto, unfolding(crate::specs::RecordFields::promise_record_at))]
fn promise_record(reader: &mut FieldReader<'_>) -> Result<Record, FieldErr>
    ensures { Gives result reader.new (promise_record_at reader.old) }
{
    let file = reader.file()?;
    let epoch = reader.epoch()?;
    Ok(Record::Promise { file, epoch })
}

/// A write or truncation.
#[tactic(auto, unfolding(crate::specs::RecordFields::update_record_at))]
fn update_record(reader: &mut FieldReader<'_>, alloc: Global) -> Result<Record, FieldErr>
    ensures { Gives result reader.new (update_record_at reader.old) }
{
    let file = reader.file()?;
    let update = reader.update(alloc)?;
    Ok(Record::Update { file, update })
}

/// Bytes that are held.
#[tactic(auto, unfolding(crate::specs::RecordFields::stage_record_at))]
fn stage_record(reader: &mut FieldReader<'_>, alloc: Global) -> Result<Record, FieldErr>
    ensures { Gives result reader.new (stage_record_at reader.old) }
{
    let file = reader.file()?;
    let object = reader.object()?;
    let version = reader.stamp()?;
    let bytes = reader.octets(alloc, BODY_LIMIT)?;
    Ok(Record::Stage {
        file,
        object,
        version,
        bytes,
    })
}

/// A head that is taken.
#[tactic(auto, unfolding(crate::specs::RecordFields::head_record_at))]
fn head_record(reader: &mut FieldReader<'_>, alloc: Global) -> Result<Record, FieldErr>
    ensures { Gives result reader.new (head_record_at reader.old) }
{
    let file = reader.file()?;
    let head = reader.head(alloc)?;
    Ok(Record::Head { file, head })
}

/// Where a file's content is kept.
#[tactic(auto, unfolding(crate::specs::RecordFields::view_record_at))]
fn view_record(reader: &mut FieldReader<'_>) -> Result<Record, FieldErr>
    ensures { Gives result reader.new (view_record_at reader.old) }
{
    let file = reader.file()?;
    let location = reader.location()?;
    Ok(Record::View { file, location })
}

/// A recorded request.
#[tactic(auto, unfolding(crate::specs::RecordFields::meta_record_at))]
fn meta_record(reader: &mut FieldReader<'_>, alloc: Global) -> Result<Record, FieldErr>
    ensures { Gives result reader.new (meta_record_at reader.old) }
{
    let from = reader.node()?;
    let number = reader.count()?;
    let now = reader.count()?;
    let nodes = nodes(reader)?;
    let request = logged(reader, alloc)?;
    Ok(Record::Meta {
        from,
        number,
        now,
        nodes,
        request,
    })
}

/// A version of a list that is closed.
#[tactic(auto, unfolding(crate::specs::RecordFields::close_record_at))]
fn close_record(reader: &mut FieldReader<'_>) -> Result<Record, FieldErr>
    ensures { Gives result reader.new (close_record_at reader.old) }
{
    let file = reader.file()?;
    let version = reader.version()?;
    Ok(Record::Close { file, version })
}

/// A list that is taken.
#[tactic(auto, unfolding(crate::specs::RecordFields::install_record_at))]
fn install_record(reader: &mut FieldReader<'_>, alloc: Global) -> Result<Record, FieldErr>
    ensures { Gives result reader.new (install_record_at reader.old) }
{
    let file = reader.file()?;
    let location = reader.location()?;
    let head = reader.head(alloc)?;
    Ok(Record::Install {
        file,
        location,
        head,
    })
}

/// The choice for a change.
#[tactic(auto, unfolding(crate::specs::RecordFields::choice_record_at))]
fn choice_record(reader: &mut FieldReader<'_>, alloc: Global) -> Result<Record, FieldErr>
    ensures { Gives result reader.new (choice_record_at reader.old) }
{
    let file = reader.file()?;
    let location = reader.location()?;
    let head = reader.head(alloc)?;
    let source = reader.node()?;
    Ok(Record::Choice {
        file,
        location,
        head,
        source,
    })
}

/// The end of a change.
#[tactic(auto, unfolding(crate::specs::RecordFields::listed_record_at))]
fn listed_record(reader: &mut FieldReader<'_>) -> Result<Record, FieldErr>
    ensures { Gives result reader.new (listed_record_at reader.old) }
{
    let file = reader.file()?;
    let version = reader.version()?;
    Ok(Record::Listed { file, version })
}

/// The digest of a body.
#[tactic(auto, unfolding(crate::specs::RecordFields::seal_record_at))]
fn seal_record(reader: &mut FieldReader<'_>) -> Result<Record, FieldErr>
    ensures { Gives result reader.new (seal_record_at reader.old) }
{
    let file = reader.file()?;
    let object = reader.object()?;
    let version = reader.stamp()?;
    let digest = reader.tag()?;
    Ok(Record::Seal {
        file,
        object,
        version,
        digest,
    })
}

/// A file that is removed.
#[tactic(auto, unfolding(crate::specs::RecordFields::forget_record_at))]
fn forget_record(reader: &mut FieldReader<'_>) -> Result<Record, FieldErr>
    ensures { Gives result reader.new (forget_record_at reader.old) }
{
    let file = reader.file()?;
    Ok(Record::Forget { file })
}

/// So many nodes, at most nine, in the first places.
fn node_list(reader: &mut FieldReader<'_>, count: u8) -> Result<[NodeId; 9], FieldErr>
    requires { count ≤ 9 }
    ensures ok { IfOk result (λ nodes. list_at node_at count reader.old ≡
        Ok (take count nodes, reader.new)) }
    ensures err { IfErr result (λ e. Fails e (list_at node_at count reader.old)) }
{
    let mut nodes = [NodeId(0); 9];
    for place in 0..count {
        let node = reader.node()?;
        nodes[usize::from(place)] = node;
    }
    Ok(nodes)
}

/// At most nine different nodes, none where there are 0.
#[tactic(auto, unfolding(crate::specs::RecordFields::nodes_at, crate::specs::RecordFields::nodes_arms))]
fn nodes(reader: &mut FieldReader<'_>) -> Result<Option<Members>, FieldErr>
    ensures { Gives result reader.new (nodes_at reader.old) }
{
    let count = reader.byte()?;
    if count == 0 {
        return Ok(None);
    }
    if count > 9 {
        return Err(FieldErr::Over);
    }
    let nodes = node_list(reader, count)?;
    match Members::new(&nodes[..usize::from(count)]) {
        Ok(members) => Ok(Some(members)),
        Err(_) => Err(FieldErr::Unfit),
    }
}

/// A request, under the kind of its message.
#[tactic(auto, unfolding(crate::specs::RecordFields::logged_at, crate::specs::RecordFields::logged_arms))]
fn logged(reader: &mut FieldReader<'_>, alloc: Global) -> Result<Logged, FieldErr>
    ensures { Gives result reader.new (logged_at reader.old) }
{
    match reader.byte()? {
        20 => meta_logged(reader, alloc),
        22 => registry_logged(reader, alloc),
        _ => Err(FieldErr::Unfit),
    }
}

/// A request to the metadata server.
#[tactic(auto, unfolding(crate::specs::RecordFields::meta_logged_at))]
fn meta_logged(reader: &mut FieldReader<'_>, alloc: Global) -> Result<Logged, FieldErr>
    ensures { Gives result reader.new (meta_logged_at reader.old) }
{
    let user = reader.word()?;
    let group = reader.word()?;
    let request = reader.meta_req(alloc)?;
    Ok(Logged::Meta {
        user,
        group,
        request,
    })
}

/// A request to the directory service.
#[tactic(auto, unfolding(crate::specs::RecordFields::registry_logged_at))]
fn registry_logged(reader: &mut FieldReader<'_>, alloc: Global) -> Result<Logged, FieldErr>
    ensures { Gives result reader.new (registry_logged_at reader.old) }
{
    let request = reader.registry_req(alloc)?;
    Ok(Logged::Registry { request })
}
