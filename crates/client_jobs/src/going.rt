//! How a command goes on after the result of an operation.
ghost use Rattle.std.specs.Prelude.{◌≡◌, ◌≤◌, ◌<◌, ◌^◌, ◌++◌, [], IfOk};
ghost use Rattle.client_plans.specs.Plans as plan;
ghost use Rattle.client_plans.specs.Plans.{goes_by, end_in, end_of};
ghost use Rattle.client_plans.specs.declared.stage.Stage.TheVariants as next;

use crate::pieces::{end_in, first_in, object_size, piece_length, place_of};
use crate::showing::{
    lines_of, nodes_text, number_line, push_line_end, replicas_line, row_line, shown_as,
};
use client_plans::{Goes, Stage};
use client_rows::CallResult;
use command_words::Order;
use std::alloc::Global;
use truncate_epochs::merge;
use xt_base::{Copies, Name, NodeId, Octets, OutOfMemory, SizeMark};
use xt_messages::{
    Capability, MetaAnswer, MetaRefusal, Refusal, RegistryAnswer, RegistryRow, RegistryRows, Status,
};

/// A number that no node has, below those of all nodes.
const NOBODY: NodeId = NodeId(0);

/// The rows of a full page; a page with fewer is the last one.
const PAGE_ROWS: usize = 256;

/// The names of a full page; a page with fewer is the last one.
const PAGE_NAMES: usize = 512;

/// The first object that `get` doesn't ask for.
const END_OF_OBJECTS: u64 = 4_294_967_295;

/// The command goes on at this stage, and writes nothing.
fn goes_to(alloc: Global, stage: Stage) -> Goes
    ensures { result ≡ plan.goes_to stage }
{
    Goes {
        stage,
        text: Octets::new(alloc),
    }
}

/// The command is done, and writes this.
fn ends_with(text: Octets) -> Goes
    ensures { result ≡ plan.ends_with text }
{
    Goes {
        stage: Stage::Over {
            status: Status::Done,
        },
        text,
    }
}

/// The command is done, and writes nothing.
fn ends(alloc: Global) -> Goes
    ensures { result ≡ plan.ends_with [] }
{
    ends_with(Octets::new(alloc))
}

/// The command is over: it was refused for this reason.
fn refused(alloc: Global, rule: Refusal) -> Goes
    ensures { result ≡ plan.refused rule }
{
    goes_to(
        alloc,
        Stage::Over {
            status: Status::Refused { rule },
        },
    )
}

/// The first stage of a command after the lists of servers.
fn main_stage(alloc: Global, order: &Order) -> Result<Stage, OutOfMemory>
    ensures { IfOk result (λ stage. stage ≡ plan.main_stage order.now) }
{
    match order {
        Order::Ls { .. } => Ok(Stage::Pages {
            above: Name::of(alloc, "")?,
        }),
        Order::Put { .. } => Ok(Stage::Creates),
        Order::Get { .. } | Order::Truncate { .. } => Ok(Stage::Grants),
        _ => Ok(Stage::AsksOnce),
    }
}

/// `put` goes on with its next piece, which is still to be taken.
fn fetch_on(alloc: Global, capability: &Capability, mark: SizeMark) -> Goes
    ensures { result ≡ plan.goes_to (next.Fetches capability.now mark) }
{
    let capability = *capability;
    goes_to(alloc, Stage::Fetches { capability, mark })
}

/// Whether `get` asks for the piece at byte `from`: it is in the range, in an object with a number, and below the file's size unless it
/// is the first one.
fn reads_on(range: Option<(u64, u64)>, capability: &Capability, from: u64, mark: SizeMark) -> bool
    requires { end_in range ≤ 281474976710656 }
    ensures { result ≡ plan.reads_on range capability.now from mark }
{
    let (object, _) = place_of(object_size(capability), from);
    from < end_in(range) && (from == first_in(range) || from < mark.size) && object < END_OF_OBJECTS
}

/// `get` writes these bytes, and then asks for the piece at byte `from`, or is done.
fn read_on(
    alloc: Global,
    range: Option<(u64, u64)>,
    hex: bool,
    capability: &Capability,
    from: u64,
    mark: SizeMark,
    bytes: &[u8],
) -> Result<Goes, OutOfMemory>
    requires { end_in range ≤ 281474976710656 }
    ensures { IfOk result (λ goes.
        goes ≡ plan.read_on range hex capability.now from mark bytes.now) }
{
    let mut text = shown_as(alloc, hex, bytes)?;
    if reads_on(range, capability, from, mark) {
        let capability = *capability;
        return Ok(Goes {
            stage: Stage::Reads {
                capability,
                from,
                mark,
            },
            text: Octets::from_vec(text)?,
        });
    }
    push_line_end(&mut text, hex)?;
    Ok(ends_with(Octets::from_vec(text)?))
}

/// A capability was granted: `put` takes its first piece, `get` asks for its first one, `truncate` truncates.
fn granted_to(
    alloc: Global,
    order: &Order,
    capability: &Capability,
    mark: SizeMark,
) -> Result<Goes, OutOfMemory>
    requires { end_of order.now ≤ 281474976710656 }
    ensures { IfOk result (λ goes.
        goes ≡ plan.granted_to order.now capability.now mark) }
{
    match order {
        Order::Put { .. } => Ok(fetch_on(alloc, capability, mark)),
        Order::Get { range, hex, .. } => read_on(
            alloc,
            *range,
            *hex,
            capability,
            first_in(*range),
            mark,
            &[],
        ),
        _ => {
            let capability = *capability;
            Ok(goes_to(alloc, Stage::Truncates { capability, mark }))
        }
    }
}

/// A piece was written: `put` goes on with the next one.
fn written(alloc: Global, order: &Order, capability: &Capability, mark: SizeMark) -> Goes
    ensures { result ≡ plan.written order.now capability.now mark }
{
    match order {
        Order::Put { .. } => fetch_on(alloc, capability, mark),
        _ => ends(alloc),
    }
}

/// A piece was read: `get` writes it, and goes on with the next one.
fn was_read(
    alloc: Global,
    order: &Order,
    capability: &Capability,
    from: u64,
    mark: SizeMark,
    bytes: &[u8],
) -> Result<Goes, OutOfMemory>
    requires { end_of order.now ≤ 281474976710656 }
    ensures { IfOk result (λ goes.
        goes ≡ plan.was_read order.now capability.now from mark bytes.now) }
{
    match order {
        Order::Get { range, hex, .. } => {
            let count = piece_length(object_size(capability), from, end_in(*range));
            read_on(
                alloc,
                *range,
                *hex,
                capability,
                from + u64::from(count),
                mark,
                bytes,
            )
        }
        _ => Ok(ends(alloc)),
    }
}

/// An operation on a file's bytes succeeded, and showed this mark of its size.
fn done_at(
    alloc: Global,
    order: &Order,
    stage: &Stage,
    learnt: SizeMark,
    bytes: &[u8],
) -> Result<Goes, OutOfMemory>
    requires { end_of order.now ≤ 281474976710656 }
    ensures { IfOk result (λ goes.
        goes ≡ plan.done_at order.now stage.now learnt bytes.now) }
{
    match stage {
        Stage::Writes {
            capability,
            mark,
            ..
        } => Ok(written(alloc, order, capability, merge(*mark, learnt))),
        Stage::Reads {
            capability,
            from,
            mark,
        } => was_read(alloc, order, capability, *from, merge(*mark, learnt), bytes),
        Stage::Truncates { capability, mark } => Ok(goes_to(
            alloc,
            Stage::Reports {
                capability: *capability,
                mark: merge(*mark, learnt),
            },
        )),
        _ => Ok(ends(alloc)),
    }
}

/// The last of these names, or the empty one.
fn last_of(alloc: Global, names: &[Name]) -> Result<Name, OutOfMemory>
    ensures { IfOk result (λ name. name ≡ plan.last_of names.now) }
{
    match names.last() {
        None => Name::of(alloc, ""),
        Some(name) => name.copy(alloc),
    }
}

/// A page of names came: they are written, and the next page is asked for if this one is full.
fn names_told(alloc: Global, names: &[Name]) -> Result<Goes, OutOfMemory>
    ensures { IfOk result (λ goes. goes ≡ plan.names_told names.now) }
{
    let text = lines_of(alloc, names)?;
    if names.len() < PAGE_NAMES {
        return Ok(ends_with(text));
    }
    let above = last_of(alloc, names)?;
    Ok(Goes {
        stage: Stage::Pages { above },
        text,
    })
}

/// What is written once a file's size was reported: by `put` the size in bytes, else nothing.
fn size_told(alloc: Global, order: &Order, mark: SizeMark) -> Result<Octets, OutOfMemory>
    ensures { IfOk result (λ text. text ≡ plan.size_told order.now mark) }
{
    match order {
        Order::Put { .. } => number_line(alloc, mark.size),
        _ => Ok(Octets::new(alloc)),
    }
}

/// The answer to the creation of a file. One that exists already is written to as well.
fn created(alloc: Global, answer: &MetaAnswer) -> Goes
    ensures { result ≡ plan.created answer.now }
{
    match answer {
        MetaAnswer::Refused {
            refusal: MetaRefusal::Exists,
        } => goes_to(alloc, Stage::Grants),
        MetaAnswer::Refused { refusal } => refused(alloc, Refusal::Meta { refusal: *refusal }),
        _ => goes_to(alloc, Stage::Grants),
    }
}

/// The answer to the request for a capability.
fn granted(alloc: Global, order: &Order, answer: &MetaAnswer) -> Result<Goes, OutOfMemory>
    requires { end_of order.now ≤ 281474976710656 }
    ensures { IfOk result (λ goes. goes ≡ plan.granted order.now answer.now) }
{
    match answer {
        MetaAnswer::Granted { capability, mark } => { granted_to(alloc, order, capability, *mark) }
        _ => Ok(ends(alloc)),
    }
}

/// The answer to the request for a page of names.
fn listed(alloc: Global, answer: &MetaAnswer) -> Result<Goes, OutOfMemory>
    ensures { IfOk result (λ goes. goes ≡ plan.listed answer.now) }
{
    match answer {
        MetaAnswer::Names { names } => names_told(alloc, names.as_slice()),
        _ => Ok(ends(alloc)),
    }
}

/// The answer to the report of a file's size, after which the command is done.
fn reported(
    alloc: Global,
    order: &Order,
    mark: SizeMark,
    answer: &MetaAnswer,
) -> Result<Goes, OutOfMemory>
    ensures { IfOk result (λ goes. goes ≡ plan.reported order.now mark answer.now) }
{
    match answer {
        MetaAnswer::Done => Ok(ends_with(size_told(alloc, order, mark)?)),
        _ => Ok(ends(alloc)),
    }
}

/// The answer to the only request of a metadata command, which is done: a row, or a file's list, is written.
fn shown(alloc: Global, answer: &MetaAnswer) -> Result<Goes, OutOfMemory>
    ensures { IfOk result (λ goes. goes ≡ plan.shown answer.now) }
{
    match answer {
        MetaAnswer::Row {
            kind,
            owner,
            group,
            mode,
            mark,
        } => Ok(ends_with(row_line(alloc, *kind, *owner, *group, *mode, *mark)?)),
        MetaAnswer::Located { location, changing } => {
            Ok(ends_with(replicas_line(alloc, location, *changing)?))
        }
        _ => Ok(ends(alloc)),
    }
}

/// An answer of the MRC that refuses nothing, by the stage that asked.
fn accepted(
    alloc: Global,
    order: &Order,
    stage: &Stage,
    answer: &MetaAnswer,
) -> Result<Goes, OutOfMemory>
    requires { end_of order.now ≤ 281474976710656 }
    ensures { IfOk result (λ goes.
        goes ≡ plan.accepted order.now stage.now answer.now) }
{
    match stage {
        Stage::Grants => granted(alloc, order, answer),
        Stage::Pages { .. } => listed(alloc, answer),
        Stage::Reports { mark, .. } => reported(alloc, order, *mark, answer),
        Stage::AsksOnce => shown(alloc, answer),
        _ => Ok(ends(alloc)),
    }
}

/// An answer of the MRC to anything but a creation. A refusal ends the command.
fn unless_refused(
    alloc: Global,
    order: &Order,
    stage: &Stage,
    answer: &MetaAnswer,
) -> Result<Goes, OutOfMemory>
    requires { end_of order.now ≤ 281474976710656 }
    ensures { IfOk result (λ goes.
        goes ≡ plan.unless_refused order.now stage.now answer.now) }
{
    match answer {
        MetaAnswer::Refused { refusal } => Ok(refused(alloc, Refusal::Meta { refusal: *refusal })),
        _ => accepted(alloc, order, stage, answer),
    }
}

/// An answer of the MRC, by the stage that asked.
fn answered(
    alloc: Global,
    order: &Order,
    stage: &Stage,
    answer: &MetaAnswer,
) -> Result<Goes, OutOfMemory>
    requires { end_of order.now ≤ 281474976710656 }
    ensures { IfOk result (λ goes.
        goes ≡ plan.answered order.now stage.now answer.now) }
{
    match stage {
        Stage::Creates => Ok(created(alloc, answer)),
        _ => unless_refused(alloc, order, stage, answer),
    }
}

/// The node of the last row, `NOBODY` if there is none.
fn last_node(rows: &[RegistryRow]) -> NodeId
    ensures { result ≡ plan.last_node rows.now }
{
    match rows.last() {
        None => NOBODY,
        Some(row) => row.node,
    }
}

/// A page of rows came. After the last page of kind 2 (the MRC) those of kind 1 (OSDs) are asked for, and after these the command begins.
fn rows_told(
    alloc: Global,
    order: &Order,
    kind: u8,
    rows: &[RegistryRow],
) -> Result<Stage, OutOfMemory>
    ensures { IfOk result (λ stage. stage ≡ plan.rows_told order.now kind rows.now) }
{
    if rows.len() >= PAGE_ROWS {
        return Ok(Stage::Lists {
            kind,
            above: last_node(rows),
        });
    }
    if kind == 2 {
        Ok(Stage::Lists {
            kind: 1,
            above: NOBODY,
        })
    } else {
        main_stage(alloc, order)
    }
}

/// The version of the row in an answer, 0 if there is no row.
fn version_told(answer: &RegistryAnswer) -> u64
    ensures { result ≡ plan.version_told answer.now }
{
    match answer {
        RegistryAnswer::Row { row } => row.version,
        _ => 0,
    }
}

/// The answer to the request for a page of rows.
fn rows_listed(
    alloc: Global,
    order: &Order,
    kind: u8,
    answer: &RegistryAnswer,
) -> Result<Goes, OutOfMemory>
    ensures { IfOk result (λ goes. goes ≡ plan.rows_listed order.now kind answer.now) }
{
    match answer {
        RegistryAnswer::Rows { rows } => {
            let stage = rows_told(alloc, order, kind, rows.as_slice())?;
            Ok(goes_to(alloc, stage))
        }
        _ => Ok(ends(alloc)),
    }
}

/// These rows, and then those of a page.
fn joined(
    alloc: Global,
    before: &RegistryRows,
    rows: &[RegistryRow],
) -> Result<RegistryRows, OutOfMemory>
    ensures { IfOk result (λ all. all ≡ before.now ++ rows.now) }
{
    let mut all = before.copy(alloc)?;
    for row in rows {
        all.push(row.copy(alloc)?)?;
    }
    Ok(all)
}

/// A page of rows came for a command that shows them: `told` are all that came so far. After the last page of kind 2 (the MRC) those of
/// kind 1 (OSDs) are asked for, and after these all rows are shown.
fn rows_collected(
    alloc: Global,
    kind: u8,
    told: RegistryRows,
    rows: &[RegistryRow],
) -> Result<Goes, OutOfMemory>
    ensures { IfOk result (λ goes. goes ≡ plan.rows_collected kind told rows.now) }
{
    if rows.len() >= PAGE_ROWS {
        let above = last_node(rows);
        return Ok(goes_to(
            alloc,
            Stage::Collects {
                kind,
                above,
                rows: told,
            },
        ));
    }
    if kind == 2 {
        return Ok(goes_to(
            alloc,
            Stage::Collects {
                kind: 1,
                above: NOBODY,
                rows: told,
            },
        ));
    }
    let text = nodes_text(alloc, told.as_slice())?;
    Ok(ends_with(text))
}

/// The answer to the request for a page of the rows that a command shows.
fn nodes_listed(
    alloc: Global,
    kind: u8,
    before: &RegistryRows,
    answer: &RegistryAnswer,
) -> Result<Goes, OutOfMemory>
    ensures { IfOk result (λ goes. goes ≡ plan.nodes_listed kind before.now answer.now) }
{
    match answer {
        RegistryAnswer::Rows { rows } => {
            let told = joined(alloc, before, rows.as_slice())?;
            rows_collected(alloc, kind, told, rows.as_slice())
        }
        _ => Ok(ends(alloc)),
    }
}

/// The answer to the setting or the removal of a row.
fn row_set(alloc: Global, answer: &RegistryAnswer) -> Goes
    ensures { result ≡ plan.row_set answer.now }
{
    match answer {
        RegistryAnswer::Changed { version } => {
            refused(alloc, Refusal::Changed { version: *version })
        }
        RegistryAnswer::Absent => refused(alloc, Refusal::Absent),
        _ => ends(alloc),
    }
}

/// An answer of the DIR, by the stage that asked.
fn registered(
    alloc: Global,
    order: &Order,
    stage: &Stage,
    answer: &RegistryAnswer,
) -> Result<Goes, OutOfMemory>
    ensures { IfOk result (λ goes. goes ≡ plan.registered order.now stage.now answer.now) }
{
    match stage {
        Stage::Lists { kind, .. } => rows_listed(alloc, order, *kind, answer),
        Stage::Collects { kind, rows, .. } => nodes_listed(alloc, *kind, rows, answer),
        Stage::Looks => Ok(goes_to(
            alloc,
            Stage::Sets {
                version: version_told(answer),
            },
        )),
        Stage::Sets { .. } => Ok(row_set(alloc, answer)),
        _ => Ok(ends(alloc)),
    }
}

/// How a command with this order goes on after the result of its operation.
#[tactic(auto, unfolding(client_plans::specs::Plans::goes_by))]
pub fn goes_by(
    alloc: Global,
    order: &Order,
    stage: &Stage,
    ended: &CallResult,
) -> Result<Goes, OutOfMemory>
    requires { end_of order.now ≤ 281474976710656 }
    ensures { IfOk result (λ goes. goes ≡ goes_by order.now stage.now ended.now) }
{
    match ended {
        CallResult::Ok { mark, bytes, .. } => {
            done_at(alloc, order, stage, *mark, bytes.as_slice())
        }
        CallResult::Retry { answers } => {
            let answers = answers.copy(alloc)?;
            Ok(goes_to(
                alloc,
                Stage::Over {
                    status: Status::Retry { answers },
                },
            ))
        }
        CallResult::Refused { reply } => Ok(refused(alloc, Refusal::Ask { refusal: *reply })),
        CallResult::Meta { answer } => answered(alloc, order, stage, answer),
        CallResult::Registry { answer } => registered(alloc, order, stage, answer),
    }
}
