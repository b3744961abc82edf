ghost use Rattle.std.specs.Prelude.{◌≡◌, IfOk};
ghost use Rattle.schedule_text.specs.LineReading.{times_at, osd_at, client_at, file_at, start_at, stop_at, crash_at, cut_at, clock_at, tick_at, wake_at, read_at, truncate_at, meta_at, registry_at, again_at, aim_at, write_at, deliver_at, drop_at, settle_at, declared_line, node_line, named_line, line_at};

use crate::nodes::{location_at, node_at};
use server_text::{
    byte_of, bytes_of, cut, read_meta_call, read_registry_call, u8_at, u32_at, u64_at, u128_at,
};
use std::alloc::Global;
use time_line::Line;
use xt_base::OutOfMemory;
use xt_messages::Call;

/// `times L E`
#[tactic(auto, unfolding(crate::specs::LineReading::times_at))]
pub(crate) fn times(words: &[u8]) -> Line
    ensures { result ≡ times_at words.now }
{
    let (lease, words) = u64_at(words);
    let (drift, _) = u64_at(words);
    Line::Times { lease, drift }
}

/// `osd N`
#[tactic(auto, unfolding(crate::specs::LineReading::osd_at))]
pub(crate) fn osd(words: &[u8]) -> Line
    ensures { result ≡ osd_at words.now }
{
    let (node, _) = node_at(words);
    Line::Osd { node }
}

/// `client N CLOCK`
#[tactic(auto, unfolding(crate::specs::LineReading::client_at))]
pub(crate) fn client(words: &[u8]) -> Line
    ensures { result ≡ client_at words.now }
{
    let (node, words) = node_at(words);
    let (clock, _) = u64_at(words);
    Line::Client { node, clock }
}

/// `file F rep|str STRIPE NODE ..`
#[tactic(auto, unfolding(crate::specs::LineReading::file_at))]
pub(crate) fn file(words: &[u8]) -> Option<Line>
    ensures { result ≡ file_at words.now }
{
    let (number, words) = u64_at(words);
    let location = location_at(words)?;
    Some(Line::File { number, location })
}

/// `start N CLOCK`
#[tactic(auto, unfolding(crate::specs::LineReading::start_at))]
pub(crate) fn start(words: &[u8]) -> Line
    ensures { result ≡ start_at words.now }
{
    let (node, words) = node_at(words);
    let (clock, _) = u64_at(words);
    Line::Start { node, clock }
}

/// `stop N`
#[tactic(auto, unfolding(crate::specs::LineReading::stop_at))]
pub(crate) fn stop(words: &[u8]) -> Line
    ensures { result ≡ stop_at words.now }
{
    let (node, _) = node_at(words);
    Line::Stop { node }
}

/// `crash N K BYTE`
#[tactic(auto, unfolding(crate::specs::LineReading::crash_at))]
pub(crate) fn crash(words: &[u8]) -> Option<Line>
    ensures { result ≡ crash_at words.now }
{
    let (node, words) = node_at(words);
    let (call, words) = u8_at(words);
    let (digits, _) = cut(words);
    let fill = byte_of(digits)?;
    Some(Line::Crash { node, call, fill })
}

/// `cut N COUNT`
#[tactic(auto, unfolding(crate::specs::LineReading::cut_at))]
pub(crate) fn cut_line(words: &[u8]) -> Line
    ensures { result ≡ cut_at words.now }
{
    let (node, words) = node_at(words);
    let (count, _) = u128_at(words);
    Line::Cut { node, count }
}

/// `clock N VALUE`
#[tactic(auto, unfolding(crate::specs::LineReading::clock_at))]
pub(crate) fn clock(words: &[u8]) -> Line
    ensures { result ≡ clock_at words.now }
{
    let (node, words) = node_at(words);
    let (clock, _) = u64_at(words);
    Line::Clock { node, clock }
}

/// `tick COUNT`
#[tactic(auto, unfolding(crate::specs::LineReading::tick_at))]
pub(crate) fn tick(words: &[u8]) -> Line
    ensures { result ≡ tick_at words.now }
{
    let (count, _) = u64_at(words);
    Line::Tick { count }
}

/// `wake N`
#[tactic(auto, unfolding(crate::specs::LineReading::wake_at))]
pub(crate) fn wake(words: &[u8]) -> Line
    ensures { result ≡ wake_at words.now }
{
    let (node, _) = node_at(words);
    Line::Wake { node }
}

/// `read C F OBJ AT LEN`
#[tactic(auto, unfolding(crate::specs::LineReading::read_at))]
pub(crate) fn read(words: &[u8]) -> Line
    ensures { result ≡ read_at words.now }
{
    let (client, words) = node_at(words);
    let (file, words) = u64_at(words);
    let (object, words) = u64_at(words);
    let (at, words) = u32_at(words);
    let (len, _) = u32_at(words);
    let call = Call::Read {
        file,
        object,
        at,
        len,
    };
    Line::Call { client, call }
}

/// `write C F OBJ AT HEX`
#[tactic(auto, unfolding(crate::specs::LineReading::write_at))]
pub(crate) fn write(alloc: Global, words: &[u8]) -> Result<Line, OutOfMemory>
    ensures { IfOk result (λ line. line ≡ write_at words.now) }
{
    let (client, words) = node_at(words);
    let (file, words) = u64_at(words);
    let (object, words) = u64_at(words);
    let (at, words) = u32_at(words);
    let (digits, _) = cut(words);
    let call = Call::Write {
        file,
        object,
        at,
        bytes: bytes_of(alloc, digits)?,
    };
    Ok(Line::Call { client, call })
}

/// `truncate C F SIZE EPOCH`
#[tactic(auto, unfolding(crate::specs::LineReading::truncate_at))]
pub(crate) fn truncate(words: &[u8]) -> Line
    ensures { result ≡ truncate_at words.now }
{
    let (client, words) = node_at(words);
    let (file, words) = u64_at(words);
    let (size, words) = u64_at(words);
    let (epoch, _) = u64_at(words);
    let call = Call::Truncate { file, size, epoch };
    Line::Call { client, call }
}

/// `meta C USER GROUP VERB ARGS`
#[tactic(auto, unfolding(crate::specs::LineReading::meta_at))]
pub(crate) fn meta(alloc: Global, words: &[u8]) -> Result<Line, OutOfMemory>
    ensures { IfOk result (λ line. line ≡ meta_at words.now) }
{
    let (client, words) = node_at(words);
    let call = read_meta_call(alloc, words)?;
    Ok(Line::Call { client, call })
}

/// `registry C VERB ARGS`
#[tactic(auto, unfolding(crate::specs::LineReading::registry_at))]
pub(crate) fn registry(alloc: Global, words: &[u8]) -> Result<Line, OutOfMemory>
    ensures { IfOk result (λ line. line ≡ registry_at words.now) }
{
    let (client, words) = node_at(words);
    let call = read_registry_call(alloc, words)?;
    Ok(Line::Call { client, call })
}

/// `again C`
#[tactic(auto, unfolding(crate::specs::LineReading::again_at))]
pub(crate) fn again(words: &[u8]) -> Line
    ensures { result ≡ again_at words.now }
{
    let (client, _) = node_at(words);
    Line::Again { client }
}

/// `aim C F N`
#[tactic(auto, unfolding(crate::specs::LineReading::aim_at))]
pub(crate) fn aim(words: &[u8]) -> Line
    ensures { result ≡ aim_at words.now }
{
    let (client, words) = node_at(words);
    let (file, words) = u64_at(words);
    let (node, _) = node_at(words);
    Line::Aim { client, file, node }
}

/// `deliver M`
#[tactic(auto, unfolding(crate::specs::LineReading::deliver_at))]
pub(crate) fn deliver(words: &[u8]) -> Line
    ensures { result ≡ deliver_at words.now }
{
    let (number, _) = u128_at(words);
    Line::Deliver { number }
}

/// `drop M`
#[tactic(auto, unfolding(crate::specs::LineReading::drop_at))]
pub(crate) fn drop_line(words: &[u8]) -> Line
    ensures { result ≡ drop_at words.now }
{
    let (number, _) = u128_at(words);
    Line::Drop { number }
}

/// `settle COUNT`
#[tactic(auto, unfolding(crate::specs::LineReading::settle_at))]
pub(crate) fn settle(words: &[u8]) -> Line
    ensures { result ≡ settle_at words.now }
{
    let (count, _) = u128_at(words);
    Line::Settle { count }
}

/// A line of this name, of those that set the times or declare.
#[tactic(auto, unfolding(crate::specs::LineReading::declared_line))]
pub(crate) fn declared_line(name: &[u8], words: &[u8]) -> Option<Line>
    ensures { result ≡ declared_line name.now words.now }
{
    if name == b"times".as_slice() {
        Some(times(words))
    } else if name == b"osd".as_slice() {
        Some(osd(words))
    } else if name == b"mrc".as_slice() {
        Some(Line::Mrc)
    } else if name == b"dir".as_slice() {
        Some(Line::Dir)
    } else if name == b"client".as_slice() {
        Some(client(words))
    } else if name == b"file".as_slice() {
        file(words)
    } else {
        None
    }
}

/// A line of this name, of those that start, stop or plan a stop, move a clock or wake, and those before.
#[tactic(auto, unfolding(crate::specs::LineReading::node_line))]
pub(crate) fn node_line(name: &[u8], words: &[u8]) -> Option<Line>
    ensures { result ≡ node_line name.now words.now }
{
    if name == b"start".as_slice() {
        Some(start(words))
    } else if name == b"stop".as_slice() {
        Some(stop(words))
    } else if name == b"crash".as_slice() {
        crash(words)
    } else if name == b"cut".as_slice() {
        Some(cut_line(words))
    } else if name == b"clock".as_slice() {
        Some(clock(words))
    } else if name == b"tick".as_slice() {
        Some(tick(words))
    } else if name == b"wake".as_slice() {
        Some(wake(words))
    } else {
        declared_line(name, words)
    }
}

/// A line of this name, of any but those with bytes or texts.
#[tactic(auto, unfolding(crate::specs::LineReading::named_line))]
pub(crate) fn named_line(name: &[u8], words: &[u8]) -> Option<Line>
    ensures { result ≡ named_line name.now words.now }
{
    if name == b"read".as_slice() {
        Some(read(words))
    } else if name == b"truncate".as_slice() {
        Some(truncate(words))
    } else if name == b"again".as_slice() {
        Some(again(words))
    } else if name == b"aim".as_slice() {
        Some(aim(words))
    } else if name == b"deliver".as_slice() {
        Some(deliver(words))
    } else if name == b"drop".as_slice() {
        Some(drop_line(words))
    } else if name == b"settle".as_slice() {
        Some(settle(words))
    } else {
        node_line(name, words)
    }
}

/// The line that the bytes spell, if they spell one. Others may give a line too.
#[tactic(auto, unfolding(crate::specs::LineReading::line_at))]
pub(crate) fn loose_line(alloc: Global, bytes: &[u8]) -> Result<Option<Line>, OutOfMemory>
    ensures { IfOk result (λ found. found ≡ line_at bytes.now) }
{
    let (name, words) = cut(bytes);
    if name == b"write".as_slice() {
        Ok(Some(write(alloc, words)?))
    } else if name == b"meta".as_slice() {
        Ok(Some(meta(alloc, words)?))
    } else if name == b"registry".as_slice() {
        Ok(Some(registry(alloc, words)?))
    } else {
        Ok(named_line(name, words))
    }
}
