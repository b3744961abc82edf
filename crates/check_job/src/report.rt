//! What is put of the records of a store.
ghost use Rattle.std.specs.Prelude.{◌≡◌, ◌++◌, IfOk, OnOk, string_bytes};
ghost use Rattle.std.specs.Str.{bytes_eq};
ghost use Rattle.check_job.specs.Reports as spec;

use std::alloc::Global;
use store_loading::stored_boot;
use xt_base::OutOfMemory;
use xt_messages::Record;

/// The word for a record's kind.
fn kind_word(rec: &Record) -> &'static str
    ensures { result.now ≡ spec.kind_word rec.now }
{
    match rec {
        Record::Boot { .. } => "boot",
        Record::Promise { .. } => "promise",
        Record::Update { .. } => "update",
        Record::Stage { .. } => "stage",
        Record::Head { .. } => "head",
        Record::View { .. } => "view",
        Record::Meta { .. } => "meta",
        Record::Close { .. } => "close",
        Record::Install { .. } => "install",
        Record::Choice { .. } => "choice",
        Record::Listed { .. } => "listed",
        Record::Seal { .. } => "seal",
        Record::Forget { .. } => "forget",
        Record::OldUpdate { .. } => "oldupdate",
        Record::OldStage { .. } => "oldstage",
        Record::OldHead { .. } => "oldhead",
        Record::OldInstall { .. } => "oldinstall",
        Record::OldChoice { .. } => "oldchoice",
    }
}

/// Whether the record is of the kind with this word.
fn is_of(rec: &Record, word: &str) -> bool
    ensures { result ≡ bytes_eq (spec.kind_word rec.now) word.now }
{
    kind_word(rec) == word
}

/// How many of the records are of the kind with this word.
fn count_of(records: &[Record], word: &str) -> u64
    ensures { result ≡ spec.count_of word.now records.now }
{
    let mut count: usize = 0;
    for rec in records {
        if is_of(rec, word) {
            count += 1;
        }
    }
    count as u64
}

/// Appends a line with a word and a number.
fn push_line(alloc: Global, text: &mut String, word: &str, number: u64) -> Result<(), OutOfMemory>
    ensures { OnOk result (string_bytes text.new ≡
        string_bytes text.old ++ spec.line_text word.now number) }
{
    let line = format!(in alloc; "{word} {number}\n")?;
    text.push_str(line.as_str())?;
    Ok(())
}

/// Appends the line of the kind with this word, of which there are this many records; nothing where there are none.
fn push_counted(alloc: Global, text: &mut String, word: &str, count: u64) -> Result<(), OutOfMemory>
    ensures { OnOk result (string_bytes text.new ≡
        string_bytes text.old ++ spec.counted_line word.now count) }
{
    if count == 0 {
        return Ok(());
    }
    text.push_str("record ")?;
    push_line(alloc, text, word, count)
}

/// Appends the line of the kind with this word.
fn push_kind(
    alloc: Global,
    text: &mut String,
    records: &[Record],
    word: &str,
) -> Result<(), OutOfMemory>
    ensures { OnOk result (string_bytes text.new ≡ string_bytes text.old
        ++ spec.counted_line word.now (spec.count_of word.now records.now)) }
{
    push_counted(alloc, text, word, count_of(records, word))
}

/// Appends the lines of a start and of what a replica keeps.
fn push_replica_kinds(
    alloc: Global,
    text: &mut String,
    records: &[Record],
) -> Result<(), OutOfMemory>
    ensures { OnOk result (string_bytes text.new ≡ string_bytes text.old
        ++ spec.kind_lines records.now spec.replica_kinds) }
{
    push_kind(alloc, text, records, "boot")?;
    push_kind(alloc, text, records, "promise")?;
    push_kind(alloc, text, records, "update")?;
    push_kind(alloc, text, records, "stage")?;
    push_kind(alloc, text, records, "head")?;
    push_kind(alloc, text, records, "view")
}

/// Appends the lines of requests, of lists that change, and of what is said of single bodies and files.
fn push_request_kinds(
    alloc: Global,
    text: &mut String,
    records: &[Record],
) -> Result<(), OutOfMemory>
    ensures { OnOk result (string_bytes text.new ≡ string_bytes text.old
        ++ spec.kind_lines records.now spec.request_kinds) }
{
    push_kind(alloc, text, records, "meta")?;
    push_kind(alloc, text, records, "close")?;
    push_kind(alloc, text, records, "install")?;
    push_kind(alloc, text, records, "choice")?;
    push_kind(alloc, text, records, "listed")?;
    push_kind(alloc, text, records, "seal")?;
    push_kind(alloc, text, records, "forget")
}

/// Appends the lines of the kinds that are no longer written.
fn push_old_kinds(alloc: Global, text: &mut String, records: &[Record]) -> Result<(), OutOfMemory>
    ensures { OnOk result (string_bytes text.new ≡ string_bytes text.old
        ++ spec.kind_lines records.now spec.old_kinds) }
{
    push_kind(alloc, text, records, "oldupdate")?;
    push_kind(alloc, text, records, "oldstage")?;
    push_kind(alloc, text, records, "oldhead")?;
    push_kind(alloc, text, records, "oldinstall")?;
    push_kind(alloc, text, records, "oldchoice")
}

/// The report on records in a journal with this length, with this limit, and on the length of an area to which a compaction would move
/// them, all in bytes.
pub fn report(
    alloc: Global,
    records: &[Record],
    long: u64,
    limit: u64,
    compacted: u64,
) -> Result<String, OutOfMemory>
    ensures { IfOk result (λ text. string_bytes text ≡
        spec.report_lines records.now long limit compacted) }
{
    let mut text = String::new(alloc);
    push_line(alloc, &mut text, "boot", stored_boot(records))?;
    push_replica_kinds(alloc, &mut text, records)?;
    push_request_kinds(alloc, &mut text, records)?;
    push_old_kinds(alloc, &mut text, records)?;
    push_line(alloc, &mut text, "length", long)?;
    push_line(alloc, &mut text, "limit", limit)?;
    push_line(alloc, &mut text, "compacted", compacted)?;
    Ok(text)
}
