//! What commands write.
ghost use Rattle.std.specs.Prelude.{◌≡◌, ◌<◌, ◌++◌, ◌∷◌, [], IfOk, OnOk};
ghost use Rattle.std.specs.BTreeMap.{values};
ghost use Rattle.std.specs.Fmt.{decimal};
ghost use Rattle.std.specs.List.{flat_map};
ghost use Rattle.client_plans.specs.Plans.{hex_digit, hex_pair, hex_text, shown_as, line_end, row_word, row_mark, mode_word, row_line, spaced_nodes, changing_word, replicas_line, lines_of, node_line, node_lines, nodes_text};

use std::alloc::Global;
use std::collections::BTreeMap;
use xt_base::{Name, NodeId, Octets, OutOfMemory, SizeMark};
use xt_messages::{Location, RegistryRow, RowKind};

/// The lower-case hex digit of a number below 16.
fn hex_digit(number: u8) -> u8
    requires { number < 16 }
    ensures { result ≡ hex_digit number }
{
    if number < 10 {
        b'0' + number
    } else {
        b'a' - 10 + number
    }
}

/// Appends a byte's two hex digits.
fn push_byte(out: &mut Vec<u8>, byte: u8) -> Result<(), OutOfMemory>
    ensures { OnOk result (out.new.items ≡ out.old.items ++ hex_pair byte) }
{
    out.push(hex_digit(byte / 16))?;
    out.push(hex_digit(byte % 16))?;
    Ok(())
}

/// Bytes in lower-case hex, two digits each.
fn hex_text(alloc: Global, bytes: &[u8]) -> Result<Vec<u8>, OutOfMemory>
    ensures { IfOk result (λ text. text.items ≡ hex_text bytes.now) }
{
    let mut text = Vec::new(alloc);
    text.reserve(bytes.len().saturating_mul(2).saturating_add(1))?;
    for byte in bytes {
        push_byte(&mut text, *byte)?;
    }
    Ok(text)
}

/// Bytes as they are, or in hex.
pub fn shown_as(alloc: Global, hex: bool, bytes: &[u8]) -> Result<Vec<u8>, OutOfMemory>
    ensures { IfOk result (λ text. text.items ≡ shown_as hex bytes.now) }
{
    if hex {
        hex_text(alloc, bytes)
    } else {
        Vec::from_slice(alloc, bytes)
    }
}

/// Appends the line end of what is shown in hex.
pub fn push_line_end(text: &mut Vec<u8>, hex: bool) -> Result<(), OutOfMemory>
    ensures { OnOk result (text.new.items ≡ text.old.items ++ line_end hex) }
{
    if hex {
        text.push(b'\n')?;
    }
    Ok(())
}

/// Appends bytes.
fn push_bytes(out: &mut Vec<u8>, bytes: &[u8]) -> Result<(), OutOfMemory>
    ensures { OnOk result (out.new.items ≡ out.old.items ++ bytes.now) }
{
    out.extend_from_slice(bytes)?;
    Ok(())
}

/// Appends a number in decimal.
fn push_number(alloc: Global, out: &mut Vec<u8>, number: u64) -> Result<(), OutOfMemory>
    ensures { OnOk result (out.new.items ≡ out.old.items ++ decimal number) }
{
    let digits = format!(in alloc; "{number}")?;
    push_bytes(out, digits.as_str().as_bytes())
}

/// Appends a space and a number in decimal.
fn push_spaced(alloc: Global, out: &mut Vec<u8>, number: u64) -> Result<(), OutOfMemory>
    ensures { OnOk result (out.new.items ≡ out.old.items ++ 32 ∷ decimal number) }
{
    out.push(b' ')?;
    push_number(alloc, out, number)
}

/// Appends a space and the three octal digits of a mode.
fn push_mode(out: &mut Vec<u8>, mode: u16) -> Result<(), OutOfMemory>
    ensures { OnOk result (out.new.items ≡ out.old.items ++ 32 ∷ mode_word mode) }
{
    push_bytes(
        out,
        &[
            b' ',
            b'0' + (mode / 64 % 8) as u8,
            b'0' + (mode / 8 % 8) as u8,
            b'0' + (mode % 8) as u8,
        ],
    )
}

/// The word for a kind of row: `dir` or `file`.
fn row_word(kind: RowKind) -> &'static [u8]
    ensures { result.now ≡ row_word kind }
{
    match kind {
        RowKind::Directory => b"dir",
        RowKind::File => b"file",
    }
}

/// The mark that is shown: a directory has no size.
fn row_mark(kind: RowKind, mark: SizeMark) -> SizeMark
    ensures { result ≡ row_mark kind mark }
{
    match kind {
        RowKind::Directory => SizeMark { epoch: 0, size: 0 },
        RowKind::File => mark,
    }
}

/// The line that shows a row: its kind, owner, group, mode in octal, epoch and size in bytes.
pub fn row_line(
    alloc: Global,
    kind: RowKind,
    owner: u32,
    group: u32,
    mode: u16,
    mark: SizeMark,
) -> Result<Octets, OutOfMemory>
    ensures { IfOk result (λ line.
        line ≡ row_line kind owner group mode (row_mark kind mark)) }
{
    let mark = row_mark(kind, mark);
    let mut line = Vec::from_slice(alloc, row_word(kind))?;
    push_spaced(alloc, &mut line, u64::from(owner))?;
    push_spaced(alloc, &mut line, u64::from(group))?;
    push_mode(&mut line, mode)?;
    push_spaced(alloc, &mut line, mark.epoch)?;
    push_spaced(alloc, &mut line, mark.size)?;
    line.push(b'\n')?;
    Octets::from_vec(line)
}

/// Appends the numbers of nodes, a space before each.
fn push_nodes(alloc: Global, out: &mut Vec<u8>, nodes: &[NodeId]) -> Result<(), OutOfMemory>
    ensures { OnOk result (out.new.items ≡ out.old.items ++ spaced_nodes nodes.now) }
{
    for node in nodes {
        push_spaced(alloc, out, u64::from(node.0))?;
    }
    Ok(())
}

/// The word for a list that is being changed.
fn changing_word(changing: bool) -> &'static [u8]
    ensures { result.now ≡ changing_word changing }
{
    if changing { b" changing" } else { b"" }
}

/// The line that shows a file's list: its version, its nodes, and ` changing` while it is being changed.
pub fn replicas_line(
    alloc: Global,
    location: &Location,
    changing: bool,
) -> Result<Octets, OutOfMemory>
    ensures { IfOk result (λ line. line ≡ replicas_line location.now changing) }
{
    let mut line = Vec::new(alloc);
    push_number(alloc, &mut line, u64::from(location.version))?;
    push_nodes(alloc, &mut line, location.members.as_slice())?;
    push_bytes(&mut line, changing_word(changing))?;
    line.push(b'\n')?;
    Octets::from_vec(line)
}

/// A line with a number in decimal.
pub fn number_line(alloc: Global, number: u64) -> Result<Octets, OutOfMemory>
    ensures { IfOk result (λ line. line ≡ decimal number ++ 10 ∷ []) }
{
    let mut line = Vec::new(alloc);
    push_number(alloc, &mut line, number)?;
    line.push(b'\n')?;
    Octets::from_vec(line)
}

/// Appends a name and a line end.
fn push_name(out: &mut Vec<u8>, name: &Name) -> Result<(), OutOfMemory>
    ensures { OnOk result (out.new.items ≡ out.old.items ++ name.now ++ 10 ∷ []) }
{
    push_bytes(out, name.as_str().as_bytes())?;
    out.push(b'\n')?;
    Ok(())
}

/// One line for each name.
pub fn lines_of(alloc: Global, names: &[Name]) -> Result<Octets, OutOfMemory>
    ensures { IfOk result (λ text. text ≡ lines_of names.now) }
{
    let mut text = Vec::new(alloc);
    for name in names {
        push_name(&mut text, name)?;
    }
    Octets::from_vec(text)
}

/// The line for a row of the registry: its node, kind, address and version.
fn node_line(alloc: Global, row: &RegistryRow) -> Result<Octets, OutOfMemory>
    ensures { IfOk result (λ line. line ≡ node_line row.now) }
{
    let mut line = Vec::new(alloc);
    push_number(alloc, &mut line, u64::from(row.node.0))?;
    push_spaced(alloc, &mut line, u64::from(row.kind))?;
    line.push(b' ')?;
    push_bytes(&mut line, row.address.as_str().as_bytes())?;
    push_spaced(alloc, &mut line, row.version)?;
    line.push(b'\n')?;
    Octets::from_vec(line)
}

/// The lines of rows by their nodes.
fn node_lines(alloc: Global, rows: &[RegistryRow]) -> Result<BTreeMap<u32, Octets>, OutOfMemory>
    ensures { IfOk result (λ lines. lines.entries ≡ node_lines rows.now) }
{
    let mut lines = BTreeMap::new(alloc);
    for row in rows {
        lines.insert(row.node.0, node_line(alloc, row)?)?;
    }
    Ok(lines)
}

/// These lines, one after the other.
fn text_of(alloc: Global, lines: &BTreeMap<u32, Octets>) -> Result<Octets, OutOfMemory>
    ensures { IfOk result (λ text. text ≡ flat_map (λ line. line) (values lines.now)) }
{
    let mut text = Vec::new(alloc);
    for line in lines.values() {
        push_bytes(&mut text, line.as_slice())?;
    }
    Octets::from_vec(text)
}

/// One line for each node in these rows, rising.
pub fn nodes_text(alloc: Global, rows: &[RegistryRow]) -> Result<Octets, OutOfMemory>
    ensures { IfOk result (λ text. text ≡ nodes_text rows.now) }
{
    let lines = node_lines(alloc, rows)?;
    text_of(alloc, &lines)
}
