ghost use Rattle.std.specs.Prelude.{◌≡◌, IfOk, map};
ghost use Rattle.std.specs.List.{list_all};
ghost use Rattle.std.specs.Option.{option_map};
ghost use Rattle.volume_rows.specs.Paths.{is_name, parts_of, path_in};

use std::alloc::Global;
use xt_base::OutOfMemory;

/// The most names of a path.
const DEEPEST: usize = 16;

/// The longest name, in bytes.
const LONGEST: usize = 255;

/// Whether a part of a path is a name.
fn is_name(part: &str) -> bool
    ensures { result ≡ is_name part.now }
{
    1 <= part.len()
        && part.len() <= LONGEST
        && !part.as_bytes().contains(&0)
        && part != "."
        && part != ".."
}

/// Whether all parts are names.
fn are_names(parts: &[&str]) -> bool
    ensures { result ≡ list_all is_name (map (λ part. part.now) parts.now) }
{
    let Some((first, rest)) = parts.split_first() else {
        return true;
    };
    if is_name(first) {
        are_names(rest)
    } else {
        false
    }
}

/// The parts of a text between slashes.
fn parts_of<'a>(alloc: Global, text: &'a str) -> Result<Vec<&'a str>, OutOfMemory>
    ensures { IfOk result (λ parts. map (λ part. part.now) parts.items ≡ parts_of text.now) }
{
    let mut parts = Vec::new(alloc);
    let mut rest = text;
    while let Some((part, later)) = rest.split_once('/') {
        parts.push(part)?;
        rest = later;
    }
    parts.push(rest)?;
    Ok(parts)
}

/// The names of the path that a text spells, if it spells one.
pub fn path_in<'a>(alloc: Global, text: &'a str) -> Result<Option<Vec<&'a str>>, OutOfMemory>
    ensures { IfOk result (λ path. option_map (λ names. map (λ name. name.now) names.items) path ≡
        path_in text.now) }
{
    let Some(rest) = text.strip_prefix('/') else {
        return Ok(None);
    };
    if rest.is_empty() {
        return Ok(Some(Vec::new(alloc)));
    }
    let parts = parts_of(alloc, rest)?;
    if parts.len() <= DEEPEST && are_names(parts.as_slice()) {
        Ok(Some(parts))
    } else {
        Ok(None)
    }
}
