ghost use Rattle.std.specs.Prelude.{◌≡◌, IfOk};

use crate::file::{Capability, Kind, Location};
use crate::reply::Denial;
use std::alloc::Global;
use xt_base::{Copies, Members, Name, NodeId, OutOfMemory, Seq, SizeMark};

/// A request to the MRC.
pub enum MetaReq {
    Mkdir {
        path: Name,
        mode: u16,
    },
    /// A file of `n` replicas, or striped over `n` OSDs.
    Create {
        path: Name,
        mode: u16,
        kind: Kind,
        n: u8,
        stripe: u32,
    },
    Rename {
        from: Name,
        to: Name,
    },
    Unlink {
        path: Name,
    },
    Rmdir {
        path: Name,
    },
    /// The names after `after`, in order of bytes.
    List {
        path: Name,
        after: Name,
    },
    Stat {
        path: Name,
    },
    Chmod {
        path: Name,
        mode: u16,
    },
    /// A capability; `want` is 1 to read, 2 to write, 3 to truncate.
    Grant {
        path: Name,
        want: u8,
    },
    /// A size that a client learnt.
    Report {
        capability: Capability,
        mark: SizeMark,
    },
    /// A new list of members for a replicated file.
    Change {
        path: Name,
        nodes: Members,
    },
    /// Where a file is, and whether its list is being changed.
    Locate {
        path: Name,
    },
}

/// Copies of two names.
fn both(alloc: Global, first: &Name, second: &Name) -> Result<(Name, Name), OutOfMemory>
    ensures { IfOk result (λ made. (made.0 ≡ first.now) × (made.1 ≡ second.now)) }
{
    let first = first.copy(alloc)?;
    let second = second.copy(alloc)?;
    Ok((first, second))
}

impl Copies for MetaReq {
    fn copy(&self, alloc: Global) -> Result<MetaReq, OutOfMemory> {
        Ok(match self {
            MetaReq::Mkdir { path, mode } => MetaReq::Mkdir {
                path: path.copy(alloc)?,
                mode: *mode,
            },
            MetaReq::Create {
                path,
                mode,
                kind,
                n,
                stripe,
            } => MetaReq::Create {
                path: path.copy(alloc)?,
                mode: *mode,
                kind: *kind,
                n: *n,
                stripe: *stripe,
            },
            MetaReq::Rename { from, to } => {
                let (from, to) = both(alloc, from, to)?;
                MetaReq::Rename { from, to }
            }
            MetaReq::Unlink { path } => MetaReq::Unlink {
                path: path.copy(alloc)?,
            },
            MetaReq::Rmdir { path } => MetaReq::Rmdir {
                path: path.copy(alloc)?,
            },
            MetaReq::List { path, after } => {
                let (path, after) = both(alloc, path, after)?;
                MetaReq::List { path, after }
            }
            MetaReq::Stat { path } => MetaReq::Stat {
                path: path.copy(alloc)?,
            },
            MetaReq::Chmod { path, mode } => MetaReq::Chmod {
                path: path.copy(alloc)?,
                mode: *mode,
            },
            MetaReq::Grant { path, want } => MetaReq::Grant {
                path: path.copy(alloc)?,
                want: *want,
            },
            MetaReq::Report { capability, mark } => MetaReq::Report {
                capability: *capability,
                mark: *mark,
            },
            MetaReq::Change { path, nodes } => MetaReq::Change {
                path: path.copy(alloc)?,
                nodes: *nodes,
            },
            MetaReq::Locate { path } => MetaReq::Locate {
                path: path.copy(alloc)?,
            },
        })
    }
}

/// Why the MRC refuses a request.
#[derive(Clone, Copy)]
pub enum MetaRefusal {
    NotFound,
    Exists,
    NotDir,
    IsDir,
    NotEmpty,
    IntoSelf,
    OtherVolume,
    /// 1 to search, 2 to write, 3 to read, 4 not the owner.
    Forbidden { rule: u8 },
    NameBad,
    /// So many OSDs are there, fewer than the file asks for.
    TooFew { have: u8 },
    Denied { rule: Denial },
    /// The list of this file is being changed to this version.
    Changing { version: u32 },
    NotReplicated,
    /// The first node of the list that isn't among the MRC's OSDs.
    UnknownOsd { node: NodeId },
}

/// What a row of a volume is.
#[derive(Clone, Copy)]
pub enum RowKind {
    Directory,
    File,
}

/// Names, rising in order of bytes.
pub type Names = Seq<Name>;

/// What the MRC answers.
pub enum MetaAnswer {
    Done,
    Refused {
        refusal: MetaRefusal,
    },
    Names {
        names: Names,
    },
    Row {
        kind: RowKind,
        owner: u32,
        group: u32,
        mode: u16,
        mark: SizeMark,
    },
    Granted {
        capability: Capability,
        mark: SizeMark,
    },
    Located {
        location: Location,
        /// Whether the list is being changed.
        changing: bool,
    },
}

impl Copies for MetaAnswer {
    fn copy(&self, alloc: Global) -> Result<MetaAnswer, OutOfMemory> {
        match self {
            MetaAnswer::Done => Ok(MetaAnswer::Done),
            MetaAnswer::Refused { refusal } => Ok(MetaAnswer::Refused { refusal: *refusal }),
            MetaAnswer::Names { names } => Ok(MetaAnswer::Names {
                names: names.copy(alloc)?,
            }),
            MetaAnswer::Row {
                kind,
                owner,
                group,
                mode,
                mark,
            } => Ok(MetaAnswer::Row {
                kind: *kind,
                owner: *owner,
                group: *group,
                mode: *mode,
                mark: *mark,
            }),
            MetaAnswer::Granted { capability, mark } => Ok(MetaAnswer::Granted {
                capability: *capability,
                mark: *mark,
            }),
            MetaAnswer::Located { location, changing } => Ok(MetaAnswer::Located {
                location: *location,
                changing: *changing,
            }),
        }
    }
}

// A derived drop is part of the code of each function that may drop a value, and proved there. These are proved once.

impl Drop for MetaReq {
    fn drop(self) {
        match self {
            MetaReq::Mkdir { path: _, mode: _ } => {}
            MetaReq::Create {
                path: _,
                mode: _,
                kind: _,
                n: _,
                stripe: _,
            } => {}
            MetaReq::Rename { from: _, to: _ } => {}
            MetaReq::Unlink { path: _ } => {}
            MetaReq::Rmdir { path: _ } => {}
            MetaReq::List { path: _, after: _ } => {}
            MetaReq::Stat { path: _ } => {}
            MetaReq::Chmod { path: _, mode: _ } => {}
            MetaReq::Grant { path: _, want: _ } => {}
            MetaReq::Report {
                capability: _,
                mark: _,
            } => {}
            MetaReq::Change { path: _, nodes: _ } => {}
            MetaReq::Locate { path: _ } => {}
        }
    }
}

impl Drop for MetaAnswer {
    fn drop(self) {
        match self {
            MetaAnswer::Done => {}
            MetaAnswer::Refused { refusal: _ } => {}
            MetaAnswer::Names { names: _ } => {}
            MetaAnswer::Row {
                kind: _,
                owner: _,
                group: _,
                mode: _,
                mark: _,
            } => {}
            MetaAnswer::Granted {
                capability: _,
                mark: _,
            } => {}
            MetaAnswer::Located {
                location: _,
                changing: _,
            } => {}
        }
    }
}
