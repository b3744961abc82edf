use crate::done::Done;
use anyhow::{Result, bail};
use std::alloc::Global;
use volume_rows::{Asker, Picked};
use volume_tree::Tree;
use xt_base::{COUNTS, Members, Name, NodeId, OutOfMemory};
use xt_messages::{Kind, Location};

/// Who asks.
const ASKER: Asker = Asker { user: 1, group: 1 };

/// What is done with volumes, so many times.
#[derive(Clone, Copy)]
pub enum Errand {
    /// Asks what a file is.
    Stat,
    /// Makes a file and takes it out again.
    Create,
    /// Grants a file.
    Grant,
    /// Lists a page of the directory.
    List,
    /// Moves the directory with all its files to another name.
    Rename,
}

/// The errands by their names.
static ERRANDS: [(&str, Errand); 5] = [
    ("stat", Errand::Stat),
    ("create", Errand::Create),
    ("grant", Errand::Grant),
    ("list", Errand::List),
    ("rename", Errand::Rename),
];

impl Errand {
    /// The errand of this name.
    pub fn of(word: &str) -> Option<Errand> {
        for (name, errand) in &ERRANDS {
            if *name == word {
                return Some(*errand);
            }
        }
        None
    }

    /// Runs it once, on the directory `/v/d` with a file `0`; whether it was done.
    fn run(self, tree: &mut Tree, paths: &Paths) -> bool {
        match self {
            Errand::Stat => tree.stat(ASKER, &paths.file).is_ok(),
            Errand::Create => {
                create(tree, &paths.new, &paths.pick) && tree.unlink(ASKER, &paths.new).is_ok()
            }
            Errand::Grant => tree.grant(ASKER, &paths.file, 3).is_ok(),
            Errand::List => tree.page(ASKER, &paths.directory, &paths.none).is_ok(),
            Errand::Rename => {
                tree.rename(ASKER, &paths.directory, &paths.target).is_ok()
                    && tree.rename(ASKER, &paths.target, &paths.directory).is_ok()
            }
        }
    }
}

/// What the errands speak of.
#[derive(Drop)]
struct Paths {
    directory: Name,
    target: Name,
    file: Name,
    new: Name,
    none: Name,
    pick: Picked,
}

/// Makes a file; whether it was made.
fn create(tree: &mut Tree, path: &Name, pick: &Picked) -> bool {
    tree.next() < COUNTS && tree.create(ASKER, path, 0o644, pick).is_ok()
}

/// Where the files are.
fn place() -> Result<Picked> {
    let Ok(members) = Members::new(&[NodeId(1), NodeId(2), NodeId(3)]) else {
        bail!("no place for a file");
    };
    Ok(Picked::On {
        location: Location {
            version: 1,
            kind: Kind::Replicated,
            stripe: 4096,
            members,
        },
    })
}

/// The paths, with the place of the files.
fn paths_to(alloc: Global, pick: Picked) -> Result<Paths, OutOfMemory> {
    Ok(Paths {
        directory: Name::of(alloc, "/v/d")?,
        target: Name::of(alloc, "/v/e")?,
        file: Name::of(alloc, "/v/d/0")?,
        new: Name::of(alloc, "/v/d/new")?,
        none: Name::of(alloc, "")?,
        pick,
    })
}

/// The path of a file of the directory.
fn file_path(alloc: Global, number: u32) -> Result<Name> {
    let path = format!(in alloc; "/v/d/{number}")?;
    Ok(Name::of(alloc, path.as_str())?)
}

/// Makes a volume with a directory; whether both were made.
fn found(alloc: Global, tree: &mut Tree, directory: &Name) -> Result<bool, OutOfMemory> {
    let volume = Name::of(alloc, "/v")?;
    Ok(tree.mkdir(ASKER, &volume, 0o755).is_ok() && tree.mkdir(ASKER, directory, 0o755).is_ok())
}

/// Makes a volume with so many files in a directory.
fn fill(alloc: Global, tree: &mut Tree, paths: &Paths, files: u32) -> Result<()> {
    if !found(alloc, tree, &paths.directory)? {
        bail!("no directory is made");
    }
    for number in 0..files {
        if !create(tree, &file_path(alloc, number)?, &paths.pick) {
            bail!("no file {number} is made");
        }
    }
    Ok(())
}

/// Fills a tree, and runs an errand on it so many times.
fn run_on(
    alloc: Global,
    tree: &mut Tree,
    paths: &Paths,
    errand: Errand,
    files: u32,
    times: u32,
) -> Result<()> {
    fill(alloc, tree, paths, files)?;
    for round in 0..times {
        if !errand.run(tree, paths) {
            bail!("round {round} isn't done");
        }
    }
    Ok(())
}

/// Runs an errand so many times over a directory of so many files, and gives how many calls were done.
pub fn run_errands(alloc: Global, errand: Errand, files: u32, times: u32) -> Result<Done> {
    let paths = paths_to(alloc, place()?)?;
    let mut tree = Tree::new(alloc);
    let done = run_on(alloc, &mut tree, &paths, errand, files, times);
    // by calls, so that they are no part of the way out
    drop(tree);
    drop(paths);
    done?;
    Ok(Done {
        pieces: u64::from(times),
        bytes: 0,
    })
}
