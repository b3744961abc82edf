ghost use Rattle.std.specs.Prelude.{◌≡◌, ◌<◌, ◌^◌, ◌-◌};
ghost use Rattle.make_job.specs.Counting.{counts_of, with_entry};

use time_line::Entry;
use xt_messages::Call;

/// How many entries of a trace are of each kind that a make counts.
#[derive(Clone, Copy)]
pub struct Counts {
    /// Calls that began, to write.
    pub writes: u64,
    /// Calls that began, to read.
    pub reads: u64,
    /// Writes that a majority has.
    pub commits: u64,
}

impl Counts {
    /// Counts the entries of a trace.
    pub fn of(entries: &[Entry]) -> Counts
        ensures { result ≡ counts_of entries.now }
    {
        let mut counts = Counts {
            writes: 0,
            reads: 0,
            commits: 0,
        };
        for entry in entries {
            counts.note(entry);
        }
        counts
    }

    /// Counts one entry more.
    fn note(&mut self, entry: &Entry)
        requires writes { self.old.writes < 2 ^ 64 - 1 }
        requires reads { self.old.reads < 2 ^ 64 - 1 }
        requires commits { self.old.commits < 2 ^ 64 - 1 }
        ensures { self.new ≡ with_entry self.old entry.now }
    {
        match entry {
            Entry::Begin {
                call: Call::Write { .. },
                ..
            } => self.writes += 1,
            Entry::Begin {
                call: Call::Read { .. },
                ..
            } => self.reads += 1,
            Entry::Commit { .. } => self.commits += 1,
            _ => {}
        }
    }
}
