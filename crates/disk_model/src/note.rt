/// A line of the record of calls. The pieces themselves lie after one another.
#[derive(Clone, Copy)]
pub enum Note {
    Wrote { at: usize, len: usize },
    Synced,
}
