/// Bytes that are on a disk: the place of the first, and how many they are.
#[derive(Clone, Copy)]
pub struct Extent {
    pub at: u64,
    pub len: usize,
}
