/// What a piece of work made or read: messages or payloads, and the bytes of all.
#[derive(Clone, Copy)]
pub struct Done {
    pub pieces: u64,
    pub bytes: u64,
}
