use volume_rows::Asker;
use xt_base::NodeId;
use xt_messages::MetaReq;

/// What a request meets: the secret, of 1 to 64 bytes, the OSDs that there are, and the clock.
#[derive(Clone, Copy)]
pub struct Site<'a> {
    pub key: &'a [u8],
    pub osds: &'a [NodeId],
    pub clock: u64,
}

/// A request of a client, under its number.
#[derive(Clone, Copy)]
pub struct Asking<'a> {
    pub client: NodeId,
    pub number: u64,
    pub who: Asker,
    pub request: &'a MetaReq,
}
