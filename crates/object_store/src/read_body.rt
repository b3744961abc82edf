use replica_records::BodyKey;
use xt_base::Octets;

/// A body that was read.
#[derive(Drop)]
pub struct ReadBody {
    pub key: BodyKey,
    pub bytes: Octets,
}
