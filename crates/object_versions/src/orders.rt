ghost use Rattle.std.specs.Prelude.{◌≡◌};
ghost use Rattle.xt_protocol.specs.Stamps.{is_epoch, is_earlier, is_stamp, is_below, is_version, comes_before};

use xt_base::{Epoch, Stamp};
use xt_messages::ObjectVersion;

/// Whether two epochs are one.
pub fn is_epoch(a: Epoch, b: Epoch) -> bool
    ensures { result ≡ is_epoch a b }
{
    a.number == b.number && a.node.0 == b.node.0
}

/// Whether the first epoch comes before the second: by number, then by node.
pub fn is_earlier(a: Epoch, b: Epoch) -> bool
    ensures { result ≡ is_earlier a b }
{
    a.number < b.number || a.number == b.number && a.node.0 < b.node.0
}

/// Whether two stamps are one.
pub fn is_stamp(a: Stamp, b: Stamp) -> bool
    ensures { result ≡ is_stamp a b }
{
    is_epoch(a.epoch, b.epoch) && a.count == b.count
}

/// Whether the first stamp is below the second: by epoch, then by count.
pub fn is_below(a: Stamp, b: Stamp) -> bool
    ensures { result ≡ is_below a b }
{
    is_earlier(a.epoch, b.epoch) || is_epoch(a.epoch, b.epoch) && a.count < b.count
}

/// Whether two are the same version of the same object.
pub fn is_version(a: ObjectVersion, b: ObjectVersion) -> bool
    ensures { result ≡ is_version a b }
{
    a.object == b.object && is_stamp(a.version, b.version)
}

/// Whether the first version comes before the second: by object, then by stamp.
pub fn comes_before(a: ObjectVersion, b: ObjectVersion) -> bool
    ensures { result ≡ comes_before a b }
{
    a.object < b.object || a.object == b.object && is_below(a.version, b.version)
}
