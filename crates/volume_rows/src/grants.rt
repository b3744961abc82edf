ghost use Rattle.std.specs.Prelude.{◌≡◌, ◌<◌, length, map};
ghost use Rattle.volume_rows.specs.Grants.{volume_id, volume_of};

use uuid::Uuid;
use xt_base::VolumeId;

/// The UUID of a volume: that of its name, by version 5, in the namespace of the nil UUID.
pub fn volume_id(name: &str) -> VolumeId
    ensures { result ≡ volume_id name.now }
{
    VolumeId(*Uuid::new_v5(&Uuid::nil(), name.as_bytes()).as_bytes())
}

/// The volume that a path is in.
pub fn volume_of(names: &[&str]) -> VolumeId
    requires { 0 < length names.now }
    ensures { result ≡ volume_of (map (λ name. name.now) names.now) }
{
    volume_id(names[0])
}
