ghost use Rattle.std.specs.Prelude.{◌≡◌};
ghost use Rattle.osd_files.specs.Sought.{begun_anew};

use peer_searches::Searches;

/// The searches for what peers lack begin again where the own replica has changed. It takes no memory.
pub fn begin_anew(searches: &mut Searches, changed: bool)
    ensures { searches.new ≡ begun_anew changed searches.old }
{
    if changed {
        searches.clear();
    }
}
