//! What the servers answer and record.
ghost use Rattle.std.specs.Prelude.{◌≡◌, codes, map};
ghost use Rattle.std.specs.List.{flat_map};
ghost use Rattle.xt_messages.specs.declared.event.Event.TheVariants.{Wake};
ghost use Rattle.volume_rows.specs.Grants.{volume_id};
ghost use Rattle.server_rows.specs.Metadata.{step_of_mrc};
ghost use Rattle.server_rows.specs.Examples.{key, new_server};
ghost use Rattle.spec_examples.specs.Served.{comings, fates, files, made_after, numbers, places, seen_in, steps_from, volume, wanted_of};
ghost use Rattle.server_rows.specs.Directory.{empty_dir};
ghost use Rattle.spec_examples.specs.Requests as requests;
ghost use Rattle.spec_examples.specs.Registry as registry;

/// Requests to a metadata server get their answers, and what may change something is recorded. At a Wake the server asks for
/// the OSDs.
pub fn requests_are_answered()
    ensures answers { requests.seen (steps_from new_server (comings requests.rows)) ≡
        (map wanted_of requests.rows, requests.places) }
    ensures wake { step_of_mrc key new_server 0 Wake ≡ requests.awake }
{}

/// A request under a client's last recorded number gets the same answer, one under a lower number none.
#[tactic(auto, unfolding(server_rows::specs::Metadata::step_of_mrc))]
pub fn numbers_are_kept()
    ensures { map seen_in (steps_from new_server (comings numbers)) ≡ map wanted_of numbers }
{}

/// The OSDs of a new file are picked by its number, and the files that were ever made are known.
#[tactic(auto, unfolding(server_rows::specs::Metadata::step_of_mrc, crate::specs::Served::digests))]
pub fn files_are_made()
    ensures answers { map seen_in (steps_from new_server (comings files)) ≡ map wanted_of files }
    ensures places { flat_map (λ step. step.turned.marks) (steps_from new_server (comings files)) ≡
        places }
    ensures fates { map (λ row. made_after row.0) fates ≡ map (λ row. row.1) fates }
{}

/// A volume is the UUID of its name.
#[tactic(auto, unfolding(crate::specs::Served::digests))]
pub fn volumes_have_uuids()
    ensures { volume_id (codes "v") ≡ volume }
{}

/// Requests to a directory service get their answers, and what may change the registry is recorded.
#[tactic(auto, unfolding(server_rows::specs::Directory::step_of_dir))]
pub fn registrations_are_answered()
    ensures { map registry.seen_in (registry.steps_from empty_dir registry.rows) ≡
        map registry.wanted_of registry.rows }
{}
