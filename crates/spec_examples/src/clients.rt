//! A client's calls.
ghost use Rattle.spec_examples.specs.ClientScenes.{Shows, last_number};
ghost use Rattle.spec_examples.specs.ReplicatedScenes as replicated;
ghost use Rattle.spec_examples.specs.StripedScenes as striped;
ghost use Rattle.spec_examples.specs.ServerScenes as servers;

/// What is seen of calls on a replicated file as members are silent, turn them away, send them on, answer and refuse.
pub fn calls_on_a_replicated_file_end()
    ensures silent { Shows 1 replicated.silent }
    ensures again { Shows 1 replicated.silent_again }
    ensures away { Shows 1 replicated.turned_away }
    ensures on { Shows 1 replicated.sent_on }
    ensures refused { Shows 1 replicated.refused }
    ensures aimed { Shows 1 replicated.aimed }
    ensures last { Shows last_number replicated.last }
{}

/// What is seen of calls on a striped file, which go to the owner of the object, and a truncation to each member.
pub fn calls_on_a_striped_file_end()
    ensures cut { Shows 1 striped.cut }
    ensures away { Shows 1 striped.away }
    ensures refused { Shows 1 striped.refused }
    ensures truncated { Shows 1 striped.truncated }
{}

/// What is seen of calls to the two servers; a capability that is granted is held, and the greatest size is reported.
pub fn calls_to_the_servers_end()
    ensures meta { Shows 1 servers.meta }
    ensures granted { Shows 1 servers.granted_file }
    ensures registry { Shows 1 servers.registry }
    ensures last { Shows last_number servers.last }
{}
