//! How the steps of an OSD show in the lease of each of its files, where lists change: what `lease_runs` shows of the rows of one list, of
//! the steps on messages of any list, and of each version of a list.
//!
//! On the list that is stored the lease follows as before, or it is let go as the file is closed. A node that hasn't come to a version is
//! seen there with a new acceptor, and has left a version for good once its list is a later one.
#![tactic(auto)]

ghost use Rattle.std.specs.List.{AllByRecursion};
ghost use Rattle.std.specs.Prelude.{ℕ};
ghost use Rattle.xt_base.specs.declared.ids.NodeId.{NodeId};
ghost use Rattle.xt_messages.specs.declared.message.Payload.{Payload};
ghost use Rattle.xt_protocol.specs.FileStates.{FileState, Site};
ghost use Rattle.list_rows.specs.ListRows.{list_version, step_of_message};
ghost use Rattle.list_laws.specs.Versions.{CarriesVersion};
ghost use Rattle.listed_leases.specs.LeaseView.{ShowsLeases};
ghost use Rattle.listed_leases.specs.VersionView.{ShowsVersions};
ghost use Rattle.listed_leases.specs.OsdView.{OsdShowsLeases};
ghost use Rattle.listed_leases.specs.OutsView.{SendsByFile};
ghost use Rattle.listed_leases.specs.ActsView.{ClosedStayFree, ShowsActs};

/// The steps of a file show in its lease on the list that is stored.
pub fn leases_are_shown()
    ensures { ShowsLeases }
{}

/// They show in its lease on each version of the list.
pub fn versions_are_shown()
    ensures { ShowsVersions }
{}

/// The steps of an OSD show in the lease of each file: a message in that of the file that it concerns, a Wake in each.
pub fn leases_are_shown_by_file()
    ensures { OsdShowsLeases }
{}

/// What a step of a file sends about leases is about the lease of that file.
pub fn leases_are_sent_by_file()
    ensures { SendsByFile }
{}

/// What a step on a message sends of the rows of one list carries the version of the list before it.
pub fn steps_carry_the_version()
    ensures { (site : Site) (s : FileState) (from : NodeId) (list : ℕ) (content : Payload) →
        AllByRecursion (CarriesVersion (list_version s.kept.location))
        (step_of_message site s from list content).turned.outs }
{}

/// A step of a file marks that a lease was won, or acts of its primary, and these only where the lease is held; its record is one of the rows
/// that it may be. A Wake marks and records nothing.
pub fn acts_are_shown()
    ensures { ShowsActs }
{}

/// A file that is closed at the version of its list has no round and no lease.
pub fn closed_files_stay_free()
    ensures { ClosedStayFree }
{}
