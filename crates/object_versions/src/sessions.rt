ghost use Rattle.std.specs.Prelude.{◌≡◌, ◌≤◌, ◌<◌, IsTrue, map, length, vec_len, vec_capacity};
ghost use Rattle.xt_messages.specs.Limits.{rise};
ghost use Rattle.xt_protocol.specs.Heads.{session_of, with_session};
ghost use Rattle.object_versions.specs.Rising.{IsSessionPlace};

use xt_base::NodeId;
use xt_messages::Session;

/// Where a client's session stands, or else belongs, among sessions that rise by client.
fn session_place(sessions: &[Session], client: NodeId) -> Result<usize, usize>
    requires { IsTrue (rise (map (λ s. s.client.0) sessions.now)) }
    ensures { IsSessionPlace sessions.now client.0 result }
{
    let place = sessions.partition_point(|other| other.client.0 < client.0);
    if place == sessions.len() {
        return Err(place);
    }
    if sessions[place].client.0 != client.0 {
        return Err(place);
    }
    Ok(place)
}

/// A client's last write, none before its first. The sessions are searched by halves.
pub fn session_of(sessions: &[Session], client: NodeId) -> Option<Session>
    requires { IsTrue (rise (map (λ s. s.client.0) sessions.now)) }
    ensures { result ≡ session_of sessions.now client.0 }
{
    match session_place(sessions, client) {
        Ok(place) => Some(sessions[place]),
        Err(_) => None,
    }
}

/// How many sessions there are with this one.
pub fn sessions_with(sessions: &[Session], row: Session) -> usize
    requires { IsTrue (rise (map (λ s. s.client.0) sessions.now)) }
    ensures { result ≡ length (with_session sessions.now row) }
{
    match session_place(sessions, row.client) {
        Ok(_) => sessions.len(),
        Err(_) => sessions.len() + 1,
    }
}

/// Puts a client's session into its place. It takes no memory.
pub fn put_session(sessions: &mut Vec<Session>, row: Session)
    requires rising { IsTrue (rise (map (λ s. s.client.0) sessions.old.items)) }
    requires room { vec_len sessions.old < vec_capacity sessions.old }
    ensures { sessions.new.items ≡ with_session sessions.old.items row }
{
    match session_place(sessions.as_slice(), row.client) {
        Ok(place) => sessions[place] = row,
        Err(place) => sessions.insert(place, row).unwrap(),
    }
}
