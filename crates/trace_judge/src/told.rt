ghost use Rattle.std.specs.Prelude.{◌≡◌, option_map};
ghost use Rattle.time_line.specs.TimeLine.{claim_on};
ghost use Rattle.judging.specs.Pass.{answer_on, ok_told};
ghost use Rattle.trace_judge.specs.Views.{claim_of, answer_of};

use time_line::Entry;
use xt_base::OpId;
use xt_messages::Outcome;

/// What a node says of a write's position: how many writes the file has with it, and its id.
#[derive(Clone, Copy)]
pub struct Claim {
    pub count: u64,
    pub id: OpId,
}

/// What a call was given: a count and bytes.
#[derive(Clone, Copy)]
pub struct Answer<'a> {
    pub id: OpId,
    pub count: u64,
    pub bytes: &'a [u8],
}

/// The claim on the file by an entry.
pub fn claim_on(file: u64, e: &Entry) -> Option<Claim>
    ensures { option_map claim_of result ≡ claim_on file e.now }
{
    match e {
        Entry::Active {
            node: _,
            file: f,
            count,
            id,
        } if *f == file => Some(Claim {
            count: *count,
            id: *id,
        }),
        Entry::Commit {
            node: _,
            file: f,
            count,
            id,
        } if *f == file => Some(Claim {
            count: *count,
            id: *id,
        }),
        _ => None,
    }
}

/// The answer on the file by an entry.
pub fn answer_on<'a>(file: u64, e: &'a Entry) -> Option<Answer<'a>>
    ensures { option_map answer_of result ≡ answer_on file e.now }
{
    match e {
        Entry::Answer {
            node: _,
            file: f,
            id,
            count,
            bytes,
        } if *f == file => Some(Answer {
            id: *id,
            count: *count,
            bytes: bytes.as_slice(),
        }),
        _ => None,
    }
}

/// What the call that ends well by an entry was given.
pub fn ok_told<'a>(e: &'a Entry) -> Option<Answer<'a>>
    ensures { option_map answer_of result ≡ ok_told e.now }
{
    match e {
        Entry::Done {
            client,
            number,
            outcome: Outcome::Ok { count, bytes },
        } => Some(Answer {
            id: OpId {
                client: *client,
                number: *number,
            },
            count: *count,
            bytes: bytes.as_slice(),
        }),
        _ => None,
    }
}
