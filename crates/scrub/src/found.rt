//! What a scrub finds of a body.

ghost use Rattle.std.specs.Prelude.{◌≡◌};
ghost use Rattle.scrub.specs.Report.{found_by};

use body_digests::BodyDigest;

/// What a scrub finds of a body.
#[derive(Clone, Copy)]
pub enum Found {
    /// No digest was kept of it. This is its digest.
    New(BodyDigest),
    /// Its digest is the one that was kept.
    Good,
    /// Its digest isn't the one that was kept.
    Damaged,
}

/// What is found of a body of which this digest was kept, or none, and which has this digest now.
pub(crate) fn found_by(seal: Option<BodyDigest>, digest: BodyDigest) -> Found
    ensures { result ≡ found_by seal digest }
{
    match seal {
        None => Found::New(digest),
        Some(seal) => {
            if digest.as_slice() == seal.as_slice() {
                Found::Good
            } else {
                Found::Damaged
            }
        }
    }
}
