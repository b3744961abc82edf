ghost use Rattle.std.specs.Prelude.{◌≡◌};
ghost use Rattle.xt_frames.specs.Decoding.{fault_of};

use thiserror::Error;
use xt_fields::FieldErr;

/// Why bytes don't begin with a frame. Where several hold, the first one in the order of the tests is given.
#[derive(Clone, Copy, Debug, Error)]
pub enum FrameErr {
    #[error("the frame is cut off")]
    Truncated,
    #[error("the frame is too long")]
    TooLong,
    #[error("the frame has another version")]
    Version,
    #[error("the frame has no known kind")]
    Kind,
    #[error("the frame has a field that isn't one")]
    Field,
    #[error("no memory was left")]
    OutOfMemory,
}

impl From<FieldErr> for FrameErr {
    ghost from_gives = { λ e made. made ≡ fault_of e };

    fn from(error: FieldErr) -> FrameErr {
        match error {
            FieldErr::OutOfMemory => FrameErr::OutOfMemory,
            FieldErr::Short | FieldErr::Over | FieldErr::NotText | FieldErr::Unfit =>
                FrameErr::Field,
        }
    }
}
