//! The fields that frames and records share, as bytes: nodes, files, leases and epochs; locations, capabilities,
//! operations, updates and heads; and requests.
//!
//! Each value within the limits of `xt_messages` has one spelling. What is written is that spelling, what is read is
//! the value whose spelling is there, and no second spelling is taken. The traits here give these fields to the
//! reader and the writer of basic fields; what each call promises stands at their `impl`s.
#![tactic(auto)]

mod file;
mod ids;
mod requests;
mod spelling;

pub use file::{ReadFiles, WriteFiles, clients_rise, is_at_most, objects_rise};
pub use ids::{ReadIds, WriteIds};
pub use requests::{ReadRequests, WriteRequests};
pub use spelling::each_has_one_spelling;
pub use xt_fields::{FieldErr, FieldReader, FieldWriter};
