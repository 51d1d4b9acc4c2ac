//! How a command ended that came to its end.

use crate::remark::Remark;
use crate::status::Status;

/// How a command ended that came to its end, and what is to be said of an input, if anything.
#[derive(Drop)]
pub struct Conclusion {
    pub status: Status,
    pub remark: Option<Remark>,
}
