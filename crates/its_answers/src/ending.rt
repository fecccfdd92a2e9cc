//! How a run or a check ended.
use crate::status::Status;

/// How it ended: its status, and the line after the report, which is a refusal's or has no bytes.
#[derive(Drop)]
pub struct Ending {
    /// What the command ends with.
    pub status: Status,
    /// With its line feed, or without a byte.
    pub line: String,
}
