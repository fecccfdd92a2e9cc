//! The commands of a translator's queue, and the 32 bytes that each is (IHI 0069, section 5.3).
#![tactic(auto)]

mod command;
mod decoding;
mod encoding;
mod fields;
mod laws;
mod name;

pub use command::{Command, Op};
pub use decoding::decode;
pub use encoding::encode;
pub use fields::{EventIdBits, IttAddr, RdBase, UnknownOp};
pub use laws::{decodes_back, is_one_command};
