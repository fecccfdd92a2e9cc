//! The exchange of the word that makes a call.
use crate::change::ShardChange;
use its_plain::{Call, Reply};
use its_types::Word;

/// One exchange of the word, which makes a call with its reply.
#[derive(Clone, Copy, Debug, PartialEq, Eq)]
pub struct Commit {
    /// The word that is to be there. The one that the commit leaves has the next place.
    pub expected: Word,
    /// The stamp of the word that it leaves.
    pub stamp: u32,
    /// What the pass asks.
    pub call: Call,
    /// What it is answered.
    pub reply: Reply,
    /// What becomes of the shards that the pass holds.
    pub change: ShardChange,
}
