//! An encoding and its command are one and the same.
ghost use Rattle.its_command.specs.Commands.{DecodesBack, IsOneCommand};

/// Decoding an encoding gives the command back.
#[tactic(auto, using(crate::proofs::Encoded::decodes_back))]
pub fn decodes_back()
    ensures { DecodesBack }
{}

/// Bytes are no two commands: which they are is the one that they decode to.
#[tactic(auto, using(crate::proofs::Meaning::one_command))]
pub fn is_one_command()
    ensures { IsOneCommand }
{}
