//! Commands by name and opcode (IHI 0069, section 5.3).
ghost use Rattle.std.specs.Prelude.{◌≡◌};
ghost use Rattle.its_command.specs.Opcodes as spec;
ghost use Rattle.its_command.specs.Commands.{op_of};

use crate::command::{Command, Op};

impl Command {
    /// Its name.
    pub fn op(&self) -> Op
        ensures { result ≡ op_of self.now }
    {
        match *self {
            Command::Movi { .. } => Op::Movi,
            Command::Int { .. } => Op::Int,
            Command::Clear { .. } => Op::Clear,
            Command::Sync { .. } => Op::Sync,
            Command::Mapd { .. } => Op::Mapd,
            Command::Mapc { .. } => Op::Mapc,
            Command::Mapti { .. } => Op::Mapti,
            Command::Mapi { .. } => Op::Mapi,
            Command::Inv { .. } => Op::Inv,
            Command::Invall { .. } => Op::Invall,
            Command::Movall { .. } => Op::Movall,
            Command::Discard { .. } => Op::Discard,
            Command::Unknown(opcode) => Op::Unknown(opcode.get()),
        }
    }
}

impl Op {
    /// Byte 0 of such a command.
    pub fn opcode(self) -> u8
        ensures { result ≡ spec.opcode self }
    {
        match self {
            Op::Movi => 0x01,
            Op::Int => 0x03,
            Op::Clear => 0x04,
            Op::Sync => 0x05,
            Op::Mapd => 0x08,
            Op::Mapc => 0x09,
            Op::Mapti => 0x0a,
            Op::Mapi => 0x0b,
            Op::Inv => 0x0c,
            Op::Invall => 0x0d,
            Op::Movall => 0x0e,
            Op::Discard => 0x0f,
            Op::Unknown(opcode) => opcode,
        }
    }
}
