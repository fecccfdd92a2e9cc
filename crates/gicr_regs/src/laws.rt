//! Laws of the registers.
ghost use Rattle.gicr_regs.specs.Registers.{WritesKeepBits, RestoresKeepBits, ValuesComeBack};
ghost use Rattle.gicr_regs.specs.Registers.{WritesSplit, WritesLookAway};

/// A write leaves kept bits alone.
pub fn writes_keep_bits()
    ensures { WritesKeepBits }
{}

/// A write that turns LPIs neither on nor off changes nothing of what is pending.
pub fn writes_split()
    ensures { WritesSplit }
{}

/// One that reads no table does the same whatever memory has.
pub fn writes_look_away()
    ensures { WritesLookAway }
{}

/// So do values that are restored.
pub fn restores_keep_bits()
    ensures { RestoresKeepBits }
{}

/// Registers come back from the values that a restore takes.
pub fn values_come_back()
    ensures { ValuesComeBack }
{}
