//! The rules that registers keep.
ghost use Rattle.std.specs.Prelude.{◌≡◌, ◌≤◌, ℕ, IfOk};
ghost use Rattle.gits_regs.specs.Registers.{Registers, IsSound, reset, write_reg, advanced};
ghost use Rattle.gits_regs.specs.Registers.{restored};
ghost use Rattle.gits_regs.specs.declared.values.RegValues.{RegValues};

/// The registers at reset keep the rules.
pub fn reset_is_sound()
    ensures { (dev_bits : ℕ) → 16 ≤ dev_bits → dev_bits ≤ 20 → IsSound (reset dev_bits) }
{}

/// Every write keeps them.
pub fn write_keeps_rules()
    ensures { (r : Registers) (off size value : ℕ) → IsSound r
        → IsSound (write_reg r off size value).regs }
{}

/// So does the queue's advance.
pub fn advance_keeps_rules()
    ensures { (r : Registers) → IsSound r → IsSound (advanced r) }
{}

/// Restored registers keep them.
pub fn restored_are_sound()
    ensures { (values : RegValues) (dev_bits : ℕ) → 16 ≤ dev_bits → dev_bits ≤ 20 →
        IfOk (restored values dev_bits) IsSound }
{}
