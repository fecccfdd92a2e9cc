//! The states that machines begin with.
ghost use Rattle.plain_soundness.specs.Laws as laws;

/// The first state of every machine is sound.
pub fn machines_start_sound()
    ensures { laws.MachinesStartSound }
{}

/// So is the state that a migration goes on from.
pub fn migrations_keep_soundness()
    ensures { laws.MigrationsKeepSound }
{}

/// Where KVM saved what is restored, an LPI stays pending just where an event leads it.
pub fn stale_bits_go()
    ensures { laws.StaleBitsGo }
{}

/// A state from which pending bits go that no event leads to is as sound as before.
pub fn stale_bits_go_soundly()
    ensures { laws.StaleBitsGoSound }
{}
