//! Every state of the plain machine that calls and migrations reach is sound.
#![tactic(auto)]

mod calls;
mod commands;
mod start;

pub use calls::{
    best_keeps_soundness, calls_keep_soundness, claim_keeps_soundness, copy_keeps_soundness,
    dma_keeps_soundness, gicr_read_keeps_soundness, gicr_write_keeps_soundness,
    histories_keep_soundness, peek_keeps_soundness, poke_keeps_soundness,
    register_read_keeps_soundness, register_write_keeps_soundness, save_keeps_soundness,
    show_keeps_soundness, signal_keeps_soundness, step_keeps_soundness, take_keeps_soundness,
};
pub use commands::{
    clear_keeps_soundness, commands_keep_soundness, discard_keeps_soundness, int_keeps_soundness,
    inv_keeps_soundness, invall_keeps_soundness, mapc_keeps_soundness, mapd_keeps_soundness,
    mapti_keeps_soundness, movall_keeps_soundness, movi_keeps_soundness, unmapc_keeps_soundness,
    unmapd_keeps_soundness,
};
pub use start::{
    machines_start_sound, migrations_keep_soundness, stale_bits_go, stale_bits_go_soundly,
};
