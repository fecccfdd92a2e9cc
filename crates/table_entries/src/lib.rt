//! The entries of the tables that a translator is saved to (KVM document arm-vgic-its, ITS table
//! ABI revision 0).
#![tactic(auto)]

mod cte;
mod dte;
mod ite;

pub use cte::{Cte, NEVER_MAPPED};
pub use dte::Dte;
pub use ite::Ite;
