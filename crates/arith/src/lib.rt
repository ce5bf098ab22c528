//! Arithmetic of general registers.
#![tactic(auto)]
#![allow(non_camel_case_types)]

// table/write.py: modules
mod and;
mod mulx;
mod rol;
mod ror;
mod sar;
mod shl;
mod shr;
mod xchg;

pub use and::andb_i;
pub use mulx::{mulxl_rvm, mulxq_rvm};
pub use rol::{rolb_m1, roll_m1, rolq_m1, rolw_m1};
pub use ror::{rorb_m1, rorl_m1, rorq_m1, rorw_m1};
pub use sar::{sarb_m1, sarl_m1, sarq_m1, sarw_m1};
pub use shl::{shlb_m1, shll_m1, shlq_m1, shlw_m1};
pub use shr::{shrb_m1, shrl_m1, shrq_m1, shrw_m1};
pub use xchg::{xchgb_rm, xchgl_rm, xchgq_rm, xchgw_rm};
// table/write.py: end
