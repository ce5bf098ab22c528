//! Locked exchanges.
#![tactic(auto)]
#![allow(non_camel_case_types)]

// table/write.py: modules
mod cmpxchg;
mod xadd;

pub use cmpxchg::{
    lock_cmpxchg16b_m, lock_cmpxchgb_mr, lock_cmpxchgl_mr, lock_cmpxchgq_mr, lock_cmpxchgw_mr,
};
pub use xadd::{lock_xaddb_mr, lock_xaddl_mr, lock_xaddq_mr, lock_xaddw_mr};
// table/write.py: end
