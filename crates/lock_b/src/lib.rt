//! Locked arithmetic: `sbb`, `and`, `sub`, `xor`.
#![tactic(auto)]
#![allow(non_camel_case_types)]

// table/write.py: modules
mod and;
mod sbb;
mod sub;
mod xor;

pub use and::{
    lock_andb_mi, lock_andb_mr, lock_andl_mi, lock_andl_mi_sxb, lock_andl_mr, lock_andq_mi_sxb,
    lock_andq_mi_sxl, lock_andq_mr, lock_andw_mi, lock_andw_mr,
};
pub use sbb::{
    lock_sbbb_mi, lock_sbbb_mr, lock_sbbl_mi, lock_sbbl_mi_sxb, lock_sbbl_mr, lock_sbbq_mi_sxb,
    lock_sbbq_mi_sxl, lock_sbbq_mr, lock_sbbw_mi, lock_sbbw_mr,
};
pub use sub::{
    lock_subb_mi, lock_subb_mr, lock_subl_mi, lock_subl_mi_sxb, lock_subl_mr, lock_subq_mi_sxb,
    lock_subq_mi_sxl, lock_subq_mr, lock_subw_mi, lock_subw_mr,
};
pub use xor::{
    lock_xorb_mi, lock_xorb_mr, lock_xorl_mi, lock_xorl_mi_sxb, lock_xorl_mr, lock_xorq_mi_sxb,
    lock_xorq_mi_sxl, lock_xorq_mr, lock_xorw_mi, lock_xorw_mr,
};
// table/write.py: end
