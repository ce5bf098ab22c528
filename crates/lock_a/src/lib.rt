//! Locked arithmetic: `add`, `or`, `adc`.
#![tactic(auto)]
#![allow(non_camel_case_types)]

// table/write.py: modules
mod adc;
mod add;
mod or;

pub use adc::{
    lock_adcb_mi, lock_adcb_mr, lock_adcl_mi, lock_adcl_mi_sxb, lock_adcl_mr, lock_adcq_mi_sxb,
    lock_adcq_mi_sxl, lock_adcq_mr, lock_adcw_mi, lock_adcw_mr,
};
pub use add::{
    lock_addb_mi, lock_addb_mr, lock_addl_mi, lock_addl_mi_sxb, lock_addl_mr, lock_addq_mi_sxb,
    lock_addq_mi_sxl, lock_addq_mr, lock_addw_mi, lock_addw_mr,
};
pub use or::{
    lock_orb_mi, lock_orb_mr, lock_orl_mi, lock_orl_mi_sxb, lock_orl_mr, lock_orq_mi_sxb,
    lock_orq_mi_sxl, lock_orq_mr, lock_orw_mi, lock_orw_mr,
};
// table/write.py: end
