//! The features of each row of the table.

ghost use Rattle.std.specs.Prelude.{◌≡◌, IfOk};
ghost use Rattle.cax64_feature.specs.Row.{is_64_bit, second_feature, mode_of, features_of};
ghost use Rattle.cax64_feature.specs.Term.{term_of, truth};

use crate::available::AvailableFeatures;
use crate::feature::Feature;
use crate::features::{Features, both, either};
use cax64_machine_code::row::Row;
use std::alloc::{AllocError, Allocator};

/// Whether the row stands in 64-bit mode alone.
#[tactic(auto, unfolding(cax64_machine_code::specs::Rows::line_of))]
pub fn is_64_bit(row: Row) -> bool
    ensures { result ≡ is_64_bit row }
{
    match row {
        // table/write.py: modes
        Row::lock_addq_mi_sxl | Row::lock_addq_mi_sxb | Row::lock_addq_mr => true,
        Row::lock_orq_mi_sxl | Row::lock_orq_mi_sxb | Row::lock_orq_mr => true,
        Row::lock_adcq_mi_sxl | Row::lock_adcq_mi_sxb | Row::lock_adcq_mr => true,
        Row::lock_sbbq_mi_sxl | Row::lock_sbbq_mi_sxb | Row::lock_sbbq_mr => true,
        Row::lock_andq_mi_sxl | Row::lock_andq_mi_sxb | Row::lock_andq_mr => true,
        Row::lock_subq_mi_sxl | Row::lock_subq_mi_sxb | Row::lock_subq_mr => true,
        Row::lock_xorq_mi_sxl | Row::lock_xorq_mi_sxb | Row::lock_xorq_mr => true,
        Row::lock_xaddq_mr | Row::lock_cmpxchgq_mr | Row::lock_cmpxchg16b_m | Row::xchgq_rm => true,
        Row::rolq_m1 | Row::rorq_m1 | Row::shlq_m1 | Row::shrq_m1 | Row::sarq_m1 => true,
        Row::callq_m | Row::jmpq_m | Row::mulxq_rvm => true,
        // table/write.py: end
        _ => false,
    }
}

/// The feature that a row asks for besides the mode.
pub fn second_feature(row: Row) -> Option<Feature>
    ensures { result ≡ second_feature row }
{
    match row {
        // table/write.py: extensions
        Row::andps_a | Row::cmpps_a | Row::cmpss_a => Some(Feature::sse),
        Row::cmppd_a | Row::cmpsd_a => Some(Feature::sse2),
        Row::vcmpps_b
        | Row::vcmppd_b
        | Row::vcmpss_b
        | Row::vcmpsd_b
        | Row::vcvtpd2ps_a
        | Row::vcvttpd2dq_a => Some(Feature::avx),
        Row::mulxl_rvm | Row::mulxq_rvm => Some(Feature::bmi2),
        Row::lock_cmpxchg16b_m => Some(Feature::cmpxchg16b),
        // table/write.py: end
        _ => None,
    }
}

fn mode<A: Allocator + Copy>(row: Row, alloc: A) -> Result<Features<A>, AllocError>
    ensures { IfOk result (λ t. term_of t ≡ mode_of row) }
{
    if is_64_bit(row) {
        Ok(Features::Feature(Feature::_64b))
    } else {
        either(
            alloc,
            Features::Feature(Feature::_64b),
            Features::Feature(Feature::compat),
        )
    }
}

/// What an instruction of the row asks for: a mode, and perhaps an extension.
///
/// Fails where there is no memory.
pub fn features<A: Allocator + Copy>(row: Row, alloc: A) -> Result<Features<A>, AllocError>
    ensures { IfOk result (λ t. term_of t ≡ features_of row) }
{
    let mode = mode(row, alloc)?;
    match second_feature(row) {
        Some(second) => both(alloc, mode, Features::Feature(second)),
        None => Ok(mode),
    }
}

/// Whether a processor has what an instruction of the row asks for. It makes no term.
pub fn is_available<F: AvailableFeatures>(row: Row, available: &F) -> bool
    ensures { result ≡ truth (F.has available.now) (features_of row) }
{
    let mode = available._64b() || (!is_64_bit(row) && available.compat());
    match second_feature(row) {
        Some(second) => mode && available.has_feature(second),
        None => mode,
    }
}
