//! Why a register or a late offset can't be encoded.

ghost use Rattle.std.specs.Prelude.{◌≡◌, [], ◌∷◌, Some};
ghost use Rattle.cax64_encoder.specs.Fault.{first_unmet, sum_fault};
ghost use Rattle.cax64_encoder.specs.declared.fault.Visited.TheVariants.{Index, Plain};
ghost use Rattle.cax64_encoder.specs.declared.number.Number.TheVariants.{Settled};

use cax64_address::offset::AmodeOffset;
use cax64_encoder::Fault;
use cax64_register::gpr;
use cax64_sink::{CodeSink, KnownOffset};

/// Of a register, at this place in the order of faults.
pub(crate) fn plain_fault(number: u8, at: u8) -> Option<Fault>
    ensures { result ≡ first_unmet at (Plain (Settled number) ∷ []) }
{
    if number < 16 {
        None
    } else {
        Some(Fault::Register(at))
    }
}

/// Of an index.
pub(crate) fn index_fault(number: u8, at: u8) -> Option<Fault>
    ensures { result ≡ first_unmet at (Index (Settled number) ∷ []) }
{
    if number == gpr::enc::RSP {
        Some(Fault::Index(at))
    } else {
        plain_fault(number, at)
    }
}

/// Of a late offset that is added to a displacement.
pub(crate) fn offset_fault<S: CodeSink>(
    offset: KnownOffset,
    displacement: AmodeOffset,
    sink: &S,
) -> Option<Fault>
    ensures { result ≡ sum_fault (S.state sink.now).offsets (Some offset) displacement }
{
    if !sink.knows_offset(offset) {
        return Some(Fault::Unknown(offset));
    }
    match sink.known_offset(offset).checked_add(displacement.value()) {
        Some(_) => None,
        None => Some(Fault::Range),
    }
}
