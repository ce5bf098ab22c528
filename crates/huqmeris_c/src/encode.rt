//! Encoding.

ghost use Rattle.std.specs.Prelude.{◌≡◌, ◌≢◌, ◌≤◌, [], IsTrue, MatchOption, length};
ghost use Rattle.x64_plain.specs.Plain.{plain};
ghost use Rattle.x64_plain.specs.Status.{check_status, fault_status};
ghost use Rattle.cax64_sink.specs.FixedSink.{fixed_sink_state};
ghost use Rattle.huqmeris_c.specs.Encodes.{no_offsets};
ghost use Rattle.huqmeris_c.specs.Outcome.{PutAs, Unchanged};
ghost use Rattle.huqmeris_c.specs.PutCode.{PutCode};
ghost use Rattle.x64_core.specs.Core.{core_len, fault_of, is_encodable};
ghost use Rattle.x64_core.specs.View.{core_view};
ghost use Rattle.x64_core.specs.declared.instruction.Core.{Core};
ghost use Rattle.x64_plain.specs.declared.status.TheConstants.{HQ_BAD_INST, HQ_OK};

use crate::words::put_words;
use cax64_sink::FixedSink;
use x64_core::Core;
use x64_plain::status::{HQ_BAD_INST, HQ_FULL, HQ_OK, fault_status};
use x64_plain::{HqInst, HqUse};

/// What this library encodes into: at any place of an instruction, which has 13 bytes at most, there is room for a word of
/// eight, so that no byte is put alone.
pub(crate) fn sink() -> FixedSink<24>
    ensures { (fixed_sink_state result).bytes ≡ [] }
{
    FixedSink::new()
}

/// Why an instruction can't be encoded by `hq_encode`, which knows no late offsets: the first register that isn't below 16, or
/// an index that is the stack pointer, or else a late offset. 0 where it can.
#[unsafe(no_mangle)]
pub extern "C" fn hq_check(inst: &HqInst) -> i32
    ensures bad { ((c : Core) → plain (core_view c) ≢ inst.now) → result ≡ HQ_BAD_INST }
    ensures checks { (c : Core) → plain (core_view c) ≡ inst.now → result ≡ check_status (fault_of no_offsets (core_view c)) }
{
    if let Some(_) = inst.encodable() {
        return HQ_OK;
    }
    let Some(core) = inst.core() else {
        return HQ_BAD_INST;
    };
    match core.first_fault(&sink()) {
        Some(fault) => fault_status(fault),
        None => HQ_OK,
    }
}

/// The number of bytes that `hq_encode` writes, 1 to 13.
#[unsafe(no_mangle)]
pub extern "C" fn hq_length(inst: &HqInst, len: &mut u32) -> i32
    ensures bad { ((c : Core) → plain (core_view c) ≢ inst.now) → (result ≡ HQ_BAD_INST) × (len.new ≡ len.old) }
    ensures length { (c : Core) → plain (core_view c) ≡ inst.now
        → MatchOption (fault_of no_offsets (core_view c))
        ((result ≡ HQ_OK) × (len.new ≡ core_len no_offsets (core_view c)))
        (λ fault. (result ≡ fault_status fault) × (len.new ≡ len.old)) }
{
    if let Some(core) = inst.encodable() {
        *len = u32::from(core.encoded_len(&sink()));
        return HQ_OK;
    }
    let Some(core) = inst.core() else {
        return HQ_BAD_INST;
    };
    let sink = sink();
    match core.first_fault(&sink) {
        Some(fault) => fault_status(fault),
        None => {
            *len = u32::from(core.encoded_len(&sink));
            HQ_OK
        }
    }
}

/// Puts an instruction that can be encoded at the front of some bytes, and says how many stand before its displacement of four
/// bytes, if it has one, and how many it has.
#[inline(always)]
pub(crate) fn put_encodable(core: &Core, code: &mut [u8]) -> (u8, u8)
    requires encodable { IsTrue (is_encodable no_offsets (core_view core.now)) }
    requires room { 16 ≤ length code.old }
    ensures { PutCode (core_view core.now) code.old code.new result.0 result.1 }
{
    let sink = FixedSink::<0>::new();
    let made = core.code(&sink);
    let behind = made.front.len();
    let (rest, more) = made.rest();
    put_words(
        code,
        made.front.word(),
        usize::from(behind),
        rest,
        usize::from(more),
    );
    (behind, behind + more)
}

/// Encodes an instruction of these integers into some bytes.
fn put(inst: &HqInst, core: &Core, code: &mut [u8], len: &mut u32, told: &mut HqUse) -> i32
    requires { plain (core_view core.now) ≡ inst.now }
    ensures { PutAs (core_view core.now) code.old code.new len.old len.new told.old told.new result }
{
    if let Some(fault) = core.first_fault(&sink()) {
        return fault_status(fault);
    }
    let mut whole = [0u8; 16];
    let (behind, count) = put_encodable(core, &mut whole);
    let size = usize::from(count);
    if code.len() < size {
        return HQ_FULL;
    }
    code[..size].copy_from_slice(&whole[..size]);
    *len = u32::from(count);
    *told = HqUse::of_inst(inst, behind);
    HQ_OK
}

/// Encodes what may be an instruction, whatever else it is.
#[cold]
#[inline(never)]
fn encode_any(inst: &HqInst, code: &mut [u8], len: &mut u32, told: &mut HqUse) -> i32
    ensures bad { ((c : Core) → plain (core_view c) ≢ inst.now) → (result ≡ HQ_BAD_INST) × Unchanged code.old code.new len.old len.new told.old told.new }
    ensures puts { (c : Core) → plain (core_view c) ≡ inst.now → PutAs (core_view c) code.old code.new len.old len.new told.old told.new result }
{
    let Some(core) = inst.core() else {
        return HQ_BAD_INST;
    };
    put(inst, &core, code, len, told)
}

/// Encodes an instruction into the front of some bytes, and says how many it has, 1 to 13, and what it tells beside them.
/// `HQ_FULL` where they are too few. No late offset is known.
#[unsafe(no_mangle)]
pub extern "C" fn hq_encode(inst: &HqInst, code: &mut [u8], len: &mut u32, told: &mut HqUse) -> i32
    ensures bad { ((c : Core) → plain (core_view c) ≢ inst.now) → (result ≡ HQ_BAD_INST) × Unchanged code.old code.new len.old len.new told.old told.new }
    ensures puts { (c : Core) → plain (core_view c) ≡ inst.now → PutAs (core_view c) code.old code.new len.old len.new told.old told.new result }
{
    if code.len() >= 16 {
        if let Some(core) = inst.encodable() {
            let (behind, count) = put_encodable(&core, code);
            *len = u32::from(count);
            *told = HqUse::of_inst(inst, behind);
            return HQ_OK;
        }
    }
    encode_any(inst, code, len, told)
}
