//! Encoding of many instructions.

ghost use Rattle.std.specs.Prelude.{◌≡◌, ◌≢◌, ◌≤◌, ◌<◌, ◌+◌, ◌*◌, ◌++◌, ◌∷◌, ◌^◌, ℕ, [], IfErr, IfOk, None, Some, drop, length, take, true};
ghost use Rattle.x64_plain.specs.Encodable.{IsReady};
ghost use Rattle.x64_plain.specs.Plain.{place_of, plain};
ghost use Rattle.x64_plain.specs.Told.{told_at};
ghost use Rattle.huqmeris_c.specs.Each.{AreSound, EachPutAs, IsRefused, PutEach, StoppedAt};
ghost use Rattle.huqmeris_c.specs.Encodes.{no_offsets};
ghost use Rattle.huqmeris_c.specs.Listed.{AreReady, CanPut, HasRoomFor, HasSize, IsSized, PutBehind, PutNext, moved, use_list};
ghost use Rattle.x64_core.specs.Core.{core_len, core_notices, fault_of};
ghost use Rattle.x64_core.specs.View.{core_view};
ghost use Rattle.x64_layout.specs.declared.span.TheConstants.{MOST_SPANS};

use crate::encode::{put_encodable, sink};
use crate::progress::HqDone;
use crate::status::HQ_TOO_MANY;
use cax64_encoder::RoomNeeded;
use x64_core::Core;
use x64_core::laws::len_is_at_most_13;
use x64_layout::MOST_SPANS;
use x64_plain::status::{HQ_BAD_INST, HQ_FULL, HQ_OK, fault_status};
use x64_plain::{HqInst, HqUse};

/// Where a list is stopped at, and why.
#[derive(Clone, Copy)]
struct Stop {
    done: HqDone,
    status: i32,
}

/// How many bytes and notices an instruction has, or why it can't be encoded.
fn size_of(inst: &HqInst) -> Result<RoomNeeded, i32>
    ensures size { IfOk result (λ room. HasSize inst.now room.bytes room.notices) }
    ensures refused { IfErr result (λ status. IsRefused inst.now status) }
{
    let Some(core) = inst.core() else {
        return Err(HQ_BAD_INST);
    };
    let sink = sink();
    match core.first_fault(&sink) {
        Some(fault) => Err(fault_status(fault)),
        None => Ok(core.room_needed(&sink)),
    }
}

/// Whether an instruction can be encoded where no late offset is known. False says nothing.
#[inline(always)]
fn is_ready(inst: &HqInst) -> bool
    ensures ready { result ≡ true → IsReady inst.now }
    ensures sized { result ≡ true → IsSized inst.now }
{
    if !inst.is_encodable() {
        return false;
    }
    len_is_at_most_13();
    // It's made for the proof's sake alone, and the compiler leaves it out.
    let _ = inst.encodable_core();
    true
}

/// Whether each instruction can be encoded where no late offset is known. False says nothing.
fn are_ready(insts: &[HqInst]) -> bool
    ensures { result ≡ true → AreReady insts.now (length insts.now) }
{
    for i in 0..insts.len() {
        if !is_ready(&insts[i]) {
            return false;
        }
    }
    true
}

/// Finds how many bytes instructions have, and how many traps and targets they tell, or the first that can't be encoded.
fn measure(insts: &[HqInst]) -> Result<HqDone, Stop>
    requires { length insts.now ≤ MOST_SPANS }
    ensures items { IfOk result (λ done. done.items ≡ length insts.now) }
    ensures sound { IfOk result (λ done. AreSound insts.now done.bytes done.uses) }
    ensures stopped { IfErr result (λ stop. StoppedAt insts.now stop.done stop.status) }
{
    let mut bytes = 0usize;
    let mut uses = 0usize;
    for i in 0..insts.len() {
        match size_of(&insts[i]) {
            Ok(room) => {
                bytes += usize::from(room.bytes);
                uses += usize::from(room.notices);
            }
            Err(status) => {
                return Err(Stop {
                    done: HqDone {
                        items: i,
                        bytes,
                        uses,
                    },
                    status,
                });
            }
        }
    }
    Ok(HqDone {
        items: insts.len(),
        bytes,
        uses,
    })
}

/// What is told of an instruction that stands behind so many bytes.
fn moved(told: HqUse, at: usize) -> HqUse
    requires { at + told.at < 2 ^ 32 }
    ensures { result ≡ moved at told }
{
    HqUse {
        at: at as u32 + told.at,
        ..told
    }
}

/// What an instruction of these integers tells that has so many bytes before its displacement, behind so many others.
fn use_of(inst: &HqInst, core: &Core, behind: u8, at: usize) -> Option<HqUse>
    requires { at < 2 ^ 31 }
    ensures none { core_notices (core_view core.now) ≡ 0 → result ≡ None }
    ensures some { core_notices (core_view core.now) ≢ 0 → result ≡ Some (moved at (told_at (place_of inst.now) behind)) }
{
    if core.notice_count() == 0 {
        return None;
    }
    Some(moved(HqUse::of_inst(inst, behind), at))
}

/// Puts an instruction of these integers that can be encoded behind so many bytes, and says how many it has, and what it tells.
fn put_behind(inst: &HqInst, core: &Core, code: &mut [u8], at: usize) -> (usize, Option<HqUse>)
    requires same { plain (core_view core.now) ≡ inst.now }
    requires sound { fault_of no_offsets (core_view core.now) ≡ None }
    requires room { at + core_len no_offsets (core_view core.now) ≤ length code.old }
    requires near { at < 2 ^ 31 }
    ensures { PutBehind (core_view core.now) at code.old code.new result.0 (use_list result.1) }
{
    let mut whole = [0u8; 16];
    let (behind, count) = put_encodable(core, &mut whole);
    let size = usize::from(count);
    code[at..at + size].copy_from_slice(&whole[..size]);
    (size, use_of(inst, core, behind, at))
}

/// Notes what may be told behind so many others, and says how many these are then.
fn note(uses: &mut [HqUse], count: usize, heard: Option<HqUse>) -> usize
    requires { count + length (use_list heard) ≤ length uses.old }
    ensures count { result ≡ count + length (use_list heard) }
    ensures front { take result uses.new ≡ take count uses.old ++ use_list heard }
    ensures others { drop result uses.new ≡ drop result uses.old }
    ensures places { length uses.new ≡ length uses.old }
{
    match heard {
        None => count,
        Some(heard) => {
            uses[count] = heard;
            count + 1
        }
    }
}

/// Puts the next instruction, whatever it is, and says how many bytes there are then, and how many uses.
#[inline(never)]
fn put_any(
    inst: &HqInst,
    code: &mut [u8],
    uses: &mut [HqUse],
    at: usize,
    count: usize,
) -> (usize, usize)
    requires ready { CanPut inst.now (length code.old) (length uses.old) at count }
    requires near { at < 2 ^ 31 }
    ensures { PutNext inst.now code.old code.new uses.old uses.new at count result.0 result.1 }
{
    match inst.core() {
        None => (at, count),
        Some(core) => {
            let put = put_behind(inst, &core, code, at);
            let noted = note(uses, count, put.1);
            (at + put.0, noted)
        }
    }
}

/// Notes what an instruction of these integers tells behind so many bytes. It's apart, so that the loop around it has the
/// registers for what most instructions need: they tell nothing.
#[cold]
#[inline(never)]
fn note_told(inst: &HqInst, behind: u8, uses: &mut [HqUse], at: usize, count: &mut usize)
    requires room { count.old < length uses.old }
    requires near { at < 2 ^ 31 }
    ensures count { count.new ≡ count.old + 1 }
    ensures front { take count.new uses.new ≡ take count.old uses.old ++ moved at (told_at (place_of inst.now) behind) ∷ [] }
    ensures others { drop count.new uses.new ≡ drop count.new uses.old }
    ensures places { length uses.new ≡ length uses.old }
{
    uses[*count] = moved(HqUse::of_inst(inst, behind), at);
    *count += 1;
}

/// Puts the next instruction, which can be encoded, where there is room for two words, and says how many bytes there are then.
#[inline(always)]
fn put_ready(
    inst: &HqInst,
    code: &mut [u8],
    uses: &mut [HqUse],
    at: usize,
    count: &mut usize,
) -> usize
    requires encodable { IsReady inst.now }
    requires ready { CanPut inst.now (length code.old) (length uses.old) at count.old }
    requires room { at + 16 ≤ length code.old }
    requires near { at < 2 ^ 31 }
    ensures { PutNext inst.now code.old code.new uses.old uses.new at count.old result count.new }
{
    let core = inst.encodable_core();
    let (behind, len) = put_encodable(&core, &mut code[at..]);
    if core.notice_count() != 0 {
        note_told(inst, behind, uses, at, count);
    }
    at + usize::from(len)
}

/// Puts the next instruction, which can be encoded, and says how many bytes there are then.
#[inline(always)]
fn put_next(
    inst: &HqInst,
    code: &mut [u8],
    uses: &mut [HqUse],
    at: usize,
    count: &mut usize,
) -> usize
    requires encodable { IsReady inst.now }
    requires ready { CanPut inst.now (length code.old) (length uses.old) at count.old }
    requires near { at < 2 ^ 31 }
    ensures { PutNext inst.now code.old code.new uses.old uses.new at count.old result count.new }
{
    if at + 16 <= code.len() {
        return put_ready(inst, code, uses, at, count);
    }
    let next = put_any(inst, code, uses, at, *count);
    *count = next.1;
    next.0
}

/// Puts instructions one behind the other that can be encoded where no late offset is known, as `put_each` does. Before the last
/// one there is always room for two words.
fn put_each_ready(insts: &[HqInst], code: &mut [u8], uses: &mut [HqUse]) -> (usize, usize)
    requires few { length insts.now ≤ MOST_SPANS }
    requires some { 1 ≤ length insts.now }
    requires ready { AreReady insts.now (length insts.now) }
    requires room { HasRoomFor insts.now (length code.old) (length uses.old) }
    requires most { length insts.now * 13 ≤ length code.old }
    ensures { PutEach insts.now code.old code.new uses.old uses.new result.0 result.1 }
{
    let last = insts.len() - 1;
    let mut at = 0usize;
    let mut count = 0usize;
    for i in 0..last {
        at = put_ready(&insts[i], code, uses, at, &mut count);
    }
    at = put_next(&insts[last], code, uses, at, &mut count);
    (at, count)
}

/// Puts instructions one behind the other, and says how many bytes they have, and how many traps and targets they tell.
fn put_each(insts: &[HqInst], code: &mut [u8], uses: &mut [HqUse]) -> (usize, usize)
    requires few { length insts.now ≤ MOST_SPANS }
    requires room { HasRoomFor insts.now (length code.old) (length uses.old) }
    ensures { PutEach insts.now code.old code.new uses.old uses.new result.0 result.1 }
{
    let mut at = 0usize;
    let mut count = 0usize;
    for i in 0..insts.len() {
        let next = put_any(&insts[i], code, uses, at, count);
        at = next.0;
        count = next.1;
    }
    (at, count)
}

/// Encodes instructions one behind the other into the front of some bytes, and says how many they have, and what they tell
/// beside them: all of them, or none.
///
/// A use's `at` counts from the beginning of `code`. At `HQ_OK` `done` has how many instructions, bytes and uses were put, at
/// `HQ_FULL` how many there would be. Where an instruction is refused, `items` is its number, from 0, and the rest of `done` is
/// of those before it; the status is that of `hq_check`. `HQ_TOO_MANY` above 165,191,049 instructions, and `done` is all 0. No late
/// offset is known.
#[unsafe(no_mangle)]
pub extern "C" fn hq_encode_all(
    insts: &[HqInst],
    code: &mut [u8],
    uses: &mut [HqUse],
    done: &mut HqDone,
) -> i32
    ensures { EachPutAs insts.now code.old code.new uses.old uses.new done.new result }
{
    // So many of 13 bytes each have less than 2 to the 31.
    if insts.len() > MOST_SPANS {
        *done = HqDone::NOTHING;
        return HQ_TOO_MANY;
    }
    // Where there is room for the most that they may have, it isn't counted what they have before they are put.
    if !insts.is_empty()
        && insts.len() * 13 <= code.len()
        && insts.len() <= uses.len()
        && are_ready(insts)
    {
        let (bytes, count) = put_each_ready(insts, code, uses);
        *done = HqDone {
            items: insts.len(),
            bytes,
            uses: count,
        };
        return HQ_OK;
    }
    match measure(insts) {
        Err(stop) => {
            *done = stop.done;
            stop.status
        }
        Ok(all) => {
            if code.len() < all.bytes || uses.len() < all.uses {
                *done = all;
                return HQ_FULL;
            }
            let (bytes, count) = put_each(insts, code, uses);
            *done = HqDone {
                items: insts.len(),
                bytes,
                uses: count,
            };
            HQ_OK
        }
    }
}
