//! Data behind the code.

ghost use Rattle.std.specs.Prelude.{◌≡◌, ◌+◌, ◌++◌, ◌<◌, ◌≤◌, ◌^◌, ◌↔◌, ◌⊎◌, ℕ, [], IfErr, IfNone, IfSome, IsTrue, List, OnOk, Some, drop, length, take};
ghost use Rattle.huqmeris_c.specs.Data.{items_of_code, data_in, data_of, is_data, struct_bytes};
ghost use Rattle.huqmeris_c.specs.Putting.{AreData, BadDatum, Behind, DatumRefused, FirstBehind, Holds, IsDatum, NoneBehind, PutsDatum};
ghost use Rattle.huqmeris_c.specs.declared.item.HqItem.{HqItem};
ghost use Rattle.cax64_sink.specs.declared.DeferredTarget.{DeferredTarget};
ghost use Rattle.x64_code_buffer.specs.Binding.{AddsBinding, SamePlaces};
ghost use Rattle.x64_code_buffer.specs.Padding.{missing_to};
ghost use Rattle.x64_code_buffer.specs.Buffer.{StaysFilled, buffer_state, label_count, places_of};
ghost use Rattle.huqmeris_c.specs.declared.status.TheConstants.{HQ_BAD_LABEL, HQ_BOUND_TWICE, HQ_NO_MEMORY};

use crate::item::{HQ_ITEM_ALIGN, HQ_ITEM_BYTES, HQ_ITEM_CONSTANT, HQ_ITEM_LABEL, HqItem};
use crate::list::Refused;
use crate::status::{HQ_BAD_LABEL, HQ_BOUND_TWICE, HQ_NO_MEMORY};
use cax64_sink::{Constant, Label};
use std::alloc::Global;
use x64_code_buffer::{BindError, CodeBuffer};
use x64_plain::HqInst;

/// How many bytes an item holds at most.
const MOST_BYTES: u32 = 24;

/// The largest power of 2 that padding may be up to.
const MOST_POWER: u32 = 6;

/// As many zeros as padding may have.
static ZEROS: [u8; 64] = [0; 64];

/// An item of this kind is data.
fn is_data(kind: u32) -> bool
    ensures { result ≡ is_data kind }
{
    kind == HQ_ITEM_CONSTANT || kind == HQ_ITEM_BYTES || kind == HQ_ITEM_ALIGN
}

/// How many items stand before the first that is data.
pub(crate) fn code_len(items: &[HqItem]) -> usize
    ensures within { result ≤ length items.now }
    ensures code { take result items.now ≡ items_of_code items.now }
    ensures rest { drop result items.now ≡ data_of items.now }
{
    for i in 0..items.len() {
        if is_data(items[i].kind) {
            return i;
        }
    }
    items.len()
}

/// An item can stand where data does.
fn is_datum(item: &HqItem) -> bool
    ensures { IsTrue result ↔ IsDatum item.now }
{
    match item.kind {
        HQ_ITEM_LABEL | HQ_ITEM_CONSTANT => true,
        HQ_ITEM_BYTES => item.number <= MOST_BYTES,
        HQ_ITEM_ALIGN => item.number <= MOST_POWER,
        _ => false,
    }
}

/// The number of the first item that can't stand where data does.
pub(crate) fn first_bad(items: &[HqItem]) -> Option<usize>
    ensures within { IfSome result (λ number. number < length items.now) }
    ensures bad { IfSome result (λ number. BadDatum items.now number) }
    ensures good { IfNone result (AreData items.now) }
{
    for i in 0..items.len() {
        if !is_datum(&items[i]) {
            return Some(i);
        }
    }
    None
}

/// The bytes of a struct, as they stand in memory.
fn struct_bytes(inst: &HqInst) -> [u8; 24]
    ensures { result ≡ struct_bytes inst.now }
{
    let line = inst.line.to_le_bytes();
    let disp = inst.disp.to_le_bytes();
    let target = inst.target.to_le_bytes();
    let imm = inst.imm.to_le_bytes();
    [
        line[0],
        line[1],
        inst.place,
        inst.reg,
        inst.vvvv,
        inst.base,
        inst.index,
        inst.scale,
        inst.trap,
        inst.has_offset,
        inst.offset,
        inst.reserved,
        disp[0],
        disp[1],
        disp[2],
        disp[3],
        target[0],
        target[1],
        target[2],
        target[3],
        imm[0],
        imm[1],
        imm[2],
        imm[3],
    ]
}

/// How many zeros there are up to the next multiple of 2 to a power.
fn padding_len(at: usize, power: u32) -> usize
    requires { power ≤ 6 }
    ensures is { result ≡ missing_to at (2 ^ power) }
    ensures few { result ≤ 64 }
{
    let size = 1usize << power;
    let over = at % size;
    if over == 0 { 0 } else { size - over }
}

/// Binds a label where data stands.
fn put_label(number: u32, buffer: &mut CodeBuffer<Global>) -> Result<(), i32>
    ensures bound { OnOk result ((number < label_count buffer.old) × AddsBinding (DeferredTarget.Label (record { 0 = number })) (length (buffer_state buffer.old).bytes) (places_of buffer.old) (places_of buffer.new)) }
    ensures refused { IfErr result (λ status. (status ≡ HQ_NO_MEMORY) ⊎ (((status ≡ HQ_BAD_LABEL) × (label_count buffer.old ≤ number)) ⊎ ((status ≡ HQ_BOUND_TWICE) × ((place : ℕ) × (places_of buffer.old (DeferredTarget.Label (record { 0 = number })) ≡ Some place))))) }
    ensures state { buffer_state buffer.new ≡ buffer_state buffer.old }
    ensures labels { label_count buffer.new ≡ label_count buffer.old }
    ensures filled { StaysFilled buffer.old buffer.new }
{
    match buffer.bind(Label(number)) {
        Ok(()) => Ok(()),
        Err(BindError::Unknown) => Err(HQ_BAD_LABEL),
        Err(BindError::Twice) => Err(HQ_BOUND_TWICE),
        Err(BindError::NoMemory) => Err(HQ_NO_MEMORY),
    }
}

/// Binds a constant.
fn put_constant(number: u32, buffer: &mut CodeBuffer<Global>) -> Result<(), i32>
    ensures bound { OnOk result (AddsBinding (DeferredTarget.Constant (record { 0 = number })) (length (buffer_state buffer.old).bytes) (places_of buffer.old) (places_of buffer.new)) }
    ensures refused { IfErr result (λ status. (status ≡ HQ_NO_MEMORY) ⊎ ((status ≡ HQ_BOUND_TWICE) × ((place : ℕ) × (places_of buffer.old (DeferredTarget.Constant (record { 0 = number })) ≡ Some place)))) }
    ensures state { buffer_state buffer.new ≡ buffer_state buffer.old }
    ensures labels { label_count buffer.new ≡ label_count buffer.old }
    ensures filled { StaysFilled buffer.old buffer.new }
{
    match buffer.bind_constant(Constant(number)) {
        Ok(()) => Ok(()),
        Err(BindError::Twice) => Err(HQ_BOUND_TWICE),
        Err(_) => Err(HQ_NO_MEMORY),
    }
}

/// Puts bytes.
fn put_all(bytes: &[u8], buffer: &mut CodeBuffer<Global>) -> Result<(), i32>
    ensures adds { OnOk result ((buffer_state buffer.new).bytes ≡ (buffer_state buffer.old).bytes ++ bytes.now) }
    ensures refused { IfErr result (λ status. status ≡ HQ_NO_MEMORY) }
    ensures notices { (buffer_state buffer.new).notices ≡ (buffer_state buffer.old).notices }
    ensures labels { label_count buffer.new ≡ label_count buffer.old }
    ensures places { SamePlaces (places_of buffer.old) (places_of buffer.new) }
    ensures filled { StaysFilled buffer.old buffer.new }
{
    match buffer.put_bytes(bytes) {
        Ok(()) => Ok(()),
        Err(_) => Err(HQ_NO_MEMORY),
    }
}

/// Puts what an item of data holds.
fn put_held(item: &HqItem, buffer: &mut CodeBuffer<Global>) -> Result<(), i32>
    requires { Holds item.now }
    ensures adds { OnOk result ((buffer_state buffer.new).bytes ≡ (buffer_state buffer.old).bytes ++ data_in (length (buffer_state buffer.old).bytes) item.now) }
    ensures refused { IfErr result (λ status. status ≡ HQ_NO_MEMORY) }
    ensures notices { (buffer_state buffer.new).notices ≡ (buffer_state buffer.old).notices }
    ensures labels { label_count buffer.new ≡ label_count buffer.old }
    ensures places { SamePlaces (places_of buffer.old) (places_of buffer.new) }
    ensures filled { StaysFilled buffer.old buffer.new }
{
    if item.kind == HQ_ITEM_BYTES {
        return put_all(&struct_bytes(&item.inst)[..item.number as usize], buffer);
    }
    let count = padding_len(buffer.len(), item.number);
    put_all(&ZEROS[..count], buffer)
}

/// Puts an item of data behind what a buffer has.
fn put_datum(item: &HqItem, buffer: &mut CodeBuffer<Global>) -> Result<(), i32>
    requires { IsDatum item.now }
    ensures put { OnOk result (PutsDatum item.now buffer.old buffer.new) }
    ensures refused { IfErr result (λ status. DatumRefused (label_count buffer.old) (places_of buffer.old) item.now status) }
    ensures labels { label_count buffer.new ≡ label_count buffer.old }
{
    match item.kind {
        HQ_ITEM_LABEL => put_label(item.number, buffer),
        HQ_ITEM_CONSTANT => put_constant(item.number, buffer),
        _ => put_held(item, buffer),
    }
}

/// Puts items of data behind what a buffer has.
pub(crate) fn put_data(items: &[HqItem], buffer: &mut CodeBuffer<Global>) -> Result<(), Refused>
    requires { AreData items.now }
    ensures within { IfErr result (λ refused. refused.number ≤ length items.now) }
    ensures put { (front : List HqItem) → Behind (label_count buffer.old) front [] (buffer_state buffer.old) (places_of buffer.old) → OnOk result (Behind (label_count buffer.old) front items.now (buffer_state buffer.new) (places_of buffer.new)) }
    ensures tested { (front : List HqItem) → Behind (label_count buffer.old) front [] (buffer_state buffer.old) (places_of buffer.old) → OnOk result (NoneBehind (label_count buffer.old) front items.now (length items.now)) }
    ensures refused { (front : List HqItem) → Behind (label_count buffer.old) front [] (buffer_state buffer.old) (places_of buffer.old) → IfErr result (λ refused. (refused.status ≡ HQ_NO_MEMORY) ⊎ FirstBehind (label_count buffer.old) front items.now refused.number refused.status) }
{
    for i in 0..items.len() {
        if let Err(status) = put_datum(&items[i], buffer) {
            return Err(Refused { number: i, status });
        }
    }
    Ok(())
}
