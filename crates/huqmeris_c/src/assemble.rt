//! Items that are assembled.

ghost use Rattle.std.specs.Prelude.{◌≡◌, ◌+◌, ◌≤◌, ◌⊎◌, [], IfErr, List, OnOk, length};
ghost use Rattle.huqmeris_c.specs.Data.{items_of_code, data_of};
ghost use Rattle.huqmeris_c.specs.Items.{AssembledAs, CantBePut, FirstRefused, NoneRefused, Unlisted};
ghost use Rattle.huqmeris_c.specs.Each.{none_done};
ghost use Rattle.huqmeris_c.specs.Putting.{Begun, Behind, Denied, HasPlaces, MakesEach, TellsOf, Unfinished};
ghost use Rattle.huqmeris_c.specs.declared.item.HqItem.{HqItem};
ghost use Rattle.x64_code_buffer.specs.Buffer.{buffer_state, label_count, places_of};
ghost use Rattle.huqmeris_c.specs.declared.status.TheConstants.{HQ_NO_MEMORY};
ghost use Rattle.x64_layout.specs.declared.span.TheConstants.{MOST_SPANS};

use crate::data_items::put_data;
use crate::item::HqItem;
use crate::list::{Refused, list_code};
use crate::progress::HqDone;
use crate::status::{HQ_BAD_LABEL, HQ_BOUND_TWICE, HQ_NO_MEMORY, HQ_TOO_MANY, HQ_UNBOUND};
use crate::traps::list_traps;
use crate::unbound::first_open;
use std::alloc::Global;
use x64_assemble::{Item, Layout, LayoutError};
use x64_code_buffer::{BindError, CodeBuffer};
use x64_core::Core;
use x64_layout::MOST_SPANS;
use x64_plain::HqUse;
use x64_plain::status::{HQ_FULL, HQ_OK, HQ_OUT_OF_RANGE, fault_status};

/// What is told of a list that can't be put.
fn told_of(error: &LayoutError) -> Refused
    ensures { TellsOf error.now result.number result.status }
{
    let (number, status) = match *error {
        LayoutError::Fault(number, fault) => (number, fault_status(fault)),
        LayoutError::Bind(number, BindError::Unknown) => (number, HQ_BAD_LABEL),
        LayoutError::Bind(number, BindError::Twice) => (number, HQ_BOUND_TWICE),
        LayoutError::Bind(number, BindError::NoMemory) => (number, HQ_NO_MEMORY),
        LayoutError::TooMany => (0, HQ_TOO_MANY),
        LayoutError::NoMemory => (0, HQ_NO_MEMORY),
    };
    Refused { number, status }
}

/// The number that is told: that of the item that is refused, and 0 where none is named.
fn number_told(refused: Refused) -> usize
    ensures { (items : List HqItem) → Denied items refused.number refused.status → Unlisted items result refused.status }
{
    if refused.status == HQ_NO_MEMORY {
        return 0;
    }
    if refused.status == HQ_TOO_MANY {
        return 0;
    }
    refused.number
}

/// Gives so many labels.
fn give_labels(count: u32, buffer: &mut CodeBuffer<Global>) -> Result<(), Refused>
    requires { Begun 0 buffer.old }
    ensures given { OnOk result (Begun count buffer.new) }
    ensures refused { IfErr result (λ refused. refused.status ≡ HQ_NO_MEMORY) }
{
    for i in 0..count {
        if buffer.new_label().is_err() {
            return Err(Refused {
                number: 0,
                status: HQ_NO_MEMORY,
            });
        }
    }
    Ok(())
}

/// Puts a list of items of code into a buffer that has nothing but labels, in its least layout.
fn put_code(
    alloc: Global,
    list: &[Item<Core>],
    buffer: &mut CodeBuffer<Global>,
) -> Result<(), Refused>
    requires { Begun (label_count buffer.old) buffer.old }
    ensures put { (code : List HqItem) → MakesEach code list.now → OnOk result (Behind (label_count buffer.old) code [] (buffer_state buffer.new) (places_of buffer.new)) }
    ensures refused { (code : List HqItem) → MakesEach code list.now → length code ≤ MOST_SPANS → IfErr result (λ refused. (refused.status ≡ HQ_NO_MEMORY) ⊎ FirstRefused (CantBePut (label_count buffer.old)) code refused.number refused.status) }
    ensures labels { label_count buffer.new ≡ label_count buffer.old }
{
    match Layout::new(alloc).assemble(list, buffer) {
        Ok(()) => Ok(()),
        Err(error) => Err(told_of(&error)),
    }
}

/// Puts items into a buffer that has nothing: those of code in their least layout, and behind them those of data.
fn put_items(
    alloc: Global,
    items: &[HqItem],
    buffer: &mut CodeBuffer<Global>,
) -> Result<(), Refused>
    requires { Begun 0 buffer.old }
    ensures put { OnOk result (Behind (length items.now) (items_of_code items.now) (data_of items.now) (buffer_state buffer.new) (places_of buffer.new)) }
    ensures tested { OnOk result (NoneRefused items.now) }
    ensures refused { IfErr result (λ refused. Denied items.now refused.number refused.status) }
{
    if items.len() > MOST_SPANS {
        return Err(Refused {
            number: 0,
            status: HQ_TOO_MANY,
        });
    }
    let mut list = Vec::new(alloc);
    let count = match list_code(items, &mut list) {
        Ok(count) => count,
        Err(refused) => return Err(refused),
    };
    if let Err(refused) = give_labels(items.len() as u32, buffer) {
        return Err(refused);
    }
    if let Err(refused) = put_code(alloc, &list, buffer) {
        return Err(refused);
    }
    match put_data(&items[count..], buffer) {
        Ok(()) => Ok(()),
        Err(refused) => Err(Refused {
            number: count + refused.number,
            status: refused.status,
        }),
    }
}

/// Tells the first item that refers to what has no position, or else that the list can't be finished for this reason.
fn unfinished(items: &[HqItem], buffer: &CodeBuffer<Global>, why: i32, done: &mut HqDone) -> i32
    requires places { HasPlaces (places_of buffer.now) items.now }
    requires nothing { done.old ≡ none_done }
    ensures { Unfinished items.now why done.new result }
{
    match first_open(items, buffer) {
        Some(number) => {
            done.items = number;
            HQ_UNBOUND
        }
        None => why,
    }
}

/// Assembles items into the front of some bytes, all of them or nothing: instructions, positions of labels, and jumps to them;
/// behind them data, which instructions refer to as constants or labels. The first item that is data begins it: behind that no
/// instruction and no jump may stand.
///
/// A label's number is below that of all items. Each jump has the shortest form in which all of them reach: no choice of forms
/// has fewer bytes. A jump to a label behind data has its long form. An instruction may refer to a label too. `uses` gets the
/// traps of the instructions, in their order, each at the position of its instruction. No late offset is known.
///
/// At `HQ_OK` `done` has how many items, bytes and traps there are, at `HQ_FULL` how many there would be. At another status
/// `bytes` and `uses` are 0, and `items` is the number of the item that is refused, from 0: the first that is none, or else the
/// first that has a fault or whose label or constant can't be bound, or else, at `HQ_UNBOUND`, the first that refers to what has no
/// position. At `HQ_TOO_MANY`, `HQ_OUT_OF_RANGE` and `HQ_NO_MEMORY` none is named, and `items` is 0.
///
/// It asks for memory, and has given all of it back when it answers.
#[unsafe(no_mangle)]
pub extern "C" fn hq_assemble(
    alloc: Global,
    items: &[HqItem],
    code: &mut [u8],
    uses: &mut [HqUse],
    done: &mut HqDone,
) -> i32
    ensures { AssembledAs items.now code.old code.new uses.old uses.new done.new result }
{
    let mut buffer = CodeBuffer::new(alloc);
    *done = HqDone::NOTHING;
    if let Err(refused) = put_items(alloc, items, &mut buffer) {
        done.items = number_told(refused);
        return refused.status;
    }
    let mut traps = Vec::new(alloc);
    if let Err(status) = list_traps(buffer.notices(), &mut traps) {
        return unfinished(items, &buffer, status, done);
    }
    if buffer.finish_in_place().is_err() {
        return unfinished(items, &buffer, HQ_OUT_OF_RANGE, done);
    }
    let bytes = buffer.bytes();
    let told = traps.as_slice();
    done.items = items.len();
    done.bytes = bytes.len();
    done.uses = told.len();
    if (code.len() < bytes.len()) | (uses.len() < told.len()) {
        return HQ_FULL;
    }
    code[..bytes.len()].copy_from_slice(bytes);
    uses[..told.len()].copy_from_slice(told);
    HQ_OK
}
