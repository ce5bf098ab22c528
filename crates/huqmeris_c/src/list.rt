//! Items as a list that can be laid out.

ghost use Rattle.std.specs.Prelude.{◌≡◌, ◌++◌, ◌⊎◌, ◌∷◌, [], IfErr, IfOk, List, OnOk};
ghost use Rattle.huqmeris_c.specs.Items.{FirstRefused, NoItem};
ghost use Rattle.huqmeris_c.specs.Putting.{ListedTo, Makes, MakesEach, NoCode};
ghost use Rattle.huqmeris_c.specs.declared.item.HqItem.{HqItem};
ghost use Rattle.huqmeris_c.specs.declared.status.TheConstants.{HQ_NO_MEMORY};

use crate::data_items::{code_len, first_bad};
use crate::item::{HQ_ITEM_INST, HQ_ITEM_LABEL, HqItem};
use crate::jump::jump_of;
use crate::status::{HQ_BAD_ITEM, HQ_NO_MEMORY};
use cax64_sink::Label;
use std::alloc::Global;
use x64_assemble::Item;
use x64_core::{Core, CorePlace};
use x64_plain::status::HQ_BAD_INST;

/// An item that is refused.
#[derive(Clone, Copy)]
pub(crate) struct Refused {
    pub(crate) number: usize,
    pub(crate) status: i32,
}

/// The item that these integers are, or why they are none.
fn item_of(item: &HqItem) -> Result<Item<Core>, i32>
    ensures made { IfOk result (λ x. Makes item.now x) }
    ensures refused { IfErr result (λ status. NoCode item.now status) }
{
    if item.kind == HQ_ITEM_INST {
        return match item.inst.core() {
            Some(core) => Ok(Item::Inst(core)),
            None => Err(HQ_BAD_INST),
        };
    }
    let label = Label(item.number);
    if item.kind == HQ_ITEM_LABEL {
        return Ok(Item::Bind(label));
    }
    match jump_of(item.kind) {
        Some(jump) => Ok(Item::Jump(jump, label)),
        None => Err(HQ_BAD_ITEM),
    }
}

/// Lists an item behind others.
fn list_item(item: &HqItem, list: &mut Vec<Item<Core>, Global>) -> Result<(), i32>
    ensures listed { (before : List HqItem) → MakesEach before list.old.items → OnOk result (MakesEach (before ++ item.now ∷ []) list.new.items) }
    ensures refused { IfErr result (λ status. (status ≡ HQ_NO_MEMORY) ⊎ NoCode item.now status) }
{
    // The prover wants this type named where a list of instructions is kept over a call.
    let _place = CorePlace::Absent;
    let item = match item_of(item) {
        Ok(item) => item,
        Err(status) => return Err(status),
    };
    if list.push(item).is_err() {
        return Err(HQ_NO_MEMORY);
    }
    Ok(())
}

/// Lists items of code.
fn list_items(items: &[HqItem], list: &mut Vec<Item<Core>, Global>) -> Result<(), Refused>
    requires { list.old.items ≡ [] }
    ensures listed { OnOk result (MakesEach items.now list.new.items) }
    ensures refused { IfErr result (λ refused. (refused.status ≡ HQ_NO_MEMORY) ⊎ FirstRefused (λ before. NoCode) items.now refused.number refused.status) }
{
    if list.reserve_exact(items.len()).is_err() {
        return Err(Refused {
            number: 0,
            status: HQ_NO_MEMORY,
        });
    }
    for i in 0..items.len() {
        if let Err(status) = list_item(&items[i], list) {
            return Err(Refused { number: i, status });
        }
    }
    Ok(())
}

/// Lists the items of code, and tells how many there are; tests the data behind them.
pub(crate) fn list_code(
    items: &[HqItem],
    list: &mut Vec<Item<Core>, Global>,
) -> Result<usize, Refused>
    requires { list.old.items ≡ [] }
    ensures listed { IfOk result (λ count. ListedTo items.now count list.new.items) }
    ensures refused { IfErr result (λ refused. (refused.status ≡ HQ_NO_MEMORY) ⊎ FirstRefused NoItem items.now refused.number refused.status) }
{
    let count = code_len(items);
    if let Err(refused) = list_items(&items[..count], list) {
        return Err(refused);
    }
    if let Some(number) = first_bad(&items[count..]) {
        return Err(Refused {
            number: count + number,
            status: HQ_BAD_ITEM,
        });
    }
    Ok(count)
}
