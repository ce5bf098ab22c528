//! Lists that are refused, which leave a buffer as it was.

use crate::making::with_labels;
use cax64_address::amode::Amode;
use cax64_address::offset::AmodeOffsetPlusKnownOffset;
use cax64_encoder::Fault;
use cax64_operand::Numbers;
use cax64_register::Gpr;
use cax64_sink::{DeferredTarget, Label};
use lock_a::lock_addl_mr;
use std::alloc::{AllocError, Global};
use std::error::Error;
use x64_assemble::{Item, Layout, LayoutError};
use x64_code_buffer::BindError;

/// An addition to memory, which has a fault if its base is no register.
fn addition(base: u8) -> Item<lock_addl_mr<Numbers>> {
    let place = Amode::ImmReg {
        base,
        simm32: AmodeOffsetPlusKnownOffset::ZERO,
        trap: None,
    };
    Item::Inst(lock_addl_mr::<Numbers>::new(place, Gpr::new(1)))
}

#[test]
fn the_first_item_that_is_refused_decides(rt: HostRuntime) {
    let mut layout = Layout::new(rt.alloc());
    let mut buffer = with_labels(rt.alloc()).expect(&rt, "memory");
    let twice = [Item::Bind(Label(0)), Item::Bind(Label(0)), addition(20)];
    let refused = layout.assemble(&twice, &mut buffer);
    assert!(rt; refused == Err(LayoutError::Bind(1, BindError::Twice)));
    let unknown = [Item::Bind(Label(7)), addition(20)];
    let refused = layout.assemble(&unknown, &mut buffer);
    assert!(rt; refused == Err(LayoutError::Bind(0, BindError::Unknown)));
    let faulty = [addition(1), addition(20), Item::Bind(Label(7))];
    let refused = layout.assemble(&faulty, &mut buffer);
    assert!(rt; refused == Err(LayoutError::Fault(1, Fault::Register(0))));
    assert!(rt; buffer.bytes().is_empty());
    assert!(rt; buffer.place_of(DeferredTarget::Label(Label(0))) == None);
    assert!(rt; buffer.bind(Label(0)).is_ok());
    let bound = [Item::Bind(Label(0)), addition(1)];
    let refused = layout.assemble(&bound, &mut buffer);
    assert!(rt; refused == Err(LayoutError::Bind(0, BindError::Twice)));
    assert!(rt; buffer.bytes().is_empty());
}

/// Whether any error is told so.
fn tells<E: Error>(alloc: Global, error: &E, text: &str) -> Result<bool, AllocError> {
    Ok(error.to_string(alloc)?.as_str() == text)
}

#[test]
fn refusals_print(rt: HostRuntime) -> Result<(), AllocError> {
    let alloc = rt.alloc();
    let fault = LayoutError::Fault(1, Fault::Unknown(7));
    let text = "item 1 of the list can't be encoded: the late offset 7 isn't known";
    assert!(rt; tells(alloc, &fault, text)?);
    let twice = LayoutError::Bind(2, BindError::Twice);
    let text = "item 2 of the list can't be bound: the label or constant is bound already";
    assert!(rt; tells(alloc, &twice, text)?);
    assert!(rt;
        tells(
            alloc,
            &LayoutError::TooMany,
            "the list has more than 165191049 items"
        )?
    );
    assert!(rt; tells(alloc, &LayoutError::NoMemory, "no memory is left")?);
    Ok(())
}
