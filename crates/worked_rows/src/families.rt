//! Instructions, tails and lists over families of registers that aren't plain numbers.

use cax64_test_support::{All, Few, Named, Virtual};
use cranelift_assembler_x64::inst::{andb_i, andps_a, lock_addl_mr, lock_xaddl_mr};
use cranelift_assembler_x64::{
    Amode, AmodeOffset, AmodeOffsetPlusKnownOffset, AsReg, CodeSink, Fault, Fixed, Gpr, Imm8,
    Instruction, NonRspGpr, Scale, Size, Xmm, XmmMem, all_encodable, emit_modrm_sib_disp,
    encode_each,
};
use std::alloc::{AllocFailed, Global};
use std::test::Fail;

/// The family's register of a number.
fn reg<R: AsReg>(number: u8) -> Result<R, Fail> {
    if R::accepts(number) {
        return Ok(R::new(number));
    }
    Err("the family has no such register".into())
}

fn based<R: AsReg>(base: R) -> Amode<R> {
    Amode::ImmReg {
        base,
        simm32: AmodeOffsetPlusKnownOffset::ZERO,
        trap: None,
    }
}

fn indexed<R: AsReg>(base: R, index: R) -> Amode<R> {
    Amode::ImmRegRegShift {
        base,
        index: NonRspGpr::new(index),
        scale: Scale::Two,
        simm32: AmodeOffset::ZERO,
        trap: None,
    }
}

fn add<R: AsReg>(place: Amode<R>, register: R) -> lock_addl_mr<All<R>> {
    lock_addl_mr::new(place, Gpr::new(register))
}

/// Encodes a list, if each of it is encodable. Answers whether it did.
fn put<I: Instruction, S: CodeSink>(insts: &[I], sink: &mut S) -> bool {
    all_encodable(insts, &*sink) && encode_each(insts, sink).is_ok()
}

fn no_memory<T: Drop>(_failed: AllocFailed<T>) -> Fail {
    "no memory".into()
}

/// The bytes of a tail, where it is addressable.
fn tail<R: AsReg>(alloc: Global, enc_g: u8, place: &Amode<R>) -> Option<Vec<u8>> {
    let mut sink = Vec::new(alloc);
    if !place.is_addressable(&sink) {
        return None;
    }
    match emit_modrm_sib_disp(&mut sink, enc_g, place, 0, None) {
        Ok(()) => Some(sink),
        Err(_) => None,
    }
}

fn are(bytes: Option<Vec<u8>>, wanted: &[u8]) -> bool {
    match bytes {
        Some(bytes) => bytes.as_slice() == wanted,
        None => false,
    }
}

const LIST: [u8; 10] = [0xF0, 0x41, 0x01, 0x45, 0x00, 0xF0, 0x44, 0x01, 0x2C, 0x68];

/// Additions with registers 0, 5 and 13 of the family.
fn with_real<R: AsReg>(alloc: Global) -> Result<Vec<lock_addl_mr<All<R>>>, Fail> {
    let (zero, five, thirteen) = (reg::<R>(0)?, reg::<R>(5)?, reg::<R>(13)?);
    let mut list = Vec::new(alloc);
    list.push(add(based(thirteen), zero)).map_err(no_memory)?;
    list.push(add(indexed(zero, five), thirteen))
        .map_err(no_memory)?;
    Ok(list)
}

/// Additions of which the second holds a register of the caller's.
fn with_other<R: AsReg>(alloc: Global, other: R) -> Result<Vec<lock_addl_mr<All<R>>>, Fail> {
    let zero = reg::<R>(0)?;
    let mut list = Vec::new(alloc);
    list.push(add(based(zero), zero)).map_err(no_memory)?;
    list.push(add(based(other), zero)).map_err(no_memory)?;
    Ok(list)
}

/// Whether tails with registers 5 and 13 are the hardware's.
fn has_tails<R: AsReg>(alloc: Global) -> Result<bool, Fail> {
    let (five, thirteen) = (reg::<R>(5)?, reg::<R>(13)?);
    Ok(
        are(tail(alloc, 0, &based(five)), &[0x45, 0x00])
            && are(
                tail(alloc, 5, &indexed(thirteen, five)),
                &[0x6C, 0x6D, 0x00],
            ),
    )
}

/// Why the instruction can't be encoded.
fn fault<I: Instruction + Drop>(alloc: Global, inst: I) -> Option<Fault> {
    let sink: Vec<u8> = Vec::new(alloc);
    let fault = inst.first_fault(&sink);
    if inst.is_encodable(&sink) == fault.is_none() {
        fault
    } else {
        None
    }
}

fn mask_fault<R: AsReg>(alloc: Global, register: R) -> Option<Fault> {
    let mask: andb_i<All<R>> = andb_i::new(Fixed(register), Imm8::new(0xAA));
    fault(alloc, mask)
}

fn vector_fault<R: AsReg>(alloc: Global, first: R, second: R) -> Option<Fault> {
    let and: andps_a<All<R>> = andps_a::new(Xmm::new(first), XmmMem::Xmm(second));
    fault(alloc, and)
}

fn exchange_fault<R: AsReg>(alloc: Global, place: Amode<R>, register: R) -> Option<Fault> {
    let exchange: lock_xaddl_mr<All<R>> = lock_xaddl_mr::new(place, Gpr::new(register));
    fault(alloc, exchange)
}

/// Whether an instruction that holds a register that isn't real is refused at the register's place.
fn refuses<R: AsReg>(alloc: Global, other: R) -> Result<bool, Fail> {
    let zero = reg::<R>(0)?;
    Ok(
        fault(alloc, add(based(other), zero)) == Some(Fault::Register(0))
            && fault(alloc, add(indexed(zero, other), zero)) == Some(Fault::Register(1))
            && exchange_fault(alloc, based(other), zero) == Some(Fault::Register(1))
            && vector_fault(alloc, zero, other) == Some(Fault::Register(1))
            && mask_fault(alloc, other) == Some(Fault::Fixed(0)),
    )
}

/// Whether a list with real registers alone is encoded, and one with another register isn't.
fn holds_real_registers_alone<R: AsReg>(alloc: Global, other: R) -> Result<bool, Fail> {
    let mut sink: Vec<u8> = Vec::new(alloc);
    let is_encoded = put(&with_real::<R>(alloc)?, &mut sink);
    let is_refused = !put(&with_other(alloc, other)?, &mut sink);
    Ok(is_encoded && is_refused && sink.as_slice() == LIST.as_slice())
}

#[test]
fn lists_hold_real_registers_alone(rt: HostRuntime) -> Result<(), Fail> {
    assert!(rt; holds_real_registers_alone(rt.alloc(), Virtual(200))?);
    assert!(rt; holds_real_registers_alone(rt.alloc(), Few(7))?);
    assert!(rt; holds_real_registers_alone(rt.alloc(), Named(200))?);
    Ok(())
}

#[test]
fn registers_that_may_be_virtual(rt: HostRuntime) -> Result<(), Fail> {
    assert!(rt; has_tails::<Virtual>(rt.alloc())?);
    assert!(rt;
        refuses(rt.alloc(), Virtual(200))? && tail(rt.alloc(), 0, &based(Virtual(200))).is_none()
    );
    assert!(rt; refuses(rt.alloc(), Virtual(0xFFFF_FF00))?);
    let at_stack = indexed(Virtual(0), Virtual(4));
    assert!(rt; fault(rt.alloc(), add(at_stack, Virtual(1))) == Some(Fault::Index(1)));
    let at_twelve = indexed(Virtual(0), Virtual(12));
    assert!(rt; fault(rt.alloc(), add(at_twelve, Virtual(1))) == None);
    assert!(rt; !Virtual::accepts(16));
    Ok(())
}

#[test]
fn three_registers_alone(rt: HostRuntime) -> Result<(), Fail> {
    assert!(rt; has_tails::<Few>(rt.alloc())?);
    assert!(rt; refuses(rt.alloc(), Few(7))? && tail(rt.alloc(), 0, &based(Few(7))).is_none());
    assert!(rt; mask_fault(rt.alloc(), Few(13)) == Some(Fault::Fixed(0)));
    assert!(rt; !Few::accepts(4) && !Few::accepts(16));
    Ok(())
}

#[test]
fn registers_that_always_have_a_name(rt: HostRuntime) -> Result<(), Fail> {
    assert!(rt; has_tails::<Named>(rt.alloc())?);
    assert!(rt;
        refuses(rt.alloc(), Named(200))? && tail(rt.alloc(), 0, &based(Named(200))).is_none()
    );
    assert!(rt; !Gpr::new(Named(130)).is_real());
    let name = Gpr::new(Named(130)).to_string(rt.alloc(), Size::Quadword)?;
    assert!(rt; name.as_str() == "v130");
    Ok(())
}
