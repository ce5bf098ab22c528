//! Operands that hold registers, each generic in its family.
ghost use Rattle.std.specs.Prelude.{◌≡◌, ◌==◌, ◌&&◌, false, IsTrue};
ghost use Rattle.std.specs.Mem.{FitsInMemory};
ghost use Rattle.cax64_register.specs.Real.{is_real};
ghost use Rattle.cax64_register.specs.contracts.fixed.Fixed.{the_row};

use cax64_test_support::{Few, Virtual};
use cranelift_assembler_x64::gpr::enc::{R8, R12, RAX, RCX, RSP};
use cranelift_assembler_x64::xmm::enc::XMM15;
use cranelift_assembler_x64::{AsReg, Fixed, Gpr, NonRspGpr, Numbers, Registers, Size, Xmm};
use std::alloc::{AllocError, Global};
use std::fmt::Debug;
use std::test::Fail;

/// The number of the register that a family has for a number, if it has one.
fn number_back<R: AsReg>(number: u8) -> Option<u8>
    ensures some { IsTrue (R.accepts number) → result ≡ Some number }
    ensures none { R.accepts number ≡ false → result ≡ None }
{
    if R::accepts(number) {
        return Some(R::new(number).enc());
    }
    None
}

/// The numbers of the registers that a user's six types have for a number, if each has one.
fn numbers_of<R: Registers>(number: u8) -> Option<[u8; 6]> {
    Some([
        number_back::<R::ReadGpr>(number)?,
        number_back::<R::ReadWriteGpr>(number)?,
        number_back::<R::WriteGpr>(number)?,
        number_back::<R::ReadXmm>(number)?,
        number_back::<R::ReadWriteXmm>(number)?,
        number_back::<R::WriteXmm>(number)?,
    ])
}

/// The number of a user's read register, where it is real.
fn read_number<R: Registers>(operand: &Gpr<R::ReadGpr>) -> Option<u8>
    ensures real { IsTrue (is_real R.ReadGpr.settled R.ReadGpr.enc operand.now) →
        result ≡ Some (R.ReadGpr.enc operand.now) }
    ensures others { is_real R.ReadGpr.settled R.ReadGpr.enc operand.now ≡ false → result ≡ None }
{
    if operand.is_real() {
        return Some(operand.enc());
    }
    None
}

/// Whether a user's register is the one that an instruction fixes, by the register held.
fn is_accumulator<R: Registers>(held: &Fixed<R::ReadWriteGpr, RAX>) -> bool
    ensures { result ≡ (R.ReadWriteGpr.settled held.now.0 && (R.ReadWriteGpr.enc held.now.0 == 0)) }
{
    held.0.settled() && held.0.enc() == RAX
}

/// Operands compare as their registers do.
fn same_operands<R: AsReg>(first: R, second: R) -> bool
    ensures { result ≡ R.eq first second }
{
    let indexes = NonRspGpr::new(first) == NonRspGpr::new(second);
    let operands = Gpr::new(first) == Gpr::new(second);
    indexes && operands
}

/// So do fixed registers. A call on one of any family asks for its size.
fn same_fixed<R: AsReg, const E: u8>(first: R, second: R) -> bool
    requires { FitsInMemory (the_row R.row E.row) }
    ensures { result ≡ R.eq first second }
{
    Fixed::<R, E>(first) == Fixed::<R, E>(second)
}

/// A borrowed operand is the register that was written there.
fn replace_index<R: AsReg>(index: &mut NonRspGpr<R>, with: R)
    ensures { index.new ≡ with }
{
    *index.as_mut() = with;
}

fn replace_gpr<R: AsReg>(operand: &mut Gpr<R>, with: R)
    ensures { operand.new ≡ with }
{
    *operand.as_mut() = with;
}

fn replace_xmm<R: AsReg>(operand: &mut Xmm<R>, with: R)
    ensures { operand.new ≡ with }
{
    *operand.as_mut() = with;
}

/// A register into any operand that takes it, and a clone of that.
fn operand_of<R, T: From<R> + Clone>(reg: R) -> Result<T, AllocError> {
    T::from(reg).clone()
}

fn has_debug_text<T: Debug>(alloc: Global, value: &T) -> Result<bool, AllocError> {
    let text = format!(in alloc; "{value:?}")?;
    Ok(!text.is_empty())
}

#[test]
fn numbers_come_back(rt: HostRuntime) {
    assert!(rt; number_back::<u8>(200) == Some(200));
    assert!(rt; number_back::<Fixed<u8, RCX>>(RCX) == Some(1));
    assert!(rt; number_back::<Fixed<u8, RCX>>(RAX) == None);
    assert!(rt; number_back::<Fixed<Virtual, 16>>(16) == None);
    assert!(rt; numbers_of::<Numbers>(7) == Some([7; 6]));
    assert!(rt; read_number::<Numbers>(&Gpr::new(7)) == Some(7));
    assert!(rt; is_accumulator::<Numbers>(&Fixed(0)));
}

#[test]
fn a_fixed_register_is_settled_at_its_number(rt: HostRuntime) {
    let held = Fixed::<u8, RAX>(0);
    assert!(rt; held.settled() && held.is_real() && held.enc() == RAX && *held.as_ref() == 0);
    let other = Fixed::<u8, RAX>(42);
    assert!(rt; !other.settled() && !other.is_real() && other.expected_enc() == RAX);
    assert!(rt; same_fixed::<Virtual, RAX>(Virtual(2), Virtual(2)));
}

#[test]
fn operands_hold_registers(rt: HostRuntime) -> Result<(), AllocError> {
    let mut operand: Gpr = operand_of(R8)?;
    assert!(rt; operand.is_real() && operand.enc() == 8);
    replace_gpr(&mut operand, 16);
    assert!(rt; !operand.is_real() && *operand.as_ref() == 16);
    let mut vector: Xmm = operand_of(XMM15)?;
    assert!(rt; vector.is_real() && vector.enc() == 15);
    replace_xmm(&mut vector, 16);
    assert!(rt; !vector.is_real() && *vector.as_ref() == 16);
    assert!(rt; same_operands(Few(5), Few(5)) && !same_operands(Virtual(1), Virtual(2)));
    Ok(())
}

#[test]
fn an_index_is_not_the_stack_pointer(rt: HostRuntime) -> Result<(), AllocError> {
    let mut index: NonRspGpr<Virtual> = operand_of(Virtual(12))?;
    assert!(rt; index.is_real() && index.enc() == R12);
    replace_index(&mut index, Virtual(4));
    assert!(rt; !index.is_real() && *index.as_ref() == Virtual(4) && RSP == 4);
    assert!(rt; !NonRspGpr::new(Virtual(16)).is_real());
    let held: Fixed<Virtual, RAX> = operand_of(Virtual(9))?;
    assert!(rt; held == Fixed(Virtual(9)));
    Ok(())
}

#[test]
fn each_can_be_printed_for_debugging(rt: HostRuntime) -> Result<(), Fail> {
    assert!(rt; has_debug_text(rt.alloc(), &Gpr::new(RAX))?);
    assert!(rt; has_debug_text(rt.alloc(), &NonRspGpr::new(RAX))?);
    assert!(rt; has_debug_text(rt.alloc(), &Xmm::new(RAX))?);
    assert!(rt; has_debug_text(rt.alloc(), &Fixed::<u8, RAX>(RAX))?);
    assert!(rt; has_debug_text(rt.alloc(), &Size::Byte)?);
    Ok(())
}
