//! The README's example.

use cranelift_assembler_x64::inst::{andb_i, lock_addl_mr};
use cranelift_assembler_x64::reader::{RegView, read_inst};
use cranelift_assembler_x64::{
    Amode, DeferredTarget, Fixed, Gpr, Imm8, InstructionText, Notice, Numbers, Row, TrapCode,
};
use std::alloc::{AllocError, Global};
use std::num::NonZeroU8;
use std::process::Abort;
use std::test::Fail;
use x64_code_buffer::{CodeBuffer, Condition, Jump};

/// Whether an instruction has names for its registers, and this text.
fn prints<I: InstructionText>(alloc: Global, inst: &I, text: &str) -> Result<bool, AllocError> {
    Ok(inst.nameable() && inst.to_string(alloc)?.as_str() == text)
}

#[test]
fn an_atomic_addition_in_a_loop(rt: HostRuntime) -> Result<(), Fail> {
    let trap = TrapCode(NonZeroU8::new(5).ok_or("no code")?);
    let counter: Amode<u8> = Amode::base(12).displaced(-128).trapping(trap).into();
    let addition: lock_addl_mr<Numbers> = lock_addl_mr::new(counter, Gpr::new(9));
    let mask: andb_i<Numbers> = andb_i::new(Fixed(0), Imm8::new(0xAA));
    assert!(rt; prints(rt.alloc(), &addition, "lock addl %r9d, -0x80(%r12)")?);
    assert!(rt; prints(rt.alloc(), &mask, "andb $0xaa, %al")?);

    let mut buffer = CodeBuffer::new(rt.alloc());
    let top = buffer.new_label().expect(&rt, "memory");
    assert_eq!(rt; buffer.bind(top), Ok(()));
    assert_eq!(rt; buffer.push_checked(&addition), Ok(()));
    assert_eq!(rt; buffer.push_checked(&mask), Ok(()));
    let back = DeferredTarget::Label(top);
    assert_eq!(rt; buffer.push_jump(Jump::If(Condition::Ne), back), Ok(()));
    assert_eq!(rt; buffer.notices(), [Notice::Trap(0, trap)].as_slice());

    let code = buffer.finish().map_err(|_| "a label isn't bound")?;
    let expected = [0xF0, 0x45, 0x01, 0x4C, 0x24, 0x80, 0x24, 0xAA, 0x75, 0xF6];
    assert_eq!(rt; code.as_slice(), expected.as_slice());
    let reading = read_inst(code.as_slice()).ok_or("no reading")?;
    assert_eq!(rt; reading.row, Row::lock_addl_mr);
    assert_eq!(rt; reading.length, 6);
    assert_eq!(rt; reading.reg, Some(RegView::Low(9)));
    Ok(())
}
