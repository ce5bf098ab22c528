//! The loop that `client` proves, over an instruction.

use client::until_equal;
use cranelift_assembler_x64::inst::nop_1b;
use x64_code_buffer::CodeBuffer;

/// `je` to the end, whose distance isn't known yet and has four bytes; `nop`; and `jmp` to the beginning, which two bytes reach.
#[test]
fn a_no_operation_goes_round(rt: HostRuntime) {
    let code = until_equal(CodeBuffer::new(rt.alloc()), &nop_1b::new()).expect(&rt, "memory");
    let expected = [0x0F, 0x84, 3, 0, 0, 0, 0x90, 0xEB, 0xF7];
    assert_eq!(rt; code.as_slice(), expected.as_slice());
}
