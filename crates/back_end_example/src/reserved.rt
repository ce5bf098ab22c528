//! Room that is made at once for several instructions.

use client::push_three;
use cranelift_assembler_x64::inst::nop_3b;
use x64_code_buffer::CodeBuffer;

#[test]
fn three_instructions_are_pushed(rt: HostRuntime) {
    let mut buffer = CodeBuffer::new(rt.alloc());
    let inst = nop_3b::new();
    assert!(rt; push_three(&inst, &inst, &inst, &mut buffer).is_ok());
    assert!(rt;
        buffer.bytes() == [0x0F, 0x1F, 0x00, 0x0F, 0x1F, 0x00, 0x0F, 0x1F, 0x00].as_slice()
    );
}
