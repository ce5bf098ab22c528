//! A function with a loop, a label and a constant; and its code, read and printed.

use huqmeris::gpr::enc::{RAX, RDI};
use huqmeris::ops::arithmetic::{ADDQ_RM, SUBQ_MI_SXB, XORL_RM};
use huqmeris::ops::control::RETQ_ZO;
use huqmeris::{
    Amode, CodeBuffer, Condition, Constant, Core, CoreText, DeferredTarget, Jump, read_core,
};
use std::alloc::Global;

/// `fn(n) { sum = 0; do { sum += 7000000000; n -= 1 } while n != 0; sum }`, with `n` in `rdi`.
fn function(buffer: &mut CodeBuffer<Global>) -> Option<()> {
    let number = Constant(0);
    let memory = Amode::RipRelative {
        target: DeferredTarget::Constant(number),
    };
    let top = buffer.new_label().ok()?;
    buffer.push_checked(&XORL_RM.regs(RAX, RAX)).ok()?;
    buffer.bind(top).ok()?;
    buffer.push_checked(&ADDQ_RM.mem(RAX, memory)).ok()?;
    buffer.push_checked(&SUBQ_MI_SXB.reg(RDI, 1)).ok()?;
    let back = DeferredTarget::Label(top);
    buffer.push_jump(Jump::If(Condition::Ne), back).ok()?;
    buffer.push_checked(&RETQ_ZO.bare()).ok()?;
    buffer.bind_constant(number).ok()?;
    buffer.put_bytes(&7000000000u64.to_le_bytes()).ok()
}

/// The texts of so many instructions at the front of some code. What reads as relative has a distance, and no target any more,
/// so it makes no instruction.
fn listing(alloc: Global, mut code: &[u8], count: usize) -> Option<String> {
    let mut text = String::new(alloc);
    for _ in 0..count {
        let reading = read_core(code)?;
        match Core::of_reading(&reading) {
            Some(core) if core.nameable() => {
                text.push_str(core.to_string(alloc).ok()?.as_str()).ok()?
            }
            _ => text.push_str("relative").ok()?,
        }
        text.push_str("\n").ok()?;
        code = code.get(usize::from(reading.length)..)?;
    }
    Some(text)
}

#[test]
fn a_function_is_put_read_and_printed(rt: HostRuntime) {
    let mut buffer = CodeBuffer::new(rt.alloc());
    assert!(rt; function(&mut buffer) == Some(()));
    let code = buffer.finish().ok().expect(&rt, "code");
    let expected = [
        0x33, 0xC0, 0x48, 0x03, 0x05, 7, 0, 0, 0, 0x48, 0x83, 0xEF, 1, 0x75, 0xF3, 0xC3, 0, 0x86,
        0x3B, 0xA1, 1, 0, 0, 0,
    ];
    assert!(rt; code.as_slice() == expected.as_slice());
    let text = listing(rt.alloc(), code.as_slice(), 5).expect(&rt, "a text");
    assert_eq!(rt;
        text.as_str(),
        "xorl %eax, %eax\nrelative\nsubq $0x1, %rdi\njne 0xfffffffffffffff5\nretq\n"
    );
}
