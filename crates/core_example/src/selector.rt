//! Instructions of the core: which line one is of, is said when the program runs.

use huqmeris::makers::RegMem;
use huqmeris::ops::rows::{JMP_D8, LOCK_ADDB_MR, LOCK_ADDL_MR, LOCK_ADDQ_MR, LOCK_ADDW_MR};
use huqmeris::{
    Amode, AmodeOffset, AmodeOffsetPlusKnownOffset, CodeSink, Core, CorePlace, EncodeError, Fault,
    OperandError, Recorder, Size, read_core,
};

/// The line of a locked addition of a register to memory, by the size of both.
fn addition(size: Size) -> RegMem {
    match size {
        Size::Byte => LOCK_ADDB_MR,
        Size::Word => LOCK_ADDW_MR,
        Size::Doubleword => LOCK_ADDL_MR,
        Size::Quadword => LOCK_ADDQ_MR,
    }
}

/// The bytes behind a register.
fn behind(base: u8, bytes: i32) -> Amode<u8> {
    Amode::ImmReg {
        base,
        simm32: AmodeOffsetPlusKnownOffset {
            simm32: AmodeOffset::new(bytes),
            offset: None,
        },
        trap: None,
    }
}

/// The home of each register: those from 16 on are virtual, and so many of them have one.
fn homes(assigned: &[u8]) -> [u8; 256] {
    let mut homes = [0; 256];
    let mut number = 0u8;
    for home in &mut homes {
        *home = number;
        number = number.wrapping_add(1);
    }
    for (home, assigned) in homes.iter_mut().skip(16).zip(assigned) {
        *home = *assigned;
    }
    homes
}

/// Renames and puts a list, whose instructions keep their virtual registers. A fault leaves what stands before it.
fn put_renamed<S: CodeSink>(
    insts: &[Core],
    homes: &[u8; 256],
    sink: &mut S,
) -> Result<(), EncodeError> {
    for inst in insts {
        let mut settled = *inst;
        settled.rename(homes);
        settled.encode_checked(sink)?;
    }
    Ok(())
}

#[test]
fn a_selector_makes_lines_by_size(rt: HostRuntime) {
    let mut sink = Recorder::new(rt.alloc());
    for size in [Size::Doubleword, Size::Quadword] {
        let add = addition(size).mem(17, behind(16, 4));
        assert_eq!(rt;
            add.encode_checked(&mut sink),
            Err(EncodeError::Fault(Fault::Register(0)))
        );
        assert_eq!(rt; put_renamed(&[add], &homes(&[3, 1]), &mut sink), Ok(()));
    }
    let bytes = [0xF0, 0x01, 0x4B, 0x04, 0xF0, 0x48, 0x01, 0x4B, 0x04];
    assert_eq!(rt; sink.bytes(), bytes.as_slice());
}

#[test]
fn operands_that_a_line_does_not_take_are_refused(rt: HostRuntime) {
    let line = addition(Size::Doubleword).op();
    let made = Core::new(line, Some(1), None, CorePlace::Register(3), None);
    assert_eq!(rt; made, Err(OperandError::Place));
    let place = CorePlace::of_amode(&behind(3, 4));
    assert_eq!(rt;
        Core::new(line, None, None, place, None),
        Err(OperandError::Register)
    );
    let made = Core::new(JMP_D8.op(), None, None, CorePlace::Absent, Some(128));
    assert_eq!(rt; made, Err(OperandError::Range));
}

#[test]
fn a_reading_becomes_an_instruction_again(rt: HostRuntime) {
    let bytes = [0xF0, 0x01, 0x8B, 4, 0, 0, 0];
    let reading = read_core(&bytes).expect(&rt, "an instruction");
    let add = Core::of_reading(&reading).expect(&rt, "one of the core");
    assert_eq!(rt; add, LOCK_ADDL_MR.mem(1, behind(3, 4)));
    let mut sink = Recorder::new(rt.alloc());
    assert_eq!(rt; add.encode_checked(&mut sink), Ok(()));
    assert_eq!(rt; sink.bytes(), [0xF0, 0x01, 0x4B, 0x04].as_slice());
}
