//! Errors that go on with `?`, and are told as any other error of a program.

use cranelift_assembler_x64::inst::lock_addl_mi_sxb;
use cranelift_assembler_x64::{
    Amode, CodeSink, EncodeError, Fault, FixedSink, Instruction, Numbers, OutOfRange, Refused,
    Simm8, SinkError, Stopped,
};
use std::alloc::{AllocError, Global};
use std::error::Error;
use x64_code_buffer::{BindError, FinishError};

/// Whether any error is told so.
fn tells<E: Error>(alloc: Global, error: &E, text: &str) -> Result<bool, AllocError> {
    Ok(error.to_string(alloc)?.as_str() == text)
}

/// Nothing, where the instruction can be encoded for the sink.
fn tested<I: Instruction, S: CodeSink>(inst: &I, sink: &S) -> Result<(), Fault> {
    match inst.first_fault(sink) {
        Some(fault) => Err(fault),
        None => Ok(()),
    }
}

/// Puts an instruction, and `int3` behind it. A fault and a refusal both go on as one error.
fn put_and_end<S: CodeSink>(
    inst: &lock_addl_mi_sxb<Numbers>,
    sink: &mut S,
) -> Result<(), EncodeError> {
    tested(inst, &*sink)?;
    inst.encode_checked(sink)?;
    sink.put1(0xCC)?;
    Ok(())
}

fn count(base: u8) -> lock_addl_mi_sxb<Numbers> {
    lock_addl_mi_sxb::new(Amode::base(base).into(), Simm8::new(1))
}

#[test]
fn a_fault_and_a_refusal_go_on(rt: HostRuntime) {
    let mut sink = FixedSink::<9>::new();
    assert_eq!(rt; put_and_end(&count(1), &mut sink), Ok(()));
    assert_eq!(rt; sink.bytes(), [0xF0, 0x83, 0x01, 1, 0xCC].as_slice());
    let fault = EncodeError::Fault(Fault::Register(0));
    assert_eq!(rt; put_and_end(&count(16), &mut sink), Err(fault));
    let full = EncodeError::Sink(SinkError::Full);
    assert_eq!(rt; put_and_end(&count(1), &mut sink), Err(full));
    assert_eq!(rt; sink.bytes().len(), 9);
}

#[test]
fn each_is_an_error(rt: HostRuntime) -> Result<(), AllocError> {
    let alloc = rt.alloc();
    let full = "the sink is full";
    assert!(rt; tells(alloc, &SinkError::Full, full)?);
    assert!(rt;
        tells(
            alloc,
            &OutOfRange,
            "the number doesn't fit in the immediate"
        )?
    );
    assert!(rt; tells(alloc, &Fault::Unknown(7), "the late offset 7 isn't known")?);
    assert!(rt; tells(alloc, &EncodeError::Sink(SinkError::Full), full)?);
    let refused = Refused {
        whole: 3,
        error: SinkError::Full,
    };
    let text = "instruction 3 of the list isn't whole: the sink is full";
    assert!(rt; tells(alloc, &refused, text)?);
    let stopped = Stopped {
        whole: 3,
        error: EncodeError::Sink(SinkError::Full),
    };
    assert!(rt; tells(alloc, &stopped, text)?);
    let bound = "the label or constant is bound already";
    assert!(rt; tells(alloc, &BindError::Twice, bound)?);
    let far =
        "the field at byte 12 can't hold the distance; or the code ends before the field does";
    assert!(rt; tells(alloc, &FinishError::TooFar(12), far)?);
    Ok(())
}
