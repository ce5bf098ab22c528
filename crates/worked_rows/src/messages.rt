//! Texts of errors.

use cranelift_assembler_x64::{EncodeError, Fault, OutOfRange, Refused, SinkError, Stopped};
use std::alloc::AllocError;

#[test]
fn errors_of_a_sink_print(rt: HostRuntime) -> Result<(), AllocError> {
    let alloc = rt.alloc();
    assert!(rt; SinkError::NoMemory.to_string(alloc)?.as_str() == "no memory is left");
    assert!(rt; SinkError::Full.to_string(alloc)?.as_str() == "the sink is full");
    Ok(())
}

#[test]
fn a_refused_list_prints(rt: HostRuntime) -> Result<(), AllocError> {
    let refused = Refused {
        whole: 3,
        error: SinkError::Full,
    };
    let text = refused.to_string(rt.alloc())?;
    assert!(rt; text.as_str() == "instruction 3 of the list isn't whole: the sink is full");
    Ok(())
}

#[test]
fn what_a_checked_call_found_prints(rt: HostRuntime) -> Result<(), AllocError> {
    let refused = EncodeError::Sink(SinkError::Full).to_string(rt.alloc())?;
    assert!(rt; refused.as_str() == "the sink is full");
    let fault = EncodeError::Fault(Fault::Unknown(7)).to_string(rt.alloc())?;
    assert!(rt; fault.as_str() == "the late offset 7 isn't known");
    let stopped = Stopped {
        whole: 3,
        error: EncodeError::Fault(Fault::Register(2)),
    };
    let text = stopped.to_string(rt.alloc())?;
    assert!(rt;
        text.as_str()
            == "instruction 3 of the list isn't whole: register 2 in the order of visits isn't real"
    );
    Ok(())
}

#[test]
fn a_number_out_of_range_prints(rt: HostRuntime) -> Result<(), AllocError> {
    let text = OutOfRange.to_string(rt.alloc())?;
    assert!(rt; text.as_str() == "the number doesn't fit in the immediate");
    Ok(())
}

#[test]
fn faults_of_registers_print(rt: HostRuntime) -> Result<(), AllocError> {
    let register = Fault::Register(2).to_string(rt.alloc())?;
    assert!(rt; register.as_str() == "register 2 in the order of visits isn't real");
    let index = Fault::Index(1).to_string(rt.alloc())?;
    assert!(rt;
        index.as_str()
            == "register 1 in the order of visits is the stack pointer, which can't be an index"
    );
    let fixed = Fault::Fixed(0).to_string(rt.alloc())?;
    assert!(rt;
        fixed.as_str() == "register 0 in the order of visits is fixed and doesn't hold its number"
    );
    Ok(())
}

#[test]
fn faults_of_a_late_offset_print(rt: HostRuntime) -> Result<(), AllocError> {
    let unknown = Fault::Unknown(7).to_string(rt.alloc())?;
    assert!(rt; unknown.as_str() == "the late offset 7 isn't known");
    let range = Fault::Range.to_string(rt.alloc())?;
    assert!(rt; range.as_str() == "the late offset plus the displacement doesn't fit in 32 bits");
    Ok(())
}
