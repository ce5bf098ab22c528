//! Texts of errors.

use crate::making::{FIRST, POOL};
use cax64_sink::DeferredTarget;
use std::alloc::AllocError;
use x64_code_buffer::{BindError, FinishError};

#[test]
fn errors_of_binding_print(rt: HostRuntime) -> Result<(), AllocError> {
    let unknown = BindError::Unknown.to_string(rt.alloc())?;
    assert!(rt; unknown.as_str() == "the label isn't one that this buffer gave");
    let twice = BindError::Twice.to_string(rt.alloc())?;
    assert!(rt; twice.as_str() == "the label or constant is bound already");
    let memory = BindError::NoMemory.to_string(rt.alloc())?;
    assert!(rt; memory.as_str() == "no memory is left");
    Ok(())
}

#[test]
fn errors_of_finishing_print(rt: HostRuntime) -> Result<(), AllocError> {
    let label = FinishError::Unbound(FIRST).to_string(rt.alloc())?;
    assert!(rt; label.as_str() == "label 0 isn't bound");
    let constant = FinishError::Unbound(POOL).to_string(rt.alloc())?;
    assert!(rt; constant.as_str() == "constant 7 isn't bound");
    let none = FinishError::Unbound(DeferredTarget::None).to_string(rt.alloc())?;
    assert!(rt; none.as_str() == "a field refers to no label and no constant");
    let far = FinishError::TooFar(12).to_string(rt.alloc())?;
    assert!(rt;
        far.as_str()
            == "the field at byte 12 can't hold the distance; or the code ends before the field does"
    );
    Ok(())
}
