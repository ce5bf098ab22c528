//! Columns as they came.

use cax64_test_support::CallRecorder;
use cranelift_assembler_x64 as assembler;
use cranelift_assembler_x64::{DeferredTarget, Notice};
use named_instructions::fields::Fault;
use std::alloc::Global;

/// Hexadecimal pairs.
pub(crate) fn write_bytes(came: &mut String, bytes: &[u8]) -> Result<(), Fault> {
    if bytes.is_empty() {
        came.push('-')?;
    }
    for byte in bytes {
        write!(came, "{byte:02x}")?;
    }
    Ok(())
}

pub(crate) fn write_target(came: &mut String, target: DeferredTarget) -> Result<(), Fault> {
    match target {
        DeferredTarget::None => came.push_str("none")?,
        DeferredTarget::Label(label) => {
            let number = label.0;
            write!(came, "label:{number}")?;
        }
        DeferredTarget::Constant(constant) => {
            let number = constant.0;
            write!(came, "const:{number}")?;
        }
    }
    Ok(())
}

fn write_notice(came: &mut String, notice: Notice) -> Result<(), Fault> {
    match notice {
        Notice::Trap(place, code) => {
            let number = code.0;
            write!(came, "trap@{place}={number}")?;
            Ok(())
        }
        Notice::Target(place, target) => {
            write!(came, "target@{place}=")?;
            write_target(came, target)
        }
    }
}

/// Notices, with `;` between them.
pub(crate) fn write_notices(came: &mut String, notices: &[Notice]) -> Result<(), Fault> {
    if notices.is_empty() {
        came.push('-')?;
    }
    let mut separator = "";
    for notice in notices {
        came.push_str(separator)?;
        write_notice(came, *notice)?;
        separator = ";";
    }
    Ok(())
}

/// Bytes, calls and notices.
pub(crate) fn write_calls(came: &mut String, sink: &CallRecorder<Global>) -> Result<(), Fault> {
    write_bytes(came, sink.bytes())?;
    let calls = sink.calls();
    write!(came, "\t{calls}\t")?;
    write_notices(came, sink.notices())
}

/// Why an instruction can't be encoded.
pub(crate) fn write_fault(came: &mut String, fault: Option<assembler::Fault>) -> Result<(), Fault> {
    match fault {
        None => came.push('-')?,
        Some(assembler::Fault::Register(at)) => write!(came, "Register:{at}")?,
        Some(assembler::Fault::Index(at)) => write!(came, "Index:{at}")?,
        Some(assembler::Fault::Fixed(at)) => write!(came, "Fixed:{at}")?,
        Some(assembler::Fault::Unknown(key)) => write!(came, "Unknown:{key}")?,
        Some(assembler::Fault::Range) => came.push_str("Range")?,
    }
    Ok(())
}
