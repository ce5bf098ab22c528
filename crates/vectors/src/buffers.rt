//! The code buffer.

use crate::columns::{write_bytes, write_notices, write_target};
use crate::lists::has_changed;
use crate::of_core::{core_if_any, note_core};
use cranelift_assembler_x64::{
    CodeSink, Constant, DeferredTarget, Instruction, Label, Numbers, RowAndOperands, SinkError,
};
use named_instructions::address::target_of;
use named_instructions::fields::{Fault, Fields, parsed};
use named_instructions::{TakesInstruction, take_instruction};
use std::alloc::Global;
use x64_code_buffer::{BindError, CodeBuffer, Condition, FinishError, Jump, patched_field};

/// A field of four bytes, once its target is known.
pub(crate) fn answer_patched(fields: &mut Fields<'_>, came: &mut String) -> Result<(), Fault> {
    let place = parsed::<u64>(fields.text()?)?;
    let target = parsed::<u64>(fields.text()?)?;
    let stored = parsed::<i32>(fields.text()?)?;
    match patched_field(place, target, stored) {
        Some(field) => write!(came, "{field}")?,
        None => came.push('-')?,
    }
    Ok(())
}

/// A buffer that instructions are pushed to.
#[derive(Drop)]
struct Pushed {
    buffer: CodeBuffer<Global>,
    /// Whether an instruction of the core is pushed in the place of one that it is.
    of_core: bool,
    /// How many of them are.
    cores: usize,
}

impl Pushed {
    fn new(alloc: Global, of_core: bool) -> Pushed {
        Pushed {
            buffer: CodeBuffer::new(alloc),
            of_core,
            cores: 0,
        }
    }
}

impl TakesInstruction for Pushed {
    type Answer = Result<(), Fault>;

    fn take<I: RowAndOperands<Family = Numbers> + Drop>(&mut self, inst: I) -> Result<(), Fault> {
        if !inst.is_encodable(&self.buffer) {
            return Err(Fault::Malformed);
        }
        if !self.of_core {
            return self.buffer.push(&inst).map_err(|_| Fault::NoMemory);
        }
        let Some(core) = core_if_any(&inst, &self.buffer)? else {
            return self.buffer.push(&inst).map_err(|_| Fault::NoMemory);
        };
        self.cores = self.cores.saturating_add(1);
        self.buffer.push_checked(&core).map_err(|_| Fault::NoMemory)
    }
}

fn label_of(text: &str) -> Result<Label, Fault> {
    match target_of(text)? {
        DeferredTarget::Label(label) => Ok(label),
        _ => Err(Fault::Malformed),
    }
}

fn constant_of(text: &str) -> Result<Constant, Fault> {
    match target_of(text)? {
        DeferredTarget::Constant(constant) => Ok(constant),
        _ => Err(Fault::Malformed),
    }
}

fn new_label(buffer: &mut CodeBuffer<Global>, came: &mut String) -> Result<(), Fault> {
    let label = buffer.new_label().map_err(|_| Fault::NoMemory)?;
    write_target(came, DeferredTarget::Label(label))
}

fn write_bound(came: &mut String, bound: Result<(), BindError>) -> Result<(), Fault> {
    came.push_str(match bound {
        Ok(()) => "Ok",
        Err(BindError::Unknown) => "Unknown",
        Err(BindError::Twice) => "Twice",
        Err(BindError::NoMemory) => return Err(Fault::NoMemory),
    })?;
    Ok(())
}

/// The jump or the call of a mnemonic.
fn jump_of(mnemonic: &str) -> Result<Jump, Fault> {
    Ok(match mnemonic {
        "call" => Jump::Call,
        "jmp" => Jump::Always,
        "jo" => Jump::If(Condition::O),
        "jno" => Jump::If(Condition::No),
        "jb" => Jump::If(Condition::B),
        "jae" => Jump::If(Condition::Ae),
        "je" => Jump::If(Condition::E),
        "jne" => Jump::If(Condition::Ne),
        "jbe" => Jump::If(Condition::Be),
        "ja" => Jump::If(Condition::A),
        "js" => Jump::If(Condition::S),
        "jns" => Jump::If(Condition::Ns),
        "jp" => Jump::If(Condition::P),
        "jnp" => Jump::If(Condition::Np),
        "jl" => Jump::If(Condition::L),
        "jge" => Jump::If(Condition::Ge),
        "jle" => Jump::If(Condition::Le),
        "jg" => Jump::If(Condition::G),
        _ => return Err(Fault::Malformed),
    })
}

fn push_jump(buffer: &mut CodeBuffer<Global>, argument: &str) -> Result<(), Fault> {
    let (mnemonic, target) = argument.split_once(' ').ok_or(Fault::Malformed)?;
    let jump = jump_of(mnemonic)?;
    buffer
        .push_jump(jump, target_of(target)?)
        .map_err(|_| Fault::NoMemory)
}

/// Puts a number of so many bytes.
fn put(buffer: &mut CodeBuffer<Global>, call: &str, value: &str) -> Result<(), Fault> {
    let done: Result<(), SinkError> = match call {
        "put1" => buffer.put1(parsed(value)?),
        "put2" => buffer.put2(parsed(value)?),
        "put4" => buffer.put4(parsed(value)?),
        "put8" => buffer.put8(parsed(value)?),
        "use_target" => buffer.use_target(target_of(value)?),
        _ => return Err(Fault::Malformed),
    };
    done.map_err(|_| Fault::NoMemory)
}

/// Makes a call that has an argument, and writes its answer.
fn make_call(
    pushed: &mut Pushed,
    call: &str,
    argument: &str,
    came: &mut String,
) -> Result<(), Fault> {
    match call {
        "bind" => {
            let bound = pushed.buffer.bind(label_of(argument)?);
            write_bound(came, bound)
        }
        "bind_constant" => {
            let bound = pushed.buffer.bind_constant(constant_of(argument)?);
            write_bound(came, bound)
        }
        "push" => {
            let (name, values) = argument.split_once(' ').ok_or(Fault::Malformed)?;
            take_instruction(name, values, pushed)??;
            write_bound(came, Ok(()))
        }
        "jump" => {
            push_jump(&mut pushed.buffer, argument)?;
            write_bound(came, Ok(()))
        }
        _ => {
            put(&mut pushed.buffer, call, argument)?;
            write_bound(came, Ok(()))
        }
    }
}

/// Makes the calls of a script, and writes the answer of each: `-` where there is none.
fn run_script(pushed: &mut Pushed, script: &str, came: &mut String) -> Result<(), Fault> {
    if script == "-" {
        came.push('-')?;
        return Ok(());
    }
    let mut is_first = true;
    for step in script.split(" | ") {
        if !is_first {
            came.push_str(" | ")?;
        }
        is_first = false;
        match step.split_once(' ') {
            Some((call, argument)) => {
                make_call(pushed, call, argument, came)?;
            }
            None if step == "new_label" => new_label(&mut pushed.buffer, came)?,
            None => return Err(Fault::Malformed),
        }
    }
    Ok(())
}

fn write_finished(came: &mut String, buffer: CodeBuffer<Global>) -> Result<(), Fault> {
    match buffer.finish() {
        Ok(code) => {
            came.push_str("ok:")?;
            write_bytes(came, code.as_slice())
        }
        Err((_, FinishError::Unbound(target))) => {
            came.push_str("Unbound:")?;
            write_target(came, target)
        }
        Err((_, FinishError::TooFar(place))) => {
            write!(came, "TooFar:{place}")?;
            Ok(())
        }
    }
}

/// The answers of a buffer from its making to its end, its notices and its code. Answers how many instructions of the core it has.
fn write_buffer(mut pushed: Pushed, script: &str, came: &mut String) -> Result<usize, Fault> {
    run_script(&mut pushed, script, came)?;
    came.push('\t')?;
    write_notices(came, pushed.buffer.notices())?;
    came.push('\t')?;
    write_finished(came, pushed.buffer)?;
    Ok(pushed.cores)
}

/// What comes of a buffer, and whether instructions of the core are pushed to it too. The first of two stages, in which an 8-bit
/// form with a digit of 4 to 7 had a REX byte for the digit, is passed over where such a form is pushed.
pub(crate) fn answer_buffer(
    alloc: Global,
    fields: &mut Fields<'_>,
    came: &mut String,
) -> Result<bool, Fault> {
    let stage = fields.text()?;
    let script = fields.text()?;
    if stage == "1" && has_changed(script) {
        return Err(Fault::PassedOver);
    }
    let mut of_core = String::new(alloc);
    write_buffer(Pushed::new(alloc, false), script, came)?;
    let cores = write_buffer(Pushed::new(alloc, true), script, &mut of_core)?;
    note_core(came, of_core.as_str())?;
    Ok(cores > 0)
}

/// The code of a buffer with jumps. Answers how many instructions of the core it has.
fn write_jumps(
    alloc: Global,
    mut pushed: Pushed,
    script: &str,
    came: &mut String,
) -> Result<usize, Fault> {
    let mut answers = String::new(alloc);
    run_script(&mut pushed, script, &mut answers)?;
    write_finished(came, pushed.buffer)?;
    Ok(pushed.cores)
}

/// The bytes of a buffer with jumps, and whether instructions of the core are pushed to it too.
pub(crate) fn answer_jumps(
    alloc: Global,
    fields: &mut Fields<'_>,
    came: &mut String,
) -> Result<bool, Fault> {
    let script = fields.text()?;
    let mut of_core = String::new(alloc);
    write_jumps(alloc, Pushed::new(alloc, false), script, came)?;
    let cores = write_jumps(alloc, Pushed::new(alloc, true), script, &mut of_core)?;
    note_core(came, of_core.as_str())?;
    Ok(cores > 0)
}
