//! The calls that a back end makes, which meet the conditions of `encode` by a test at run time.

ghost use Rattle.std.specs.Prelude.{◌≡◌, ◌↔◌, All, IfOk, IsTrue};
ghost use Rattle.cranelift_assembler_x64.specs.Instruction.{can_encode_in, fault_in};

use cranelift_assembler_x64::{
    CodeSink, Fault, Inst, Instruction, Numbers, Refused, SinkError, all_encodable, encode_all,
    encode_each,
};

/// Encodes an instruction if it can be encoded, and says whether it did.
pub fn encode_if_encodable<I: Instruction, S: CodeSink>(
    inst: &I,
    sink: &mut S,
) -> Result<bool, SinkError>
    ensures { IfOk result (λ done. done ≡ can_encode_in (S.state sink.old) (I.meant inst.now)) }
{
    if inst.is_encodable(&*sink) {
        inst.encode(sink)?;
        Ok(true)
    } else {
        Ok(false)
    }
}

/// Encodes an instruction, or says why it can't be encoded.
pub fn encode_or_tell<I: Instruction, S: CodeSink>(
    inst: &I,
    sink: &mut S,
) -> Result<Option<Fault>, SinkError>
    ensures { IfOk result (λ fault. fault ≡ fault_in (S.state sink.old) (I.meant inst.now)) }
{
    match inst.first_fault(&*sink) {
        None => inst.encode(sink).map(|()| None),
        Some(fault) => Ok(Some(fault)),
    }
}

/// The same of a list: each is tested before the first is encoded.
pub fn encode_all_if_encodable<S: CodeSink>(
    insts: &[Inst<Numbers>],
    sink: &mut S,
) -> Result<bool, Refused> {
    if insts.iter().all(|inst| inst.is_encodable(&*sink)) {
        encode_all(insts, sink)?;
        Ok(true)
    } else {
        Ok(false)
    }
}

/// The same of instructions of any one type, and so of an [`Inst`] over any family of registers. A refusal says how many
/// are whole.
pub fn encode_each_if_encodable<I: Instruction, S: CodeSink>(
    insts: &[I],
    sink: &mut S,
) -> Result<bool, Refused>
    ensures { IfOk result (λ done.
        IsTrue done ↔ All (λ i. IsTrue (can_encode_in (S.state sink.old) (I.meant i))) insts.now) }
{
    if all_encodable(insts, &*sink) {
        encode_each(insts, sink)?;
        Ok(true)
    } else {
        Ok(false)
    }
}
