//! What a visitor puts in the place of registers stands in the machine code.

ghost use Rattle.std.specs.Prelude.{◌≡◌, IsTrue, IfOk};
ghost use Rattle.cranelift_assembler_x64.specs.Instruction.{Adds};
ghost use Rattle.cranelift_assembler_x64.specs.Renamed.{Renaming, Renames, renamed_operands};

use cranelift_assembler_x64::{
    CodeSink, Instruction, RegisterVisitor, Registers, SinkError, rename,
};

/// Renames the registers of an instruction, and puts it if it can be encoded then: as one that was made with the new
/// registers.
pub fn put_renamed<I: Instruction, V: RegisterVisitor<I::Family>, S: CodeSink>(
    inst: &mut I,
    visitor: &mut V,
    sink: &mut S,
) -> Result<bool, SinkError>
    ensures { (n : Renaming I.Family.ReadGpr I.Family.ReadWriteGpr I.Family.WriteGpr I.Family.ReadXmm I.Family.ReadWriteXmm I.Family.WriteXmm) (made : I)
        → Renames V.steps n
        → I.row_of made ≡ I.row_of inst.old
        → I.operands_of made ≡ renamed_operands n (I.operands_of inst.old)
        → IfOk result (λ done. IsTrue done → Adds (I.meant made) (S.state sink.old) (S.state sink.new)) }
{
    rename(inst, visitor);
    if inst.is_encodable(&*sink) {
        inst.encode(sink)?;
        Ok(true)
    } else {
        Ok(false)
    }
}
