//! Machine code of any instructions reads back: no case is left for bytes without a reading.

ghost use Rattle.std.specs.Prelude.{◌≡◌, ◌++◌, [], IsTrue, All, OnOk, map};
ghost use Rattle.cranelift_assembler_x64.specs.Instruction.{can_encode_in};
ghost use Rattle.cranelift_assembler_x64.specs.Sequence.{ReadsAllAs};
ghost use Rattle.cranelift_assembler_x64.specs.Vec.{vec_state};

use cranelift_assembler_x64::laws::first_of_a_list;
use cranelift_assembler_x64::reader::read_inst;
use cranelift_assembler_x64::{Inst, Instruction, Registers, Row, encode_all};
use std::alloc::{AllocError, Allocator};

/// Reads as many instructions as there are, one behind the other.
fn read_rows<I: Instruction, A: Allocator, B: Allocator>(
    insts: &[I],
    code: &Vec<u8, A>,
    rows: &mut Vec<Row, B>,
) -> Result<(), AllocError>
    requires { ReadsAllAs (map (λ i. (I.meant i (vec_state code.now).offsets).parts) insts.now) code.now.items }
    ensures { OnOk result (rows.new.items ≡ rows.old.items ++ map (λ i. (I.meant i (vec_state code.now).offsets).parts.row) insts.now) }
{
    let mut at = 0;
    for _inst in insts {
        first_of_a_list();
        let reading = read_inst(&code[at..]).unwrap();
        rows.push(reading.row)?;
        at += usize::from(reading.length);
    }
    Ok(())
}

/// Puts the machine code of instructions into a vector that is empty, and the rows that it reads as behind others.
pub fn rows_of_code<R: Registers, A: Allocator, B: Allocator>(
    insts: &[Inst<R>],
    code: &mut Vec<u8, A>,
    rows: &mut Vec<Row, B>,
) -> Result<(), AllocError>
    requires encodable { All (λ i. IsTrue (can_encode_in (vec_state code.old) (⟦<Inst<R> as Instruction>⟧.meant i))) insts.now }
    requires empty { code.old.items ≡ [] }
    ensures { OnOk result (rows.new.items ≡ rows.old.items ++ map (λ i. (⟦<Inst<R> as Instruction>⟧.meant i (vec_state code.old).offsets).parts.row) insts.now) }
{
    if let Err(_) = encode_all(insts, code) {
        return Err(AllocError);
    }
    read_rows(insts, code, rows)
}
