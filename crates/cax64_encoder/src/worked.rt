//! An instruction of a line that no row has.

ghost use Rattle.std.specs.Prelude.{OnOk, IsOk, IfSome, ◌∷◌};
ghost use Rattle.cax64_encoder.specs.Worked.{GetsLine, add_rax_rdi};
ghost use Rattle.cax64_machine_code.specs.ReadLine.{lines_of};
ghost use Rattle.cax64_machine_code.specs.Rows.{all_rows};
ghost use Rattle.cax64_machine_code.specs.WorkedLine.{reg_and_rm};

use crate::encoder::encode_entry;
use crate::numbered::{NumberedForm, NumberedPlace};
use cax64_sink::{CodeSink, SinkError};
use cax64_table::entry::Entry;

/// REX.W 03 /r, packed: `add` of a register or memory to a register. (Intel SDM, volume 2, chapter 3.)
const ADD: u64 = 0xC071_A810;

/// Puts `add rax, rdi`, which a reader of its line, beside those of all rows, reads again.
pub fn encode_add<S: CodeSink>(sink: &mut S) -> Result<(), SinkError>
    ensures gets { OnOk result (GetsLine (reg_and_rm 0x03 ∷ lines_of all_rows) add_rax_rdi 3 (S.state sink.old) (S.state sink.new)) }
    ensures beside { S.may_become sink.old sink.new }
{
    let form = NumberedForm {
        reg: Some(0),
        vvvv: None,
        place: NumberedPlace::of_register(7),
        imm: 0,
    };
    match Entry::of(ADD) {
        Some(entry) => encode_entry(entry, &form, 0, sink),
        None => sink.put1(0x90),
    }
}
