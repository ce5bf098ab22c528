//! Instructions of any line, from numbers as they stand in the bytes.

ghost use Rattle.std.specs.Prelude.{◌≡◌, false, IfNone, IfSome, true};
ghost use Rattle.x64_core.specs.Fits.{core_fits};
ghost use Rattle.x64_lines.specs.Shape.{shape_of};
ghost use Rattle.x64_core.specs.Viewed.{viewed};

use crate::fits::takes;
use crate::instruction::Core;
use x64_lines::Op;
use x64_place::FlatPlace;

impl Core {
    /// The instruction of a line with these numbers where they stand in the bytes, which have to be those that the line takes: 0
    /// where nothing stands; of an immediate its bytes as one word, the first one the lowest. Registers may be any.
    ///
    /// Nothing is tested. Where the line doesn't take them, a build that wasn't proved may make an instruction that is encoded
    /// wrongly. [`of_numbers`](Self::of_numbers) tests them.
    #[inline(always)]
    pub fn of_fitting(op: Op, reg: u8, vvvv: u8, place: FlatPlace, word: u32) -> Core
        requires { core_fits (shape_of op.number) reg vvvv (viewed place) word ≡ true }
        ensures op { result.op ≡ op }
        ensures numbers { (result.reg ≡ reg) × (result.vvvv ≡ vvvv) × (result.imm ≡ word) }
        ensures place { result.place ≡ place }
    {
        Core {
            place,
            imm: word,
            op,
            reg,
            vvvv,
        }
    }

    /// The instruction of a line with these numbers where they stand in the bytes, 0 where nothing stands; of an immediate its
    /// bytes as one word, the first one the lowest. `None` where they aren't those that the line takes. Registers aren't tested.
    #[inline(always)]
    pub fn of_numbers(op: Op, reg: u8, vvvv: u8, place: FlatPlace, word: u32) -> Option<Core>
        ensures none { IfNone result (core_fits (shape_of op.number) reg vvvv (viewed place) word ≡ false) }
        ensures some { IfSome result (λ c. core_fits (shape_of op.number) reg vvvv (viewed place) word ≡ true) }
        ensures op { IfSome result (λ c. c.op ≡ op) }
        ensures numbers { IfSome result (λ c. (c.reg ≡ reg) × (c.vvvv ≡ vvvv) × (c.imm ≡ word)) }
        ensures place { IfSome result (λ c. c.place ≡ place) }
    {
        let shape = op.shape();
        let fits = takes(shape.fields, &place)
            & (u64::from(word) < shape.imm.limit())
            & (shape.fields.has_reg() | (reg == 0))
            & (shape.fields.has_vvvv() | (vvvv == 0));
        if fits {
            Some(Core {
                place,
                imm: word,
                op,
                reg,
                vvvv,
            })
        } else {
            None
        }
    }
}
