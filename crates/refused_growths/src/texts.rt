//! Texts of registers and trap codes, and texts and terms of an instruction of any form.

use cax64_register::register_name;
use cax64_test_support::growth::{Grows, Outcome, is_refused};
use cax64_test_support::{Few, Named, Virtual};
use cranelift_assembler_x64::inst::{andps_a, lock_addl_mi_sxb, lock_addl_mr, shlb_m1};
use cranelift_assembler_x64::{
    Amode, AmodeOffset, AmodeOffsetPlusKnownOffset, AsReg, Fixed, Gpr, GprMem, Inst,
    InstructionText, NonRspGpr, Numbers, Simm8, Size, TrapCode, Xmm, XmmMem,
};
use std::alloc::{AllocError, Allocator};
use std::num::NonZeroU8;

/// What has a text.
#[derive(Clone, Copy, Debug)]
enum Text {
    Hardware,
    Number,
    Fixed,
    General,
    Index,
    Vector,
    Virtual,
    Few,
    Named,
    Trap,
    Inst,
    InstXed,
    InstWithoutXed,
    InstTerm,
}

const TEXTS: [(Text, &str); 14] = [
    (Text::Hardware, "%r12b"),
    (Text::Number, "%xmm15"),
    (Text::Fixed, "%rax"),
    (Text::General, "%r9d"),
    (Text::Index, "%bp"),
    (Text::Vector, "%xmm0"),
    (Text::Virtual, "%sp"),
    (Text::Few, "%r13d"),
    (Text::Named, "v130"),
    (Text::Trap, "trap=5"),
    (Text::Inst, "lock addl %r9d, -0x80(%r12)"),
    (Text::InstXed, "shl $0x1, %r8b"),
    (Text::InstWithoutXed, "none"),
    (Text::InstTerm, "((_64b | compat) & sse)"),
];

fn trap_text<A: Allocator + Copy>(alloc: A) -> Result<String<A>, AllocError> {
    let code = TrapCode(NonZeroU8::new(5).ok_or(AllocError)?);
    code.to_string(alloc)
}

fn addition() -> lock_addl_mr<Numbers> {
    let place = Amode::ImmReg {
        base: 12,
        simm32: AmodeOffsetPlusKnownOffset {
            simm32: AmodeOffset::new(-128),
            offset: None,
        },
        trap: None,
    };
    lock_addl_mr::new(place, Gpr::new(9))
}

fn locked_addition() -> lock_addl_mi_sxb<Numbers> {
    let place = Amode::ImmReg {
        base: 0,
        simm32: AmodeOffsetPlusKnownOffset::ZERO,
        trap: None,
    };
    lock_addl_mi_sxb::new(place, Simm8::new(-1))
}

fn text_of<I: InstructionText, A: Allocator + Copy>(
    alloc: A,
    inst: &I,
) -> Result<String<A>, AllocError> {
    if !inst.nameable() {
        return Ok(String::new(alloc));
    }
    inst.to_string(alloc)
}

fn text_xed_of<I: InstructionText, A: Allocator + Copy>(
    alloc: A,
    inst: &I,
) -> Result<String<A>, AllocError> {
    if !inst.nameable() {
        return Ok(String::new(alloc));
    }
    match inst.to_string_xed(alloc)? {
        Some(text) => Ok(text),
        None => Ok(String::new(alloc)),
    }
}

/// `none` of an instruction that has no text as XED prints it.
fn absent_xed_of<I: InstructionText, A: Allocator + Copy>(
    alloc: A,
    inst: &I,
) -> Result<String<A>, AllocError> {
    let mut answer = String::new(alloc);
    if inst.nameable() && inst.to_string_xed(alloc)?.is_none() {
        answer.push_str("none")?;
    }
    Ok(answer)
}

fn term_of<I: InstructionText, A: Allocator + Copy>(
    alloc: A,
    inst: &I,
) -> Result<String<A>, AllocError> {
    let term = inst.features(alloc)?;
    term.to_string(alloc)
}

/// What an instruction of any form has.
#[derive(Clone, Copy, Debug)]
enum Of {
    Addition,
    Shift,
    Locked,
    Conjunction,
}

/// One function holds an `Inst`, for all four.
fn made_of_inst<A: Allocator + Copy>(alloc: A, of: Of) -> Result<String<A>, AllocError> {
    let inst: Inst<Numbers> = match of {
        Of::Addition => Inst::lock_addl_mr(addition()),
        Of::Shift => Inst::shlb_m1(shlb_m1::new(GprMem::Gpr(8))),
        Of::Locked => Inst::lock_addl_mi_sxb(locked_addition()),
        Of::Conjunction => Inst::andps_a(andps_a::new(Xmm::new(8), XmmMem::Xmm(1))),
    };
    match of {
        Of::Addition => text_of(alloc, &inst),
        Of::Shift => text_xed_of(alloc, &inst),
        Of::Locked => absent_xed_of(alloc, &inst),
        Of::Conjunction => term_of(alloc, &inst),
    }
}

impl Text {
    fn made<A: Allocator + Copy>(self, alloc: A) -> Result<String<A>, AllocError> {
        match self {
            Text::Hardware => register_name(alloc, 12, Some(Size::Byte)),
            Text::Number => AsReg::to_string(&15u8, alloc, None),
            Text::Fixed => Fixed::<u8, 0>(0).to_string(alloc, Some(Size::Quadword)),
            Text::General => Gpr::new(9u8).to_string(alloc, Size::Doubleword),
            Text::Index => NonRspGpr::new(5u8).to_string(alloc, Size::Word),
            Text::Vector => Xmm::new(0u8).to_string(alloc),
            Text::Virtual => Gpr::new(Virtual(4)).to_string(alloc, Size::Word),
            Text::Few => Gpr::new(Few(13)).to_string(alloc, Size::Doubleword),
            Text::Named => Gpr::new(Named(130)).to_string(alloc, Size::Byte),
            Text::Trap => trap_text(alloc),
            Text::Inst => made_of_inst(alloc, Of::Addition),
            Text::InstXed => made_of_inst(alloc, Of::Shift),
            Text::InstWithoutXed => made_of_inst(alloc, Of::Locked),
            Text::InstTerm => made_of_inst(alloc, Of::Conjunction),
        }
    }
}

#[derive(Clone, Copy)]
struct Wanted(Text, &'static str);

impl Grows for Wanted {
    fn run<A: Allocator + Copy>(&self, alloc: A) -> Outcome {
        match self.0.made(alloc) {
            Ok(text) if text.as_str() == self.1 => Outcome::Made,
            Ok(_) => Outcome::Wrong,
            Err(AllocError) => Outcome::Refused,
        }
    }
}

#[test]
fn each_text_is_refused_and_then_made(rt: HostRuntime) {
    for (text, want) in TEXTS {
        assert!(rt; is_refused(rt.alloc(), &Wanted(text, want), 1), "{text:?}");
    }
}
