//! Each growth of a text and of a term is refused in turn, until a run ends with Ok.

use crate::parts::{Plain, base, gpr, gpr_at, indexed, xmm, xmm_at};
use arith::{mulxl_rvm, shlb_m1};
use cax64_address::amode::{Amode, Scale};
use cax64_address::offset::{AmodeOffset, AmodeOffsetPlusKnownOffset};
use cax64_address::operand::{GprMem, XmmMem};
use cax64_address::text::Dialect;
use cax64_immediate::{Extension, Imm8, Imm16, Imm32, Imm64, Simm8, Simm16, Simm32};
use cax64_operand::RowAndOperands;
use cax64_register::{Fixed, Gpr, Size, Xmm};
use cax64_test_support::growth::{Grows, Outcome, is_refused};
use cax64_test_support::{All, Named};
use cax64_text::InstructionText;
use lock_a::lock_addl_mr;
use simd::{andps_a, cmpss_a};
use std::alloc::{AllocError, Allocator};

/// What asks for memory.
#[derive(Clone, Copy, Debug)]
enum Made {
    Imm8,
    Imm16,
    Imm32,
    Imm64,
    Simm8,
    Simm16,
    Simm32,
    Offset,
    OffsetXed,
    LateOffset,
    Amode,
    AmodeXed,
    IndexedXed,
    GprMem,
    GprMemXed,
    XmmMem,
    XmmMemXed,
    Plain,
    Shift,
    ShiftXed,
    CompareXed,
    OwnNames,
    Features,
}

const MADE: [(Made, &str); 23] = [
    (Made::Imm8, "$0xaa"),
    (Made::Imm16, "$0x1234"),
    (Made::Imm32, "$0xffffffff"),
    (Made::Imm64, "$0xffffffffffffffff"),
    (Made::Simm8, "$0xfe"),
    (Made::Simm16, "$0xfffe"),
    (Made::Simm32, "$0xfffffffffffffffe"),
    (Made::Offset, "-9"),
    (Made::OffsetXed, "-0x9"),
    (Made::LateOffset, "<offset:7>+"),
    (Made::Amode, "9(%rsp)"),
    (Made::AmodeXed, "0x9(%rsp)"),
    (Made::IndexedXed, "(%r13,%r9,1)"),
    (Made::GprMem, "%r8b"),
    (Made::GprMemXed, "0x9(%rsp)"),
    (Made::XmmMem, "%xmm8"),
    (Made::XmmMemXed, "0x9(%rsp)"),
    (Made::Plain, "mulxl %r8d, %edx, %ecx"),
    (Made::Shift, "shlb $1, %r8b"),
    (Made::ShiftXed, "shl $0x1, %r8b"),
    (Made::CompareXed, "cmpssl $0x0, 0x9(%rsp), %xmm1"),
    (Made::OwnNames, "lock addl v200, 9(v130)"),
    (Made::Features, "((_64b | compat) & sse)"),
];

const LATE: AmodeOffsetPlusKnownOffset = AmodeOffsetPlusKnownOffset {
    simm32: AmodeOffset::ZERO,
    offset: Some(7),
};

fn stack() -> Amode<u8> {
    base(4, 9)
}

fn amode_text<A: Allocator + Copy>(
    alloc: A,
    amode: Amode<u8>,
    dialect: Dialect,
) -> Result<String<A>, AllocError> {
    if amode.nameable() {
        amode.to_string_in(alloc, dialect)
    } else {
        Ok(String::new(alloc))
    }
}

fn gpr_text<A: Allocator + Copy>(alloc: A, place: GprMem<u8, u8>) -> Result<String<A>, AllocError> {
    if place.nameable() {
        place.to_string(alloc, Size::Byte)
    } else {
        Ok(String::new(alloc))
    }
}

fn gpr_text_xed<A: Allocator + Copy>(
    alloc: A,
    place: GprMem<u8, u8>,
) -> Result<String<A>, AllocError> {
    if place.nameable() {
        place.to_string_xed(alloc, Size::Byte)
    } else {
        Ok(String::new(alloc))
    }
}

fn xmm_text<A: Allocator + Copy>(alloc: A, place: XmmMem<u8, u8>) -> Result<String<A>, AllocError> {
    if place.nameable() {
        place.to_string(alloc)
    } else {
        Ok(String::new(alloc))
    }
}

fn xmm_text_xed<A: Allocator + Copy>(
    alloc: A,
    place: XmmMem<u8, u8>,
) -> Result<String<A>, AllocError> {
    if place.nameable() {
        place.to_string_xed(alloc)
    } else {
        Ok(String::new(alloc))
    }
}

fn instruction_text<I: RowAndOperands, A: Allocator + Copy>(
    alloc: A,
    inst: &I,
) -> Result<String<A>, AllocError> {
    if !inst.nameable() {
        return Ok(String::new(alloc));
    }
    inst.to_string(alloc)
}

fn instruction_text_xed<I: RowAndOperands, A: Allocator + Copy>(
    alloc: A,
    inst: &I,
) -> Result<String<A>, AllocError> {
    if !inst.nameable() {
        return Ok(String::new(alloc));
    }
    match inst.to_string_xed(alloc)? {
        Some(text) => Ok(text),
        None => Ok(String::new(alloc)),
    }
}

fn features_text<I: RowAndOperands, A: Allocator + Copy>(
    alloc: A,
    inst: &I,
) -> Result<String<A>, AllocError> {
    let features = inst.features(alloc)?;
    features.to_string(alloc)
}

impl Made {
    fn part<A: Allocator + Copy>(self, alloc: A) -> Result<String<A>, AllocError> {
        let (att, xed) = (Dialect::Att, Dialect::Xed);
        match self {
            Made::Imm8 => Imm8::new(0xAA).to_string(alloc),
            Made::Imm16 => Imm16::new(0x1234).to_string(alloc),
            Made::Imm32 => Imm32::from(-1).to_string(alloc),
            Made::Imm64 => Imm64::new(u64::MAX).to_string(alloc),
            Made::Simm8 => Simm8::new(-2).to_string(alloc, Extension::None),
            Made::Simm16 => Simm16::new(-2).to_string(alloc, Extension::None),
            Made::Simm32 => Simm32::new(-2).to_string(alloc, Extension::SignExtendQuad),
            Made::Offset => AmodeOffset::new(-9).to_string_in(alloc, att),
            Made::OffsetXed => AmodeOffset::new(-9).to_string_in(alloc, xed),
            Made::LateOffset => LATE.to_string_in(alloc, xed),
            Made::Amode => amode_text(alloc, stack(), att),
            Made::AmodeXed => amode_text(alloc, stack(), xed),
            _ => amode_text(alloc, indexed(13, 9, Scale::One, 0), xed),
        }
    }

    fn place<A: Allocator + Copy>(self, alloc: A) -> Result<String<A>, AllocError> {
        match self {
            Made::GprMem => gpr_text(alloc, gpr(8)),
            Made::GprMemXed => gpr_text_xed(alloc, gpr_at(4, 9)),
            Made::XmmMem => xmm_text(alloc, xmm(8)),
            _ => xmm_text_xed(alloc, xmm_at(4, 9)),
        }
    }

    fn instruction<A: Allocator + Copy>(self, alloc: A) -> Result<String<A>, AllocError> {
        match self {
            Made::Plain => instruction_text(alloc, &product()),
            Made::Shift => instruction_text(alloc, &shlb_m1::<Plain>::new(gpr(8))),
            Made::ShiftXed => instruction_text_xed(alloc, &shlb_m1::<Plain>::new(gpr(8))),
            Made::CompareXed => instruction_text_xed(alloc, &compare()),
            Made::OwnNames => instruction_text(alloc, &own_names()),
            _ => features_text(alloc, &andps_a::<Plain>::new(Xmm::new(8), xmm(1))),
        }
    }

    fn made<A: Allocator + Copy>(self, alloc: A) -> Result<String<A>, AllocError> {
        match self {
            Made::Imm8
            | Made::Imm16
            | Made::Imm32
            | Made::Imm64
            | Made::Simm8
            | Made::Simm16
            | Made::Simm32
            | Made::Offset
            | Made::OffsetXed
            | Made::LateOffset
            | Made::Amode
            | Made::AmodeXed
            | Made::IndexedXed => self.part(alloc),
            Made::GprMem | Made::GprMemXed | Made::XmmMem | Made::XmmMemXed => self.place(alloc),
            _ => self.instruction(alloc),
        }
    }
}

fn product() -> mulxl_rvm<Plain> {
    mulxl_rvm::new(Gpr::new(1), Gpr::new(2), gpr(8), Fixed(2))
}

fn compare() -> cmpss_a<Plain> {
    cmpss_a::new(Xmm::new(1), xmm_at(4, 9), Imm8::new(0))
}

fn own_names() -> lock_addl_mr<All<Named>> {
    lock_addl_mr::new(base(Named(130), 9), Gpr::new(Named(200)))
}

/// What is made, and its text.
#[derive(Clone, Copy)]
struct Wanted(Made, &'static str);

impl Grows for Wanted {
    fn run<A: Allocator + Copy>(&self, alloc: A) -> Outcome {
        match self.0.made(alloc) {
            Ok(text) if text.as_str() == self.1 => Outcome::Made,
            Ok(_) => Outcome::Wrong,
            Err(AllocError) => Outcome::Refused,
        }
    }
}

#[test]
fn each_text_is_refused_and_then_made(rt: HostRuntime) {
    for (made, want) in MADE {
        assert!(rt; is_refused(rt.alloc(), &Wanted(made, want), 1), "{made:?}");
    }
}
