//! The command `rows`.

ghost use Rattle.std.specs.Prelude.{ℕ, ℤ, Option, IsTrue};
ghost use Rattle.cax64_encoder.specs.Fault.{is_encodable};
ghost use Rattle.cax64_text.specs.Text.{nameable};

use crate::line::push_bytes;
use arith::{andb_i, mulxq_rvm, shlb_m1};
use cax64_address::amode::{Amode, Scale};
use cax64_address::operand::{GprMem, XmmMem};
use cax64_encoder::Instruction;
use cax64_immediate::{Imm8, Simm8, Simm32};
use cax64_operand::{Numbers, RowAndOperands};
use cax64_register::{Fixed, Gpr, Xmm};
use cax64_sink::{Constant, DeferredTarget, FixedSink};
use cax64_text::InstructionText;
use jump::{je_d32, jmp_d8};
use lock_a::{lock_addb_mr, lock_addl_mr, lock_addq_mi_sxl};
use lock_x::lock_cmpxchg16b_m;
use nop::nop_9b;
use simd::{andps_a, cmpps_a, vcmpps_b, vcvtpd2ps_a};
use std::alloc::{AllocError, Allocator};
use x64_reader::read_inst;
use x64rows_command::{base_and_displacement, base_and_index};

/// The most bytes of an instruction.
const MOST: usize = 13;

/// A line, by its instruction.
#[derive(Clone, Copy)]
pub enum RowLine {
    AndbI,
    LockAddlMr,
    AndpsA,
    LockAddbMr,
    LockAddqMiSxl,
    LockCmpxchg16bM,
    MulxqRvm,
    VcmppsB,
    Vcvtpd2psA,
    CmppsA,
    JmpD8,
    JeD32,
    ShlbM1,
    Nop9b,
}

/// The lines in their order.
pub const ROW_LINES: [RowLine; 14] = [
    RowLine::AndbI,
    RowLine::LockAddlMr,
    RowLine::AndpsA,
    RowLine::LockAddbMr,
    RowLine::LockAddqMiSxl,
    RowLine::LockCmpxchg16bM,
    RowLine::MulxqRvm,
    RowLine::VcmppsB,
    RowLine::Vcvtpd2psA,
    RowLine::CmppsA,
    RowLine::JmpD8,
    RowLine::JeD32,
    RowLine::ShlbM1,
    RowLine::Nop9b,
];

/// The line of an instruction: the name, the instruction's bytes, its text, and what the bytes read as: a row, the number
/// of bytes and that of the tail's.
fn text_of<I: RowAndOperands + Drop, A: Allocator + Copy>(
    alloc: A,
    name: &str,
    inst: I,
) -> Result<String<A>, AllocError>
    requires encodable { (offsets : ℕ → Option ℤ) → IsTrue (is_encodable offsets (⟦<I as Instruction>⟧.meant inst offsets)) }
    requires nameable { IsTrue (nameable ⟦<I as InstructionText>⟧.names (I.operands_of inst)) }
{
    let mut sink = FixedSink::<MOST>::new();
    inst.encode(&mut sink).unwrap();
    let reading = read_inst(sink.bytes()).unwrap();
    let mut text = format!(in alloc; "{name}: ")?;
    push_bytes(&mut text, sink.bytes())?;
    let written = inst.to_string(alloc)?;
    let row = reading.row.name();
    let length = reading.length;
    let tail = reading.tail;
    writeln!(text, ": {written}: {row} {length} {tail}")?;
    Ok(text)
}

impl RowLine {
    /// The whole line.
    pub fn text<A: Allocator + Copy>(self, alloc: A) -> Result<String<A>, AllocError> {
        match self {
            RowLine::AndbI => {
                let mask: andb_i<Numbers> = andb_i::new(Fixed(0), Imm8::new(0xAA));
                text_of(alloc, "andb_i", mask)
            }
            RowLine::LockAddlMr => {
                let place = base_and_displacement(12, -128);
                let add: lock_addl_mr<Numbers> = lock_addl_mr::new(place, Gpr::new(9));
                text_of(alloc, "lock_addl_mr", add)
            }
            RowLine::AndpsA => {
                let and: andps_a<Numbers> = andps_a::new(Xmm::new(8), XmmMem::Xmm(1));
                text_of(alloc, "andps_a", and)
            }
            RowLine::LockAddbMr => {
                let place = base_and_displacement(0, 0);
                let add: lock_addb_mr<Numbers> = lock_addb_mr::new(place, Gpr::new(6));
                text_of(alloc, "lock_addb_mr", add)
            }
            RowLine::LockAddqMiSxl => {
                let place = base_and_index(13, 9, Scale::Eight, 0x12345678);
                let add: lock_addq_mi_sxl<Numbers> = lock_addq_mi_sxl::new(place, Simm32::new(-1));
                text_of(alloc, "lock_addq_mi_sxl", add)
            }
            RowLine::LockCmpxchg16bM => {
                let place = base_and_displacement(0, 0);
                let exchange: lock_cmpxchg16b_m<Numbers> = lock_cmpxchg16b_m::new(
                    place,
                    Fixed(0),
                    Fixed(2),
                    Fixed(1),
                    Fixed(3),
                );
                text_of(alloc, "lock_cmpxchg16b_m", exchange)
            }
            RowLine::MulxqRvm => {
                let multiply: mulxq_rvm<Numbers> = mulxq_rvm::new(
                    Gpr::new(1),
                    Gpr::new(2),
                    GprMem::Gpr(8),
                    Fixed(2),
                );
                text_of(alloc, "mulxq_rvm", multiply)
            }
            RowLine::VcmppsB => {
                let place = XmmMem::Mem(base_and_displacement(8, 0));
                let compare: vcmpps_b<Numbers> = vcmpps_b::new(
                    Xmm::new(0),
                    Xmm::new(15),
                    place,
                    Imm8::new(0x20),
                );
                text_of(alloc, "vcmpps_b", compare)
            }
            RowLine::Vcvtpd2psA => {
                let convert: vcvtpd2ps_a<Numbers> = vcvtpd2ps_a::new(Xmm::new(0), XmmMem::Xmm(1));
                text_of(alloc, "vcvtpd2ps_a", convert)
            }
            RowLine::CmppsA => {
                let target = DeferredTarget::Constant(Constant(3));
                let place = XmmMem::Mem(Amode::RipRelative { target });
                let compare: cmpps_a<Numbers> = cmpps_a::new(Xmm::new(0), place, Imm8::new(0));
                text_of(alloc, "cmpps_a", compare)
            }
            RowLine::JmpD8 => text_of(alloc, "jmp_d8", jmp_d8::new(Simm8::new(-2))),
            RowLine::JeD32 => text_of(alloc, "je_d32", je_d32::new(Simm32::new(-10))),
            RowLine::ShlbM1 => {
                let shift: shlb_m1<Numbers> = shlb_m1::new(GprMem::Gpr(0));
                text_of(alloc, "shlb_m1", shift)
            }
            RowLine::Nop9b => text_of(alloc, "nop_9b", nop_9b::new()),
        }
    }
}
