//! A verified x64 assembler.
//!
//! An instruction is a struct of [`inst`], made of its operands by its `new`, and [`Instruction`] has what each of them
//! can do. Its registers are of a family, [`Registers`]; [`Numbers`] is that of the hardware's numbers. Bytes go into any
//! [`CodeSink`], and [`reader::read_inst`] reads them.
//!
//! ```
//! use cranelift_assembler_x64::inst::andb_i;
//! use cranelift_assembler_x64::{Fixed, Imm8, Instruction, Numbers, Recorder, SinkError};
//! use std::alloc::Global;
//!
//! /// The machine code of `andb $0xaa, %al`, which is `24 aa`.
//! fn mask(alloc: Global) -> Result<Recorder<Global>, SinkError> {
//!     let mask = andb_i::<Numbers>::new(Fixed(0), Imm8::new(0xAA));
//!     let mut sink = Recorder::new(alloc);
//!     if mask.is_encodable(&sink) {
//!         mask.encode(&mut sink)?;
//!     }
//!     Ok(sink)
//! }
//! ```
//!
//! Each item stands in a crate of its layer; this crate gives it its public path.
#![tactic(auto)]

pub use cax64_address::amode::{Amode, Scale};
pub use cax64_address::makers::{BaseAddress, IndexAddress};
pub use cax64_address::offset::{AmodeOffset, AmodeOffsetPlusKnownOffset};
pub use cax64_address::operand::{GprMem, XmmMem};
pub use cax64_address::tail::emit_modrm_sib_disp;
pub use cax64_address::text::Dialect;
pub use cax64_encode_all::{encode_all, encode_all_whole};
pub use cax64_encoder::{EncodeError, Fault, Instruction, RoomNeeded};
pub use cax64_feature::{AvailableFeatures, Feature, Features};
pub use cax64_immediate::{
    Extension, Imm8, Imm16, Imm32, Imm64, OutOfRange, Simm8, Simm16, Simm32,
};
pub use cax64_inst::Inst;
pub use cax64_machine_code::row::{Branch, Row};
pub use cax64_operand::{
    FromOperands, HasOperands, ImmOperand, Immediate, ImmediateKind, Made, Nop, Numbers, Operand,
    OperandKind, Operands, RegisterVisitor, RowAndOperands, Task, of_five, of_four, of_one,
    of_three, of_two, operands_of, signature,
};
pub use cax64_prefix::rex::RexPrefix;
pub use cax64_register::{AsReg, Fixed, Gpr, NonRspGpr, Registers, Size, Xmm, register_name};
pub use cax64_renaming::rename;
pub use cax64_sequence::{
    Refused, Stopped, all_encodable, encode_each, encode_each_checked, encode_each_whole,
};
pub use cax64_sink::{
    CodeSink, Constant, DeferredTarget, FixedSink, KnownOffset, Label, Notice, Recorder, SinkError,
    TrapCode,
};
pub use cax64_text::InstructionText;

/// General registers and their hardware numbers.
pub mod gpr {
    pub use cax64_register::gpr::enc;
    pub use cax64_register::{Gpr, NonRspGpr, Size};
}

/// XMM registers and their hardware numbers.
pub mod xmm {
    pub use cax64_register::Xmm;
    pub use cax64_register::xmm::enc;
}

/// The instructions, and the enumeration of them all.
pub mod inst {
    // table/write.py: instructions
    pub use arith::andb_i;
    pub use arith::mulxl_rvm;
    pub use arith::mulxq_rvm;
    pub use arith::rolb_m1;
    pub use arith::roll_m1;
    pub use arith::rolq_m1;
    pub use arith::rolw_m1;
    pub use arith::rorb_m1;
    pub use arith::rorl_m1;
    pub use arith::rorq_m1;
    pub use arith::rorw_m1;
    pub use arith::sarb_m1;
    pub use arith::sarl_m1;
    pub use arith::sarq_m1;
    pub use arith::sarw_m1;
    pub use arith::shlb_m1;
    pub use arith::shll_m1;
    pub use arith::shlq_m1;
    pub use arith::shlw_m1;
    pub use arith::shrb_m1;
    pub use arith::shrl_m1;
    pub use arith::shrq_m1;
    pub use arith::shrw_m1;
    pub use arith::xchgb_rm;
    pub use arith::xchgl_rm;
    pub use arith::xchgq_rm;
    pub use arith::xchgw_rm;
    pub use cax64_inst::Inst;
    pub use jump::callq_d;
    pub use jump::callq_m;
    pub use jump::ja_d8;
    pub use jump::ja_d32;
    pub use jump::jae_d8;
    pub use jump::jae_d32;
    pub use jump::jb_d8;
    pub use jump::jb_d32;
    pub use jump::jbe_d8;
    pub use jump::jbe_d32;
    pub use jump::je_d8;
    pub use jump::je_d32;
    pub use jump::jg_d8;
    pub use jump::jg_d32;
    pub use jump::jge_d8;
    pub use jump::jge_d32;
    pub use jump::jl_d8;
    pub use jump::jl_d32;
    pub use jump::jle_d8;
    pub use jump::jle_d32;
    pub use jump::jmp_d8;
    pub use jump::jmp_d32;
    pub use jump::jmpq_m;
    pub use jump::jne_d8;
    pub use jump::jne_d32;
    pub use jump::jno_d8;
    pub use jump::jno_d32;
    pub use jump::jnp_d8;
    pub use jump::jnp_d32;
    pub use jump::jns_d8;
    pub use jump::jns_d32;
    pub use jump::jo_d8;
    pub use jump::jo_d32;
    pub use jump::jp_d8;
    pub use jump::jp_d32;
    pub use jump::js_d8;
    pub use jump::js_d32;
    pub use lock_a::lock_adcb_mi;
    pub use lock_a::lock_adcb_mr;
    pub use lock_a::lock_adcl_mi;
    pub use lock_a::lock_adcl_mi_sxb;
    pub use lock_a::lock_adcl_mr;
    pub use lock_a::lock_adcq_mi_sxb;
    pub use lock_a::lock_adcq_mi_sxl;
    pub use lock_a::lock_adcq_mr;
    pub use lock_a::lock_adcw_mi;
    pub use lock_a::lock_adcw_mr;
    pub use lock_a::lock_addb_mi;
    pub use lock_a::lock_addb_mr;
    pub use lock_a::lock_addl_mi;
    pub use lock_a::lock_addl_mi_sxb;
    pub use lock_a::lock_addl_mr;
    pub use lock_a::lock_addq_mi_sxb;
    pub use lock_a::lock_addq_mi_sxl;
    pub use lock_a::lock_addq_mr;
    pub use lock_a::lock_addw_mi;
    pub use lock_a::lock_addw_mr;
    pub use lock_a::lock_orb_mi;
    pub use lock_a::lock_orb_mr;
    pub use lock_a::lock_orl_mi;
    pub use lock_a::lock_orl_mi_sxb;
    pub use lock_a::lock_orl_mr;
    pub use lock_a::lock_orq_mi_sxb;
    pub use lock_a::lock_orq_mi_sxl;
    pub use lock_a::lock_orq_mr;
    pub use lock_a::lock_orw_mi;
    pub use lock_a::lock_orw_mr;
    pub use lock_b::lock_andb_mi;
    pub use lock_b::lock_andb_mr;
    pub use lock_b::lock_andl_mi;
    pub use lock_b::lock_andl_mi_sxb;
    pub use lock_b::lock_andl_mr;
    pub use lock_b::lock_andq_mi_sxb;
    pub use lock_b::lock_andq_mi_sxl;
    pub use lock_b::lock_andq_mr;
    pub use lock_b::lock_andw_mi;
    pub use lock_b::lock_andw_mr;
    pub use lock_b::lock_sbbb_mi;
    pub use lock_b::lock_sbbb_mr;
    pub use lock_b::lock_sbbl_mi;
    pub use lock_b::lock_sbbl_mi_sxb;
    pub use lock_b::lock_sbbl_mr;
    pub use lock_b::lock_sbbq_mi_sxb;
    pub use lock_b::lock_sbbq_mi_sxl;
    pub use lock_b::lock_sbbq_mr;
    pub use lock_b::lock_sbbw_mi;
    pub use lock_b::lock_sbbw_mr;
    pub use lock_b::lock_subb_mi;
    pub use lock_b::lock_subb_mr;
    pub use lock_b::lock_subl_mi;
    pub use lock_b::lock_subl_mi_sxb;
    pub use lock_b::lock_subl_mr;
    pub use lock_b::lock_subq_mi_sxb;
    pub use lock_b::lock_subq_mi_sxl;
    pub use lock_b::lock_subq_mr;
    pub use lock_b::lock_subw_mi;
    pub use lock_b::lock_subw_mr;
    pub use lock_b::lock_xorb_mi;
    pub use lock_b::lock_xorb_mr;
    pub use lock_b::lock_xorl_mi;
    pub use lock_b::lock_xorl_mi_sxb;
    pub use lock_b::lock_xorl_mr;
    pub use lock_b::lock_xorq_mi_sxb;
    pub use lock_b::lock_xorq_mi_sxl;
    pub use lock_b::lock_xorq_mr;
    pub use lock_b::lock_xorw_mi;
    pub use lock_b::lock_xorw_mr;
    pub use lock_x::lock_cmpxchg16b_m;
    pub use lock_x::lock_cmpxchgb_mr;
    pub use lock_x::lock_cmpxchgl_mr;
    pub use lock_x::lock_cmpxchgq_mr;
    pub use lock_x::lock_cmpxchgw_mr;
    pub use lock_x::lock_xaddb_mr;
    pub use lock_x::lock_xaddl_mr;
    pub use lock_x::lock_xaddq_mr;
    pub use lock_x::lock_xaddw_mr;
    pub use nop::nop_1b;
    pub use nop::nop_2b;
    pub use nop::nop_3b;
    pub use nop::nop_4b;
    pub use nop::nop_5b;
    pub use nop::nop_6b;
    pub use nop::nop_7b;
    pub use nop::nop_8b;
    pub use nop::nop_9b;
    pub use simd::andps_a;
    pub use simd::cmppd_a;
    pub use simd::cmpps_a;
    pub use simd::cmpsd_a;
    pub use simd::cmpss_a;
    pub use simd::vcmppd_b;
    pub use simd::vcmpps_b;
    pub use simd::vcmpsd_b;
    pub use simd::vcmpss_b;
    pub use simd::vcvtpd2ps_a;
    pub use simd::vcvttpd2dq_a;
    // table/write.py: end
}

/// REX prefixes and displacements.
pub mod rex {
    pub use cax64_address::disp::Disp;
    pub use cax64_prefix::rex::RexPrefix;
}

/// VEX prefixes.
pub mod vex {
    pub use cax64_prefix::vex::VexPrefix;
}

/// EVEX prefixes.
pub mod evex {
    pub use cax64_prefix::evex::EvexPrefix;
}

/// Laws: over a sink of fixed size calls succeed exactly where their bytes fit; no string of bytes that is read as an
/// instruction is shorter than it; operands print alike exactly where their numbers agree; data means the same as the
/// instruction or the reading that it's made of.
pub mod laws {
    pub use cax64_address::laws::emit_to_fixed_sink;
    pub use cax64_encode_all::encode_all_to_fixed_sink;
    pub use cax64_encoder::laws::encode_to_fixed_sink;
    pub use cax64_sequence::laws::{encode_each_to_fixed_sink, first_of_a_list};
    pub use cax64_shortest::laws::{len_is_least, whole_instruction_is_shortest};
    pub use cax64_text::laws::laws_of_texts;
}

/// The reading of machine code.
pub mod reader {
    pub use cax64_machine_code::reading::{Place, Reading, RegView};
    pub use x64_reader::read_inst;
}
