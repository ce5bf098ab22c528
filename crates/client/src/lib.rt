//! What can be proved over the assembler by those who stand on it: each proof here cites public clauses alone. With it a back
//! end in small, through which `docs/BACK_END.md` goes: registers, places, an assignment, checked calls.
#![tactic(auto)]

pub mod assignment;
mod back_end;
pub mod classes;
pub mod notices;
pub mod places;
mod read_back;
pub mod registers;
mod renaming;
mod reserved;
mod rounds;

ghost use Rattle.std.specs.Prelude.{◌≤◌, ◌<◌, IsTrue, All, length};
ghost use Rattle.cranelift_assembler_x64.specs.FixedSink.{fixed_sink_state};
ghost use Rattle.cranelift_assembler_x64.specs.Instruction.{can_encode_in};
ghost use Rattle.cranelift_assembler_x64.specs.Recorder.{recorder_state};
ghost use Rattle.cranelift_assembler_x64.specs.Sequence.{IsFront};

pub use back_end::{
    encode_all_if_encodable, encode_each_if_encodable, encode_if_encodable, encode_or_tell,
};
use cranelift_assembler_x64::inst::{lock_addl_mi_sxb, nop_1b};
use cranelift_assembler_x64::{
    Amode, AmodeOffsetPlusKnownOffset, FixedSink, Inst, Instruction, Numbers, Recorder, Refused,
    Registers, Simm8, encode_all,
};
pub use read_back::rows_of_code;
pub use renaming::put_renamed;
pub use reserved::push_three;
pub use rounds::until_equal;
use std::alloc::Allocator;

/// Two instructions in a buffer of 32 bytes: it has room for them, so nothing can be refused.
pub fn count_and_wait(counter: u8) -> FixedSink<32>
    requires { counter < 16 }
    ensures { length (fixed_sink_state result).bytes ≤ 26 }
{
    let place = Amode::ImmReg {
        base: counter,
        simm32: AmodeOffsetPlusKnownOffset::ZERO,
        trap: None,
    };
    let count = lock_addl_mi_sxb::<Numbers>::new(place, Simm8::new(1));
    let mut sink = FixedSink::<32>::new();
    count.encode(&mut sink).unwrap();
    nop_1b::new().encode(&mut sink).unwrap();
    sink
}

/// Puts instructions behind what a recorder holds, which stays in front whatever happens.
pub fn append<R: Registers, A: Allocator>(
    insts: &[Inst<R>],
    recorder: &mut Recorder<A>,
) -> Result<(), Refused>
    requires { All (λ i. IsTrue (can_encode_in (recorder_state recorder.old) (⟦<Inst<R> as Instruction>⟧.meant i))) insts.now }
    ensures { IsFront (recorder_state recorder.old).bytes (recorder_state recorder.new).bytes }
{
    encode_all(insts, recorder)
}
