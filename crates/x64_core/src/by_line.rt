//! The core's instructions, as what is encoded by a line.

ghost use Rattle.x64_core.specs.Adds.{AddsCore, LeavesCore};
ghost use Rattle.x64_core.specs.ByLine.{core_adds_from, core_adds_meant, core_leaves_from, core_leaves_meant};
ghost use Rattle.x64_core.specs.Core.{core_meant};
ghost use Rattle.x64_core.specs.View.{core_view};

use crate::instruction::Core;
use cax64_encoder::{EncodeError, Fault, RoomNeeded};
use cax64_sink::{CodeSink, SinkError};
use x64_encode::Encode;

impl Encode for Core {
    type Base = u8;

    ghost line_meant = { λ i. core_meant (core_view i) };

    ghost adds = { λ i. AddsCore (core_view i) };

    ghost leaves = { λ i. LeavesCore (core_view i) };

    ghost adds_meant = { λ i. core_adds_meant (core_view i) };

    ghost leaves_meant = { λ i. core_leaves_meant (core_view i) };

    ghost adds_from = { λ i. core_adds_from (core_view i) };

    ghost leaves_from = { λ i. core_leaves_from (core_view i) };

    #[inline(always)]
    fn first_fault<S: CodeSink>(&self, sink: &S) -> Option<Fault> {
        Core::first_fault(self, sink)
    }

    #[inline(always)]
    fn is_encodable<S: CodeSink>(&self, sink: &S) -> bool {
        Core::is_encodable(self, sink)
    }

    #[inline(always)]
    fn encoded_len<S: CodeSink>(&self, sink: &S) -> u8 {
        Core::encoded_len(self, sink)
    }

    #[inline(always)]
    fn notice_count(&self) -> u8 {
        Core::notice_count(self)
    }

    #[inline(always)]
    fn room_needed<S: CodeSink>(&self, sink: &S) -> RoomNeeded {
        Core::room_needed(self, sink)
    }

    #[inline(always)]
    fn encode<S: CodeSink>(&self, sink: &mut S) -> Result<(), SinkError> {
        Core::encode(self, sink)
    }

    #[inline(always)]
    fn encode_checked<S: CodeSink>(&self, sink: &mut S) -> Result<(), EncodeError> {
        Core::encode_checked(self, sink)
    }
}
