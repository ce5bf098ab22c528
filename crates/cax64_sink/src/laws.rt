//! Laws of the items here, and of each run of calls of a sink up to the first that is refused.

ghost use Rattle.std.specs.Prelude.{◌≡◌, ◌↔◌, true};
ghost use Rattle.cax64_sink.specs.declared.SinkError.{SinkError};
ghost use Rattle.cax64_sink.specs.declared.Label.{Label};
ghost use Rattle.cax64_sink.specs.declared.Constant.{Constant};
ghost use Rattle.cax64_sink.specs.declared.TrapCode.{TrapCode};
ghost use Rattle.cax64_sink.specs.declared.DeferredTarget.{DeferredTarget};
ghost use Rattle.cax64_sink.specs.declared.Notice.{Notice};
ghost use Rattle.cax64_sink.specs.Laws.{RunsAddBytes, RunsAddNotices, RefusedRunsLeave, RunsAnswerErrors, RunsAnswerNoMemory, RunsAnswerFull, RunsKeep, RunsWithRoomSucceed, RunsLowerRooms, FixedSinksHold, FixedSinksTake};

use crate::{Constant, DeferredTarget, Label, Notice, SinkError, TrapCode};

/// The laws of a run of calls, in any sink. It does nothing: its clauses are the laws.
pub fn laws_of_runs()
    ensures bytes { RunsAddBytes }
    ensures notices { RunsAddNotices }
    ensures refusal { RefusedRunsLeave }
    ensures errors { RunsAnswerErrors }
    ensures no_memory { RunsAnswerNoMemory }
    ensures full { RunsAnswerFull }
    ensures keep { RunsKeep }
    ensures succeed { RunsWithRoomSucceed }
    ensures rooms { RunsLowerRooms }
{}

/// The laws of a sink of `N` bytes. It does nothing: its clauses are the laws.
pub fn laws_of_fixed_sinks<const N: usize>()
    ensures hold { FixedSinksHold N }
    ensures take { FixedSinksTake N }
{}

/// Items compare equal where they are the same variant with the same numbers, and nowhere else.
/// It does nothing: its clauses are the laws.
#[tactic(auto, using(crate::proofs::Equality::same_trap_code))]
pub fn laws_of_equality()
    ensures sink_errors { (a b : SinkError) → (⟦<SinkError as PartialEq>⟧.eq a b ≡ true) ↔ (a ≡ b) }
    ensures labels { (a b : Label) → (⟦<Label as PartialEq>⟧.eq a b ≡ true) ↔ (a ≡ b) }
    ensures constants { (a b : Constant) → (⟦<Constant as PartialEq>⟧.eq a b ≡ true) ↔ (a ≡ b) }
    ensures trap_codes { (a b : TrapCode) → (⟦<TrapCode as PartialEq>⟧.eq a b ≡ true) ↔ (a ≡ b) }
    ensures targets { (a b : DeferredTarget) → (⟦<DeferredTarget as PartialEq>⟧.eq a b ≡ true) ↔ (a ≡ b) }
    ensures notices { (a b : Notice) → (⟦<Notice as PartialEq>⟧.eq a b ≡ true) ↔ (a ≡ b) }
{}
