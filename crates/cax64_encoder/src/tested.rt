//! Test and encoding as one task, which is handed an instruction once.

ghost use Rattle.std.specs.Prelude.{◌≡◌, ◌&&◌, false, nat_lt, IsTrue};
ghost use Rattle.cax64_encoder.specs.Task.{Answered, Asked};
ghost use Rattle.cax64_encoder.specs.Tested.{ByOutcome, can_be_put, index_met, late_fits, none_tested, nop_tested, with_part, with_tested};
ghost use Rattle.cax64_encoder.specs.declared.tested.Outcome.TheVariants.{NotEncodable};

use crate::content::Content;
use crate::part::Part;
use cax64_address::offset::AmodeOffsetPlusKnownOffset;
use cax64_machine_code::row::Row;
use cax64_operand::{FromOperands, Nop, Operand, RegisterFamily, Task};
use cax64_register::Registers;
use cax64_sink::{CodeSink, SinkError};

/// What the bytes of an instruction are made of, and whether it can be encoded. The numbers carry the test: 255 is no register's,
/// so each register is asked once for both.
#[derive(Clone, Copy)]
pub struct Tested {
    /// Whether each register is as it has to be, but for what is marked.
    pub met: bool,
    /// 16 where a late offset has to fit, or the stack pointer stands as an index, and else 0: a number, so that it's asked
    /// together with the others.
    pub mark: u8,
    pub content: Content,
}

/// What comes of an instruction that is tested and put. It holds nothing, so that it's one number.
#[derive(Clone, Copy)]
pub enum Outcome {
    Put,
    /// The sink refused it: a growth was refused.
    NoMemory,
    /// The sink refused it: it's full.
    Full,
    /// It can't be encoded for the sink, which is as before.
    NotEncodable,
}

impl<R: Registers> FromOperands<R> for Tested {
    ghost made_of_none = { none_tested };

    ghost made_with = { with_tested ⟦<R as RegisterFamily>⟧.family };

    ghost made_of_nop = { nop_tested };

    #[inline(always)]
    fn none() -> Tested
        ensures { result ≡ none_tested }
    {
        Tested {
            met: true,
            mark: 0,
            content: <Content as FromOperands<R>>::none(),
        }
    }

    #[inline(always)]
    fn with(mut self, operand: Operand<R>) -> Tested
        ensures { result ≡ with_tested ⟦<R as RegisterFamily>⟧.family operand self }
    {
        self.add(Part::of(&operand));
        self
    }

    #[inline(always)]
    fn nop(nop: Nop) -> Tested
        ensures { result ≡ nop_tested nop }
    {
        Tested {
            met: true,
            mark: 0,
            content: <Content as FromOperands<R>>::nop(nop),
        }
    }
}

impl Tested {
    /// Puts one more operand before the others, and tests it.
    #[inline(always)]
    fn add(&mut self, part: Part)
        ensures { self.new ≡ with_part part self.old }
    {
        let is_met = match part {
            Part::Register(number) => {
                self.content.form.add_register(number);
                number < 16
            }
            Part::TwoRegisters(first, second, is_second_met) => {
                self.content.form.reg = Some(first);
                self.content.form.vvvv = Some(second);
                (first < 16) & is_second_met
            }
            Part::Fixed(is_met) => is_met,
            Part::Place(place, mark) => {
                let base = place.base;
                let index = place.index;
                let is_met = self.index_met();
                self.content.form.place = place;
                self.mark = mark;
                (base < 16) & (index < 16) & is_met
            }
            Part::Imm(word) => {
                self.content.form.imm = word;
                true
            }
        };
        self.met = is_met & self.met;
    }

    /// Whether an index, if one stands, isn't the stack pointer's.
    #[inline(always)]
    fn index_met(&self) -> bool
        ensures { result ≡ index_met self.now }
    {
        self.content.form.place.displacement.offset.is_some() | (self.mark < 16)
    }

    /// Whether the operands can be encoded for this sink. What is marked is asked together with the base.
    #[inline(always)]
    fn can_be_put<S: CodeSink>(&self, sink: &S) -> bool
        ensures { result ≡ can_be_put (S.state sink.now).offsets self.now }
    {
        let place = &self.content.form.place;
        let mark = if late_fits(place.displacement, sink) {
            0
        } else {
            self.mark
        };
        self.met & are_below_16(place.base, mark)
    }
}

/// Whether there is a late offset, and its sum fits.
#[inline(always)]
fn late_fits<S: CodeSink>(displacement: AmodeOffsetPlusKnownOffset, sink: &S) -> bool
    ensures { result ≡ late_fits (S.state sink.now).offsets displacement }
{
    match displacement.offset {
        Some(_) => displacement.fits(sink),
        None => false,
    }
}

/// Whether both numbers are below 16, which is asked once.
#[tactic(auto, using(crate::proofs::Below::or_below))]
#[inline(always)]
fn are_below_16(a: u8, b: u8) -> bool
    ensures { result ≡ (nat_lt a 16 && nat_lt b 16) }
{
    (a | b) < 16
}

/// What comes of an instruction that can't be encoded. It is marked as seldom run, so that the compiler takes what puts the
/// code for what is mostly run, and inlines all of it.
#[cold]
#[inline(never)]
fn not_encodable() -> Outcome
    ensures { result ≡ NotEncodable }
{
    Outcome::NotEncodable
}

/// Puts the instruction into a sink if it can be encoded for it.
impl<R: Registers, S: CodeSink> Task<R, S> for Tested {
    type Answer = Outcome;

    ghost asks = { λ row tested sink. IsTrue (can_be_put (S.state sink).offsets tested) → Asked R ⟦<R as RegisterFamily>⟧.family (S.state sink).offsets row tested.content };

    ghost answers = { λ row tested old new result. ByOutcome result
        (λ put. IsTrue (can_be_put (S.state old).offsets tested) × (Answered R ⟦<R as RegisterFamily>⟧.family row tested.content (S.state old) (S.state new) put × S.may_become old new))
        ((can_be_put (S.state old).offsets tested ≡ false) × (new ≡ old)) };

    #[inline(always)]
    fn take(self, row: Row, sink: &mut S) -> Outcome {
        if !self.can_be_put(&*sink) {
            return not_encodable();
        }
        match <Content as Task<R, S>>::take(self.content, row, sink) {
            Ok(()) => Outcome::Put,
            Err(SinkError::NoMemory) => Outcome::NoMemory,
            Err(SinkError::Full) => Outcome::Full,
        }
    }
}
