//! Why an instruction can't be encoded.

ghost use Rattle.std.specs.Prelude.{◌≡◌, IsSome, Some, [], ◌∷◌};
ghost use Rattle.cax64_encoder.specs.Fault.{is_met, fault_of, first_unmet, sum_fault, late_fault, first_fault};
ghost use Rattle.cax64_encoder.specs.Meant.{place_in};
ghost use Rattle.cax64_encoder.specs.Place.{memory_in};
ghost use Rattle.cax64_encoder.specs.Present.{present};
ghost use Rattle.cax64_encoder.specs.Role.{roles_of};
ghost use Rattle.cax64_encoder.specs.Visits.{place_visits, visits_of};
ghost use Rattle.cax64_operand.specs.Family.{numbering};
ghost use Rattle.cax64_operand.specs.OperandList.{list_of};

use crate::number::Number;
use crate::role::{FixedNumber, PlaceOperand, Role, role_of};
use cax64_address::amode::Amode;
use cax64_address::offset::AmodeOffsetPlusKnownOffset;
use cax64_operand::{Operands, RegisterFamily, RowAndOperands, operands_of};
use cax64_register::{AsReg, Registers, gpr};
use cax64_sink::{CodeSink, KnownOffset};

/// A register as a visit meets it.
#[derive(Clone, Copy, Debug)]
pub enum Visited {
    /// Any real register will do.
    Plain(Number),
    /// The index of an address, which can't be the stack pointer.
    Index(Number),
    Fixed(FixedNumber),
}

/// Why an instruction can't be encoded. Registers are counted in the order of visits, from 0.
#[derive(Clone, Copy, Debug, PartialEq)]
pub enum Fault {
    /// A register that isn't real.
    Register(u8),
    /// An index that is real, but the stack pointer.
    Index(u8),
    /// A fixed register that doesn't hold its number.
    Fixed(u8),
    /// A late offset that the sink doesn't know.
    Unknown(KnownOffset),
    /// A late offset whose sum with the displacement isn't an `i32`.
    Range,
}

impl Visited {
    /// Whether the register is as it has to be.
    pub(crate) fn is_met(self) -> bool
        ensures { result ≡ is_met self }
    {
        match self {
            Visited::Plain(number) => number.is_real(),
            Visited::Index(number) => number.is_index(),
            Visited::Fixed(fixed) => fixed.held.is(fixed.expected),
        }
    }

    /// The fault of a register that isn't as it has to be, by its place in the order of visits.
    fn fault(self, at: u8) -> Fault
        ensures { result ≡ fault_of at self }
    {
        match self {
            Visited::Plain(_) => Fault::Register(at),
            Visited::Index(number) => {
                if number.is(gpr::enc::RSP) {
                    Fault::Index(at)
                } else {
                    Fault::Register(at)
                }
            }
            Visited::Fixed(_) => Fault::Fixed(at),
        }
    }
}

/// The fault of the first register that isn't as it has to be.
fn first_unmet(visits: &[Option<Visited>; 10]) -> Option<Fault>
    ensures { result ≡ first_unmet 0 (present visits.now) }
{
    let mut at = 0;
    for visited in visits {
        if let Some(visited) = visited {
            if !visited.is_met() {
                return Some(visited.fault(at));
            }
            at += 1;
        }
    }
    None
}

/// The register, or the base and the index.
fn place_visits<M: AsReg>(place: &PlaceOperand<M>) -> (Option<Visited>, Option<Visited>)
    ensures { present (result.0 ∷ result.1 ∷ []) ≡ place_visits (numbering M.settled M.enc) place.now [] }
{
    match *place {
        PlaceOperand::NoPlace => (None, None),
        PlaceOperand::Register(number) => (Some(Visited::Plain(number)), None),
        PlaceOperand::Memory(Amode::ImmReg { base, .. }) => {
            (Some(Visited::Plain(Number::of(base))), None)
        }
        PlaceOperand::Memory(Amode::ImmRegRegShift { base, index, .. }) => {
            let index = Number::of(*index.as_ref());
            (
                Some(Visited::Plain(Number::of(base))),
                Some(Visited::Index(index)),
            )
        }
        PlaceOperand::Memory(Amode::RipRelative { .. }) => (None, None),
    }
}

/// The registers of an operand, two at most.
fn visits_of<M: AsReg>(role: Role<M>) -> (Option<Visited>, Option<Visited>)
    ensures { present (result.0 ∷ result.1 ∷ []) ≡ visits_of (numbering M.settled M.enc) (role ∷ []) }
{
    match role {
        Role::Register(number) => (Some(Visited::Plain(number)), None),
        Role::TwoRegisters(first, second, same) => {
            if same {
                (Some(Visited::Plain(first)), None)
            } else {
                (Some(Visited::Plain(first)), Some(Visited::Plain(second)))
            }
        }
        Role::FixedRegister(fixed) => (Some(Visited::Fixed(fixed)), None),
        Role::Place(place) => place_visits(&place),
        Role::Immediate(_) => (None, None),
    }
}

/// The registers of a list of operands, in the order of visits.
fn all_visits<R: Registers>(operands: &Operands<R>) -> [Option<Visited>; 10]
    ensures { present result ≡ visits_of ⟦<R as RegisterFamily>⟧.family.read_gpr (roles_of ⟦<R as RegisterFamily>⟧.family (list_of operands.now)) }
{
    match operands {
        Operands::Zero | Operands::Nop(_) => [None; 10],
        Operands::One(a) => {
            let (a0, a1) = visits_of(role_of(a));
            [a0, a1, None, None, None, None, None, None, None, None]
        }
        Operands::Two(a, b) => {
            let (a0, a1) = visits_of(role_of(a));
            let (b0, b1) = visits_of(role_of(b));
            [a0, a1, b0, b1, None, None, None, None, None, None]
        }
        Operands::Three(a, b, c) => {
            let (a0, a1) = visits_of(role_of(a));
            let (b0, b1) = visits_of(role_of(b));
            let (c0, c1) = visits_of(role_of(c));
            [a0, a1, b0, b1, c0, c1, None, None, None, None]
        }
        Operands::Four(a, b, c, d) => {
            let (a0, a1) = visits_of(role_of(a));
            let (b0, b1) = visits_of(role_of(b));
            let (c0, c1) = visits_of(role_of(c));
            let (d0, d1) = visits_of(role_of(d));
            [a0, a1, b0, b1, c0, c1, d0, d1, None, None]
        }
        Operands::Five(a, b, c, d, e) => {
            let (a0, a1) = visits_of(role_of(a));
            let (b0, b1) = visits_of(role_of(b));
            let (c0, c1) = visits_of(role_of(c));
            let (d0, d1) = visits_of(role_of(d));
            let (e0, e1) = visits_of(role_of(e));
            [a0, a1, b0, b1, c0, c1, d0, d1, e0, e1]
        }
    }
}

/// The fault of a displacement.
fn sum_fault<S: CodeSink>(simm32: AmodeOffsetPlusKnownOffset, sink: &S) -> Option<Fault>
    ensures { result ≡ sum_fault (S.state sink.now).offsets simm32.offset simm32.simm32 }
{
    let key = simm32.offset?;
    if !sink.knows_offset(key) {
        return Some(Fault::Unknown(key));
    }
    if simm32.fits(sink) {
        None
    } else {
        Some(Fault::Range)
    }
}

/// The fault of a late offset.
fn late_fault<M: AsReg, S: CodeSink>(place: &PlaceOperand<M>, sink: &S) -> Option<Fault>
    ensures { result ≡ late_fault (S.state sink.now).offsets (memory_in place.now) }
{
    match *place {
        PlaceOperand::Memory(Amode::ImmReg { simm32, .. }) => sum_fault(simm32, sink),
        _ => None,
    }
}

/// What the rest of the tail names.
#[tactic(auto, using(crate::proofs::Forms::place_first))]
fn place_of<R: Registers>(operands: &Operands<R>) -> PlaceOperand<R::ReadGpr>
    ensures { result ≡ place_in (roles_of ⟦<R as RegisterFamily>⟧.family (list_of operands.now)) }
{
    let none = PlaceOperand::NoPlace;
    match operands {
        Operands::Zero | Operands::Nop(_) => none,
        Operands::One(a) => role_of(a).place_or(none),
        Operands::Two(a, b) => role_of(a).place_or(role_of(b).place_or(none)),
        Operands::Three(a, b, c) => {
            let later = role_of(c).place_or(none);
            role_of(a).place_or(role_of(b).place_or(later))
        }
        Operands::Four(a, b, c, d) => {
            let later = role_of(c).place_or(role_of(d).place_or(none));
            role_of(a).place_or(role_of(b).place_or(later))
        }
        Operands::Five(a, b, c, d, e) => {
            let last = role_of(e).place_or(none);
            let later = role_of(c).place_or(role_of(d).place_or(last));
            role_of(a).place_or(role_of(b).place_or(later))
        }
    }
}

/// Why operands can't be encoded for this sink: the first register, in the order of visits, that isn't as it has to be,
/// or else the late offset.
pub fn first_fault<R: Registers, S: CodeSink>(operands: &Operands<R>, sink: &S) -> Option<Fault>
    ensures { let roles = roles_of ⟦<R as RegisterFamily>⟧.family (list_of operands.now) in
        result ≡ first_fault (S.state sink.now).offsets (visits_of ⟦<R as RegisterFamily>⟧.family.read_gpr roles) (memory_in (place_in roles)) }
{
    match first_unmet(&all_visits(operands)) {
        Some(fault) => Some(fault),
        None => late_fault(&place_of(operands), sink),
    }
}

/// The fault of an instruction that can't be encoded. Its operands are listed for it, which is seldom done, so it stays out
/// of the code of those who ask.
#[cold]
#[inline(never)]
pub(crate) fn listed_fault<I: RowAndOperands, S: CodeSink>(inst: &I, sink: &S) -> Option<Fault>
    ensures { let roles = roles_of ⟦<I::Family as RegisterFamily>⟧.family (list_of (I.operands_of inst.now)) in
        result ≡ first_fault (S.state sink.now).offsets (visits_of ⟦<I::Family as RegisterFamily>⟧.family.read_gpr roles) (memory_in (place_in roles)) }
{
    first_fault(&operands_of(inst), sink)
}

/// The fault of an instruction that has one. Two numbers are answered, where an `Option` would be a place in memory, which
/// who tests and puts would clear for each instruction, with a fault or without.
#[cold]
#[inline(never)]
pub(crate) fn fault_of_unencodable<I: RowAndOperands, S: CodeSink>(inst: &I, sink: &S) -> Fault
    requires { let roles = roles_of ⟦<I::Family as RegisterFamily>⟧.family (list_of (I.operands_of inst.now)) in
        IsSome (first_fault (S.state sink.now).offsets (visits_of ⟦<I::Family as RegisterFamily>⟧.family.read_gpr roles) (memory_in (place_in roles))) }
    ensures { let roles = roles_of ⟦<I::Family as RegisterFamily>⟧.family (list_of (I.operands_of inst.now)) in
        Some result ≡ first_fault (S.state sink.now).offsets (visits_of ⟦<I::Family as RegisterFamily>⟧.family.read_gpr roles) (memory_in (place_in roles)) }
{
    first_fault(&operands_of(inst), sink).unwrap()
}
