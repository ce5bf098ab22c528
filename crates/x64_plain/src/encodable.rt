//! An instruction in integers that can be encoded, tested by one look at the largest numbers of its line and its place.

ghost use Rattle.std.specs.Prelude.{◌≡◌, ◌<◌, ◌^◌, IfSome, IsTrue, None, true};
ghost use Rattle.cax64_machine_code.specs.Line.{imm_bytes};
ghost use Rattle.x64_place.specs.Tail.{kind_number};
ghost use Rattle.x64_plain.specs.Encodable.{IsImm, IsReady, fields_number, imm_number, imm_part, is_ready, is_within, settled_place};
ghost use Rattle.x64_plain.specs.Plain.{plain};
ghost use Rattle.x64_core.specs.Core.{is_encodable};
ghost use Rattle.x64_lines.specs.Shape.{imm_field};
ghost use Rattle.x64_core.specs.View.{core_view};

use crate::inst::HqInst;
use crate::place::{HqPlace, kind_of};
use cax64_register::gpr;
use x64_core::Core;
use x64_lines::Op;
use x64_lines::shapes::{OpFields, OpImm};
use x64_place::PlaceKind;

/// The largest numbers of an instruction that can be encoded, by the operands of its line and the kind of its place: 0 of what
/// it lacks. The first eight stand in the order of `HqInst`, so that they are compared at once, and the displacement and the
/// target are looked at as one word.
struct Limits {
    reg: u8,
    vvvv: u8,
    base: u8,
    index: u8,
    scale: u8,
    trap: u8,
    has_offset: u8,
    offset: u8,
    /// The bits that have to be 0 of the displacement's bytes as a word, and above them of the target.
    absent: u64,
    /// What `reserved` is below: 0 where the line doesn't take such a place.
    reserved: u8,
}

/// Nothing.
const NOTHING: Limits = Limits {
    reg: 0,
    vvvv: 0,
    base: 0,
    index: 0,
    scale: 0,
    trap: 0,
    has_offset: 0,
    offset: 0,
    absent: 0xFFFF_FFFF_FFFF_FFFF,
    reserved: 1,
};

/// A place that the line doesn't take.
const NONE: Limits = Limits {
    reserved: 0,
    ..NOTHING
};

const REGISTER: Limits = Limits {
    base: 15,
    ..NOTHING
};

const BASE: Limits = Limits {
    base: 15,
    trap: 255,
    absent: 0xFFFF_FFFF_0000_0000,
    ..NOTHING
};

const INDEX: Limits = Limits {
    base: 15,
    index: 15,
    scale: 3,
    trap: 255,
    absent: 0xFFFF_FFFF_0000_0000,
    ..NOTHING
};

const TARGET: Limits = Limits {
    absent: 0xFFFF_FFFF,
    ..NOTHING
};

/// For the fields of each line the seven kinds of place, by their numbers, and one that there isn't.
#[rattlefmt::skip]
static LIMITS: [Limits; 48] = [
    // Bare
    NOTHING,
    NONE,
    NONE,
    NONE,
    NONE,
    NONE,
    NONE,
    NONE,
    // Rm
    NONE,
    REGISTER,
    BASE,
    INDEX,
    TARGET,
    TARGET,
    NOTHING,
    NONE,
    // Mem
    NONE,
    NONE,
    BASE,
    INDEX,
    TARGET,
    TARGET,
    NOTHING,
    NONE,
    // RegRm
    NONE,
    Limits { reg: 15, ..REGISTER },
    Limits { reg: 15, ..BASE },
    Limits { reg: 15, ..INDEX },
    Limits { reg: 15, ..TARGET },
    Limits { reg: 15, ..TARGET },
    Limits { reg: 15, ..NOTHING },
    NONE,
    // RegMem
    NONE,
    NONE,
    Limits { reg: 15, ..BASE },
    Limits { reg: 15, ..INDEX },
    Limits { reg: 15, ..TARGET },
    Limits { reg: 15, ..TARGET },
    Limits { reg: 15, ..NOTHING },
    NONE,
    // RegVvvvRm
    NONE,
    Limits { reg: 15, vvvv: 15, ..REGISTER },
    Limits { reg: 15, vvvv: 15, ..BASE },
    Limits { reg: 15, vvvv: 15, ..INDEX },
    Limits { reg: 15, vvvv: 15, ..TARGET },
    Limits { reg: 15, vvvv: 15, ..TARGET },
    Limits { reg: 15, vvvv: 15, ..NOTHING },
    NONE,
];

/// The number of the fields of a line, in the order in which they are listed.
#[inline(always)]
fn fields_number(fields: OpFields) -> usize
    ensures is { result ≡ fields_number fields }
    ensures below { result < 6 }
{
    match fields {
        OpFields::Bare => 0,
        OpFields::Rm => 1,
        OpFields::Mem => 2,
        OpFields::RegRm => 3,
        OpFields::RegMem => 4,
        OpFields::RegVvvvRm => 5,
    }
}

/// The number of the kind of an immediate, in the order in which they are listed.
#[inline(always)]
fn imm_number(kind: OpImm) -> usize
    ensures is { result ≡ imm_number kind }
    ensures below { result < 6 }
{
    match kind {
        OpImm::None => 0,
        OpImm::U8 => 1,
        OpImm::U16 => 2,
        OpImm::U32 => 3,
        OpImm::I8 => 4,
        OpImm::I32 => 5,
    }
}

/// The bits of the bytes of an immediate among the low 32 bits of its value, by the number of its kind. An unsigned one has no
/// others.
static BITS: [u32; 6] = [
    0xFFFF_FFFF,
    0xFFFF_FFFF,
    0xFFFF_FFFF,
    0xFFFF_FFFF,
    0xFF,
    0xFFFF_FFFF,
];

/// The bytes of an immediate of this kind as one word, the first one the lowest, from the low 32 bits of its value.
#[inline(always)]
fn imm_part(kind: OpImm, low: u32) -> u32
    ensures { result ≡ imm_part kind low }
{
    low & BITS[imm_number(kind)]
}

/// Whether these are the low 32 bits of an immediate of this kind. It isn't asked first whether a signed byte is wanted, since a
/// branch on that is often guessed wrong.
#[inline(always)]
fn is_imm(kind: OpImm, low: u32) -> bool
    ensures { result ≡ true → IsImm kind low }
{
    let from_0 = if matches!(kind, OpImm::I8) {
        low.wrapping_add(128)
    } else {
        low
    };
    u64::from(from_0) < kind.limit()
}

impl HqInst {
    /// Its place, which has no late offset.
    #[inline(always)]
    fn settled_place(&self) -> HqPlace
        ensures { result ≡ settled_place self.now }
    {
        HqPlace {
            place: self.place,
            base: self.base,
            index: self.index,
            scale: self.scale,
            trap: self.trap,
            has_offset: 0,
            offset: 0,
            reserved: 0,
            disp: self.disp,
            target: self.target,
        }
    }

    /// Whether each number is at most the one of these, and the index isn't the stack pointer.
    #[inline(always)]
    fn is_within(&self, most: &Limits) -> bool
        ensures { result ≡ is_within most.now self.now }
    {
        let numbers = (self.reg <= most.reg)
            & (self.vvvv <= most.vvvv)
            & (self.base <= most.base)
            & (self.index <= most.index)
            & (self.scale <= most.scale)
            & (self.trap <= most.trap)
            & (self.has_offset <= most.has_offset)
            & (self.offset <= most.offset);
        let words = u64::from(self.disp.cast_unsigned()) + (u64::from(self.target) << 32);
        numbers
            & (self.reserved < most.reserved)
            & (self.index != gpr::enc::RSP)
            & ((words & most.absent) == 0)
    }

    /// Whether it is an instruction of a line with these fields and of this place, which is its own, but for the immediate, and
    /// can be encoded where no late offset is known.
    #[inline(always)]
    fn is_ready(&self, fields: OpFields, kind: PlaceKind) -> bool
        requires { kind_number kind ≡ self.now.place }
        ensures { result ≡ is_ready fields kind self.now }
    {
        self.is_within(&LIMITS[fields_number(fields) * 8 + usize::from(self.place)])
    }

    /// Whether it is an instruction that can be encoded where no late offset is known. False says nothing: [`core`](Self::core)
    /// tells what else it may be.
    #[inline(always)]
    pub fn is_encodable(&self) -> bool
        ensures { result ≡ true → IsReady self.now }
    {
        let Some(op) = Op::from_number(self.line) else {
            return false;
        };
        let Some(kind) = kind_of(self.place) else {
            return false;
        };
        let shape = op.shape();
        self.is_ready(shape.fields, kind) && is_imm(shape.imm, self.imm)
    }

    /// The instruction of the core that these integers are.
    ///
    /// It has to be one that can be encoded where no late offset is known, as [`is_encodable`](Self::is_encodable) tells. Where it
    /// isn't, a build that wasn't proved may make a wrong instruction, or abort.
    #[inline(always)]
    pub fn encodable_core(&self) -> Core
        requires { IsReady self.now }
        ensures is { plain (core_view result) ≡ self.now }
        ensures encodable { IsTrue (is_encodable (λ _. None) (core_view result)) }
    {
        let op = Op::of_number(self.line);
        let kind = kind_of(self.place).unwrap();
        let word = imm_part(op.shape().imm, self.imm);
        let place = self.settled_place().whole_numbers(kind);
        Core::of_fitting(op, self.reg, self.vvvv, place, word)
    }

    /// The instruction of the core that these integers are, if it can be encoded where no late offset is known. `None` says
    /// nothing: [`core`](Self::core) tells what else they may be.
    #[inline(always)]
    pub fn encodable(&self) -> Option<Core>
        ensures is { IfSome result (λ c. plain (core_view c) ≡ self.now) }
        ensures encodable { IfSome result (λ c. IsTrue (is_encodable (λ _. None) (core_view c))) }
    {
        if self.is_encodable() {
            Some(self.encodable_core())
        } else {
            None
        }
    }
}
