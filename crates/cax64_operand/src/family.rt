//! The register types of one user of the assembler, seen as one.

ghost use Rattle.cax64_operand.specs.Family.{Family, family_of, numbering};

use cax64_register::Registers;

/// What clauses see of the register types of a user: how each is numbered.
pub trait RegisterFamily: Registers {
    ghost family: { Family Self.ReadGpr Self.ReadWriteGpr Self.WriteGpr Self.ReadXmm Self.ReadWriteXmm Self.WriteXmm };
}

impl<R: Registers> RegisterFamily for R {
    ghost family = { family_of (numbering R.ReadGpr.settled R.ReadGpr.enc) (numbering R.ReadWriteGpr.settled R.ReadWriteGpr.enc) (numbering R.WriteGpr.settled R.WriteGpr.enc) (numbering R.ReadXmm.settled R.ReadXmm.enc) (numbering R.ReadWriteXmm.settled R.ReadWriteXmm.enc) (numbering R.WriteXmm.settled R.WriteXmm.enc) R.WriteGpr.eq };
}
