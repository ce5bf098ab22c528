//! How the registers of one user of the assembler print, seen as one.

ghost use Rattle.cax64_text.specs.Names.{Names, names_of, printed};

use cax64_register::Registers;

/// What clauses see of the register types of a user: which have a text, and what it is.
pub trait RegisterNames: Registers {
    ghost names: { Names Self.ReadGpr Self.ReadWriteGpr Self.WriteGpr Self.ReadXmm Self.ReadWriteXmm Self.WriteXmm };
}

impl<R: Registers> RegisterNames for R {
    ghost names = { names_of (printed R.ReadGpr.nameable R.ReadGpr.text) (printed R.ReadWriteGpr.nameable R.ReadWriteGpr.text) (printed R.WriteGpr.nameable R.WriteGpr.text) (printed R.ReadXmm.nameable R.ReadXmm.text) (printed R.ReadWriteXmm.nameable R.ReadWriteXmm.text) (printed R.WriteXmm.nameable R.WriteXmm.text) };
}
