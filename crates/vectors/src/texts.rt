//! Texts of instructions and addresses.

use cranelift_assembler_x64::{Dialect, InstructionText};
use named_instructions::address::amode_of;
use named_instructions::fields::{Fault, Fields};
use std::alloc::Global;

/// The texts of an instruction.
#[derive(Drop)]
pub(crate) struct Texts {
    text: String,
    xed: Option<String>,
    mnemonic: &'static str,
    pub(crate) features: String,
}

/// The texts of an instruction whose registers have names.
pub(crate) fn texts_of<I: InstructionText>(alloc: Global, inst: &I) -> Result<Texts, Fault> {
    if !inst.nameable() {
        return Err(Fault::Malformed);
    }
    let features = inst.features(alloc)?;
    Ok(Texts {
        text: inst.to_string(alloc)?,
        xed: inst.to_string_xed(alloc)?,
        mnemonic: inst.mnemonic(),
        features: features.to_string(alloc)?,
    })
}

impl Texts {
    /// The columns of both texts and of the mnemonic, each with a tab behind it.
    pub(crate) fn write(&self, came: &mut String) -> Result<(), Fault> {
        let text = self.text.as_str();
        let xed = self.xed.as_ref().map_or("-", |xed| xed.as_str());
        let mnemonic = self.mnemonic;
        write!(came, "{text}\t{xed}\t{mnemonic}\t")?;
        Ok(())
    }
}

/// An address in both dialects.
pub(crate) fn answer_address(
    alloc: Global,
    fields: &mut Fields<'_>,
    came: &mut String,
) -> Result<(), Fault> {
    let address = amode_of(fields.text()?)?;
    if !address.nameable() {
        return Err(Fault::Malformed);
    }
    let att = address.to_string_in(alloc, Dialect::Att)?;
    let xed = address.to_string_in(alloc, Dialect::Xed)?;
    let (att, xed) = (att.as_str(), xed.as_str());
    write!(came, "{att}\t{xed}")?;
    Ok(())
}
