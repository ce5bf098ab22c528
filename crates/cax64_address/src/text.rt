//! Texts of displacements and of memory operands.

ghost use Rattle.std.specs.Prelude.{◌≡◌, ◌++◌, IsTrue, IfOk, OnErr, OnOk, Some, codes, string_bytes};
ghost use Rattle.cax64_machine_code.specs.Sequence.{IsFront};
ghost use Rattle.cax64_register.specs.declared.gpr.Size.TheVariants.{Quadword};
ghost use Rattle.cax64_address.specs.Text.{magnitude_text, offset_text, late_text, comma, scale_text, amode_text, amode_nameable, gpr_mem_text, gpr_mem_nameable, xmm_mem_text, xmm_mem_nameable};
ghost use Rattle.cax64_address.specs.declared.text.Dialect.TheVariants.{Att, Xed};

use crate::amode::{Amode, Scale};
use crate::number::{add_decimal, add_hexadecimal, add_short_number};
use crate::offset::{AmodeOffset, AmodeOffsetPlusKnownOffset};
use crate::operand::{GprMem, XmmMem};
use crate::refused::or_taken_back;
use cax64_register::{AsReg, Size};
use std::alloc::{AllocError, Allocator};

/// How addresses and numbers are written.
#[derive(Clone, Copy, Debug, PartialEq)]
pub enum Dialect {
    /// As in AT&T's assembler, with small numbers in decimal.
    Att,
    /// As Intel's XED prints AT&T's syntax.
    Xed,
}

/// Room for the text of any address of the hardware's registers.
const ROOM: usize = 64;

fn add_magnitude<A: Allocator>(
    out: &mut String<A>,
    dialect: Dialect,
    magnitude: u32,
) -> Result<(), AllocError>
    ensures text { OnOk result (string_bytes out.new ≡ string_bytes out.old ++ magnitude_text dialect magnitude) }
    ensures front { IsFront (string_bytes out.old) (string_bytes out.new) }
{
    match dialect {
        Dialect::Att => add_short_number(out, u64::from(magnitude)),
        Dialect::Xed => add_hexadecimal(out, u64::from(magnitude)),
    }
}

impl AmodeOffset {
    fn add_to<A: Allocator>(&self, out: &mut String<A>, dialect: Dialect) -> Result<(), AllocError>
        ensures text { OnOk result (string_bytes out.new ≡ string_bytes out.old ++ offset_text dialect self.now) }
        ensures front { IsFront (string_bytes out.old) (string_bytes out.new) }
    {
        let value = self.value();
        if value == 0 {
            return Ok(());
        }
        if value < 0 {
            out.push('-')?;
        }
        add_magnitude(out, dialect, value.unsigned_abs())
    }

    /// Adds the text to `out`.
    ///
    /// Fails where there is no memory, and then leaves the text as it was.
    pub fn push_to<A: Allocator>(
        &self,
        out: &mut String<A>,
        dialect: Dialect,
    ) -> Result<(), AllocError>
        ensures text { OnOk result (string_bytes out.new ≡ string_bytes out.old ++ offset_text dialect self.now) }
        ensures kept { OnErr result (string_bytes out.new ≡ string_bytes out.old) }
    {
        let len = out.len();
        let added = self.add_to(out, dialect);
        or_taken_back(out, len, added)
    }

    /// The text: nothing for no displacement.
    ///
    /// Fails where there is no memory.
    pub fn to_string_in<A: Allocator + Copy>(
        &self,
        alloc: A,
        dialect: Dialect,
    ) -> Result<String<A>, AllocError>
        ensures { IfOk result (λ t. string_bytes t ≡ offset_text dialect self.now) }
    {
        let mut out = String::with_capacity(alloc, ROOM)?;
        self.push_to(&mut out, dialect)?;
        Ok(out)
    }
}

fn add_late<A: Allocator>(out: &mut String<A>, key: u8) -> Result<(), AllocError>
    ensures text { OnOk result (string_bytes out.new ≡ string_bytes out.old ++ late_text (Some key)) }
    ensures front { IsFront (string_bytes out.old) (string_bytes out.new) }
{
    out.push_str("<offset:")?;
    add_decimal(out, key)?;
    out.push_str(">+")
}

impl AmodeOffsetPlusKnownOffset {
    fn add_to<A: Allocator>(&self, out: &mut String<A>, dialect: Dialect) -> Result<(), AllocError>
        ensures text { OnOk result (string_bytes out.new ≡ string_bytes out.old ++ late_text self.now.offset ++ offset_text dialect self.now.simm32) }
        ensures front { IsFront (string_bytes out.old) (string_bytes out.new) }
    {
        if let Some(key) = self.offset {
            add_late(out, key)?;
        }
        self.simm32.add_to(out, dialect)
    }

    /// Adds the text to `out`.
    ///
    /// Fails where there is no memory, and then leaves the text as it was.
    pub fn push_to<A: Allocator>(
        &self,
        out: &mut String<A>,
        dialect: Dialect,
    ) -> Result<(), AllocError>
        ensures text { OnOk result (string_bytes out.new ≡ string_bytes out.old ++ late_text self.now.offset ++ offset_text dialect self.now.simm32) }
        ensures kept { OnErr result (string_bytes out.new ≡ string_bytes out.old) }
    {
        let len = out.len();
        let added = self.add_to(out, dialect);
        or_taken_back(out, len, added)
    }

    /// The text: the key of the late offset, and the displacement.
    ///
    /// Fails where there is no memory.
    pub fn to_string_in<A: Allocator + Copy>(
        &self,
        alloc: A,
        dialect: Dialect,
    ) -> Result<String<A>, AllocError>
        ensures { IfOk result (λ t. string_bytes t ≡ late_text self.now.offset ++ offset_text dialect self.now.simm32) }
    {
        let mut out = String::with_capacity(alloc, ROOM)?;
        self.push_to(&mut out, dialect)?;
        Ok(out)
    }
}

fn scale_text(dialect: Dialect, scale: Scale) -> &'static str
    ensures { result.now ≡ scale_text dialect scale }
{
    match dialect {
        Dialect::Att => match scale {
            Scale::One => "",
            Scale::Two => ", 2",
            Scale::Four => ", 4",
            Scale::Eight => ", 8",
        },
        Dialect::Xed => match scale {
            Scale::One => ",1",
            Scale::Two => ",2",
            Scale::Four => ",4",
            Scale::Eight => ",8",
        },
    }
}

fn comma(dialect: Dialect) -> &'static str
    ensures { result.now ≡ comma dialect }
{
    match dialect {
        Dialect::Att => ", ",
        Dialect::Xed => ",",
    }
}

/// Adds what stands in parentheses where there is an index.
fn add_indexed<R: AsReg, A: Allocator + Copy>(
    out: &mut String<A>,
    alloc: A,
    dialect: Dialect,
    base: R,
    index: R,
    scale: Scale,
) -> Result<(), AllocError>
    requires base { IsTrue (R.nameable base) }
    requires index { IsTrue (R.nameable index) }
    ensures text { OnOk result (string_bytes out.new ≡ string_bytes out.old ++ codes "(" ++ R.text base (Some Quadword) ++ comma dialect ++ R.text index (Some Quadword) ++ scale_text dialect scale ++ codes ")") }
    ensures front { IsFront (string_bytes out.old) (string_bytes out.new) }
{
    out.push('(')?;
    base.push_to(out, alloc, Some(Size::Quadword))?;
    out.push_str(comma(dialect))?;
    index.push_to(out, alloc, Some(Size::Quadword))?;
    out.push_str(scale_text(dialect, scale))?;
    out.push(')')
}

impl<R: AsReg> Amode<R> {
    /// Whether the registers have texts: the condition of `to_string_in`.
    #[inline(always)]
    pub fn nameable(&self) -> bool
        ensures { result ≡ amode_nameable R.nameable self.now }
    {
        match *self {
            Amode::ImmReg { base, .. } => base.nameable(),
            Amode::ImmRegRegShift { base, index, .. } => {
                base.nameable() && index.as_ref().nameable()
            }
            Amode::RipRelative { .. } => true,
        }
    }

    fn add_to<A: Allocator + Copy>(
        &self,
        out: &mut String<A>,
        alloc: A,
        dialect: Dialect,
    ) -> Result<(), AllocError>
        requires { IsTrue (amode_nameable R.nameable self.now) }
        ensures text { OnOk result (string_bytes out.new ≡ string_bytes out.old ++ amode_text R.text dialect self.now) }
        ensures front { IsFront (string_bytes out.old) (string_bytes out.new) }
    {
        match *self {
            Amode::ImmReg { base, simm32, .. } => {
                simm32.add_to(out, dialect)?;
                out.push('(')?;
                base.push_to(out, alloc, Some(Size::Quadword))?;
                out.push(')')
            }
            Amode::ImmRegRegShift {
                base,
                index,
                scale,
                simm32,
                ..
            } => {
                simm32.add_to(out, dialect)?;
                add_indexed(out, alloc, dialect, base, *index.as_ref(), scale)
            }
            Amode::RipRelative { .. } => out.push_str("(%rip)"),
        }
    }

    /// Adds the text to `out`.
    ///
    /// Fails where there is no memory, and then leaves the text as it was.
    ///
    /// The registers need texts, as [`nameable`](Self::nameable) tells. Where one has none, a build that wasn't proved
    /// may answer another text, or abort.
    pub fn push_to<A: Allocator + Copy>(
        &self,
        out: &mut String<A>,
        alloc: A,
        dialect: Dialect,
    ) -> Result<(), AllocError>
        requires { IsTrue (amode_nameable R.nameable self.now) }
        ensures text { OnOk result (string_bytes out.new ≡ string_bytes out.old ++ amode_text R.text dialect self.now) }
        ensures kept { OnErr result (string_bytes out.new ≡ string_bytes out.old) }
    {
        let len = out.len();
        let added = self.add_to(out, alloc, dialect);
        or_taken_back(out, len, added)
    }

    /// The text, with base and index at 64 bits.
    ///
    /// Fails where there is no memory.
    ///
    /// The registers need texts, as [`nameable`](Self::nameable) tells. Where one has none, a build that wasn't proved
    /// may answer another text, or abort.
    pub fn to_string_in<A: Allocator + Copy>(
        &self,
        alloc: A,
        dialect: Dialect,
    ) -> Result<String<A>, AllocError>
        requires { IsTrue (amode_nameable R.nameable self.now) }
        ensures { IfOk result (λ t. string_bytes t ≡ amode_text R.text dialect self.now) }
    {
        let mut out = String::with_capacity(alloc, ROOM)?;
        self.push_to(&mut out, alloc, dialect)?;
        Ok(out)
    }
}

impl<R: AsReg, M: AsReg> GprMem<R, M> {
    /// Whether the registers have texts: the condition of `to_string`.
    #[inline(always)]
    pub fn nameable(&self) -> bool
        ensures { result ≡ gpr_mem_nameable R.nameable M.nameable self.now }
    {
        match self {
            GprMem::Gpr(reg) => reg.nameable(),
            GprMem::Mem(amode) => amode.nameable(),
        }
    }

    /// Adds the text to `out`.
    ///
    /// Fails where there is no memory, and then leaves the text as it was.
    ///
    /// The registers need texts, as [`nameable`](Self::nameable) tells. Where one has none, a build that wasn't proved
    /// may answer another text, or abort.
    pub fn push_to<A: Allocator + Copy>(
        &self,
        out: &mut String<A>,
        alloc: A,
        dialect: Dialect,
        size: Size,
    ) -> Result<(), AllocError>
        requires { IsTrue (gpr_mem_nameable R.nameable M.nameable self.now) }
        ensures text { OnOk result (string_bytes out.new ≡ string_bytes out.old ++ gpr_mem_text R.text M.text dialect self.now size) }
        ensures kept { OnErr result (string_bytes out.new ≡ string_bytes out.old) }
    {
        match self {
            GprMem::Gpr(reg) => reg.push_to(out, alloc, Some(size)),
            GprMem::Mem(amode) => amode.push_to(out, alloc, dialect),
        }
    }

    /// The text: the register at this size, or the memory.
    ///
    /// Fails where there is no memory.
    ///
    /// The registers need texts, as [`nameable`](Self::nameable) tells. Where one has none, a build that wasn't proved
    /// may answer another text, or abort.
    pub fn to_string<A: Allocator + Copy>(
        &self,
        alloc: A,
        size: Size,
    ) -> Result<String<A>, AllocError>
        requires { IsTrue (gpr_mem_nameable R.nameable M.nameable self.now) }
        ensures { IfOk result (λ t. string_bytes t ≡ gpr_mem_text R.text M.text Att self.now size) }
    {
        let mut out = String::with_capacity(alloc, ROOM)?;
        self.push_to(&mut out, alloc, Dialect::Att, size)?;
        Ok(out)
    }

    /// The text as XED prints it.
    ///
    /// Fails where there is no memory.
    ///
    /// The registers need texts, as [`nameable`](Self::nameable) tells. Where one has none, a build that wasn't proved
    /// may answer another text, or abort.
    pub fn to_string_xed<A: Allocator + Copy>(
        &self,
        alloc: A,
        size: Size,
    ) -> Result<String<A>, AllocError>
        requires { IsTrue (gpr_mem_nameable R.nameable M.nameable self.now) }
        ensures { IfOk result (λ t. string_bytes t ≡ gpr_mem_text R.text M.text Xed self.now size) }
    {
        let mut out = String::with_capacity(alloc, ROOM)?;
        self.push_to(&mut out, alloc, Dialect::Xed, size)?;
        Ok(out)
    }
}

impl<R: AsReg, M: AsReg> XmmMem<R, M> {
    /// Whether the registers have texts: the condition of `to_string`.
    #[inline(always)]
    pub fn nameable(&self) -> bool
        ensures { result ≡ xmm_mem_nameable R.nameable M.nameable self.now }
    {
        match self {
            XmmMem::Xmm(reg) => reg.nameable(),
            XmmMem::Mem(amode) => amode.nameable(),
        }
    }

    /// Adds the text to `out`.
    ///
    /// Fails where there is no memory, and then leaves the text as it was.
    ///
    /// The registers need texts, as [`nameable`](Self::nameable) tells. Where one has none, a build that wasn't proved
    /// may answer another text, or abort.
    pub fn push_to<A: Allocator + Copy>(
        &self,
        out: &mut String<A>,
        alloc: A,
        dialect: Dialect,
    ) -> Result<(), AllocError>
        requires { IsTrue (xmm_mem_nameable R.nameable M.nameable self.now) }
        ensures text { OnOk result (string_bytes out.new ≡ string_bytes out.old ++ xmm_mem_text R.text M.text dialect self.now) }
        ensures kept { OnErr result (string_bytes out.new ≡ string_bytes out.old) }
    {
        match self {
            XmmMem::Xmm(reg) => reg.push_to(out, alloc, None),
            XmmMem::Mem(amode) => amode.push_to(out, alloc, dialect),
        }
    }

    /// The text: the register, or the memory.
    ///
    /// Fails where there is no memory.
    ///
    /// The registers need texts, as [`nameable`](Self::nameable) tells. Where one has none, a build that wasn't proved
    /// may answer another text, or abort.
    pub fn to_string<A: Allocator + Copy>(&self, alloc: A) -> Result<String<A>, AllocError>
        requires { IsTrue (xmm_mem_nameable R.nameable M.nameable self.now) }
        ensures { IfOk result (λ t. string_bytes t ≡ xmm_mem_text R.text M.text Att self.now) }
    {
        let mut out = String::with_capacity(alloc, ROOM)?;
        self.push_to(&mut out, alloc, Dialect::Att)?;
        Ok(out)
    }

    /// The text as XED prints it.
    ///
    /// Fails where there is no memory.
    ///
    /// The registers need texts, as [`nameable`](Self::nameable) tells. Where one has none, a build that wasn't proved
    /// may answer another text, or abort.
    pub fn to_string_xed<A: Allocator + Copy>(&self, alloc: A) -> Result<String<A>, AllocError>
        requires { IsTrue (xmm_mem_nameable R.nameable M.nameable self.now) }
        ensures { IfOk result (λ t. string_bytes t ≡ xmm_mem_text R.text M.text Xed self.now) }
    {
        let mut out = String::with_capacity(alloc, ROOM)?;
        self.push_to(&mut out, alloc, Dialect::Xed)?;
        Ok(out)
    }
}
