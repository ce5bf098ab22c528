//! Texts of immediates.

ghost use Rattle.std.specs.Prelude.{◌≡◌, IsTrue, IfOk, Some, codes, string_bytes};
ghost use Rattle.cax64_immediate.specs.Text.{imm_text, fits_extension, extended8, extended16, extended32};

use crate::{Extension, Imm8, Imm16, Imm32, Imm64, OutOfRange, Simm8, Simm16, Simm32};
use std::alloc::{AllocError, Allocator};
use std::error::Error;
use std::fmt;

impl fmt::Display for OutOfRange {
    ghost output = { λ _. Some (codes "the number doesn't fit in the immediate") };

    fn fmt<W: fmt::Write>(&self, f: &mut fmt::Formatter<W>) -> fmt::Result {
        f.write_str("the number doesn't fit in the immediate")
    }
}

impl Error for OutOfRange {}

impl fmt::Display for Imm8 {
    ghost output = { λ imm. Some (imm_text imm) };

    fn fmt<W: fmt::Write>(&self, f: &mut fmt::Formatter<W>) -> fmt::Result {
        let value = self.value();
        write!(f, "$0x{value:x}")
    }
}

impl fmt::Display for Imm16 {
    ghost output = { λ imm. Some (imm_text imm) };

    fn fmt<W: fmt::Write>(&self, f: &mut fmt::Formatter<W>) -> fmt::Result {
        let value = self.value();
        write!(f, "$0x{value:x}")
    }
}

impl fmt::Display for Imm32 {
    ghost output = { λ imm. Some (imm_text imm) };

    fn fmt<W: fmt::Write>(&self, f: &mut fmt::Formatter<W>) -> fmt::Result {
        let value = self.value();
        write!(f, "$0x{value:x}")
    }
}

impl fmt::Display for Imm64 {
    ghost output = { λ imm. Some (imm_text imm) };

    fn fmt<W: fmt::Write>(&self, f: &mut fmt::Formatter<W>) -> fmt::Result {
        let value = self.value();
        write!(f, "$0x{value:x}")
    }
}

impl Simm8 {
    /// The two's complement of the width that the immediate is extended to.
    pub fn extended(&self, extension: Extension) -> u64
        ensures { result ≡ extended8 extension self.now }
    {
        let value = self.value();
        match extension {
            Extension::None => u64::from(value.cast_unsigned()),
            Extension::SignExtendQuad => i64::from(value).cast_unsigned(),
            Extension::SignExtendLong => u64::from(i32::from(value).cast_unsigned()),
            Extension::SignExtendWord => u64::from(i16::from(value).cast_unsigned()),
        }
    }

    /// Whether the extension is none or wider than the immediate: the condition of `to_string`.
    pub fn fits_extension(&self, extension: Extension) -> bool
        ensures { result ≡ fits_extension 8 extension }
    {
        match extension {
            Extension::None
            | Extension::SignExtendQuad
            | Extension::SignExtendLong
            | Extension::SignExtendWord => true,
        }
    }

    /// The immediate as it prints where the instruction extends it so.
    ///
    /// Fails where there is no memory.
    ///
    /// The extension has to be one of the immediate's, as [`fits_extension`](Self::fits_extension) tells. Where it
    /// isn't, a build that wasn't proved may answer another text.
    pub fn to_string<A: Allocator>(
        &self,
        alloc: A,
        extension: Extension,
    ) -> Result<String<A>, AllocError>
        requires { IsTrue (fits_extension 8 extension) }
        ensures { IfOk result (λ t. string_bytes t ≡ imm_text (extended8 extension self.now)) }
    {
        let bits = self.extended(extension);
        format!(in alloc; "$0x{bits:x}")
    }
}

impl Simm16 {
    /// The two's complement of the width that the immediate is extended to.
    pub fn extended(&self, extension: Extension) -> u64
        ensures { result ≡ extended16 extension self.now }
    {
        let value = self.value();
        match extension {
            Extension::None | Extension::SignExtendWord => u64::from(value.cast_unsigned()),
            Extension::SignExtendQuad => i64::from(value).cast_unsigned(),
            Extension::SignExtendLong => u64::from(i32::from(value).cast_unsigned()),
        }
    }

    /// Whether the extension is none or wider than the immediate: the condition of `to_string`.
    pub fn fits_extension(&self, extension: Extension) -> bool
        ensures { result ≡ fits_extension 16 extension }
    {
        match extension {
            Extension::None | Extension::SignExtendQuad | Extension::SignExtendLong => true,
            Extension::SignExtendWord => false,
        }
    }

    /// The immediate as it prints where the instruction extends it so.
    ///
    /// Fails where there is no memory.
    ///
    /// The extension has to be one of the immediate's, as [`fits_extension`](Self::fits_extension) tells. Where it
    /// isn't, a build that wasn't proved may answer another text.
    pub fn to_string<A: Allocator>(
        &self,
        alloc: A,
        extension: Extension,
    ) -> Result<String<A>, AllocError>
        requires { IsTrue (fits_extension 16 extension) }
        ensures { IfOk result (λ t. string_bytes t ≡ imm_text (extended16 extension self.now)) }
    {
        let bits = self.extended(extension);
        format!(in alloc; "$0x{bits:x}")
    }
}

impl Simm32 {
    /// The two's complement of the width that the immediate is extended to.
    pub fn extended(&self, extension: Extension) -> u64
        ensures { result ≡ extended32 extension self.now }
    {
        let value = self.value();
        match extension {
            Extension::SignExtendQuad => i64::from(value).cast_unsigned(),
            Extension::None | Extension::SignExtendLong | Extension::SignExtendWord => {
                u64::from(value.cast_unsigned())
            }
        }
    }

    /// Whether the extension is none or wider than the immediate: the condition of `to_string`.
    pub fn fits_extension(&self, extension: Extension) -> bool
        ensures { result ≡ fits_extension 32 extension }
    {
        match extension {
            Extension::None | Extension::SignExtendQuad => true,
            Extension::SignExtendLong | Extension::SignExtendWord => false,
        }
    }

    /// The immediate as it prints where the instruction extends it so.
    ///
    /// Fails where there is no memory.
    ///
    /// The extension has to be one of the immediate's, as [`fits_extension`](Self::fits_extension) tells. Where it
    /// isn't, a build that wasn't proved may answer another text.
    pub fn to_string<A: Allocator>(
        &self,
        alloc: A,
        extension: Extension,
    ) -> Result<String<A>, AllocError>
        requires { IsTrue (fits_extension 32 extension) }
        ensures { IfOk result (λ t. string_bytes t ≡ imm_text (extended32 extension self.now)) }
    {
        let bits = self.extended(extension);
        format!(in alloc; "$0x{bits:x}")
    }
}
