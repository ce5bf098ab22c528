//! The calls of a visit as text.

ghost use Rattle.std.specs.Prelude.{◌≡◌};

use cranelift_assembler_x64::{Numbers, RegisterVisitor};
use named_instructions::fields::Fault;
use std::alloc::Global;

/// Writes each call that it gets, with spaces between them. The registers stay.
#[derive(Drop)]
pub(crate) struct VisitText {
    text: String,
    is_refused: bool,
}

impl VisitText {
    pub(crate) fn new(alloc: Global) -> VisitText {
        VisitText {
            text: String::new(alloc),
            is_refused: false,
        }
    }

    fn push(&mut self, call: &str, number: u8, fixed: Option<u8>) {
        let space = if self.text.is_empty() { "" } else { " " };
        let written = match fixed {
            Some(fixed) => write!(self.text, "{space}{call}({number},{fixed})"),
            None => write!(self.text, "{space}{call}({number})"),
        };
        if written.is_err() {
            self.is_refused = true;
        }
    }

    /// Writes the calls, or `-` where there are none.
    pub(crate) fn write(&self, came: &mut String) -> Result<(), Fault> {
        if self.is_refused {
            return Err(Fault::NoMemory);
        }
        if self.text.is_empty() {
            came.push('-')?;
        } else {
            came.push_str(self.text.as_str())?;
        }
        Ok(())
    }
}

impl RegisterVisitor<Numbers> for VisitText {
    ghost steps = { record {
      read_gpr = λ v r t w. t ≡ r;
      read_write_gpr = λ v r t w. t ≡ r;
      write_gpr = λ v r t w. t ≡ r;
      fixed_read_gpr = λ n v r t w. t ≡ r;
      fixed_read_write_gpr = λ n v r t w. t ≡ r;
      fixed_write_gpr = λ n v r t w. t ≡ r;
      read_xmm = λ v r t w. t ≡ r;
      read_write_xmm = λ v r t w. t ≡ r;
      write_xmm = λ v r t w. t ≡ r;
      fixed_read_xmm = λ n v r t w. t ≡ r;
      fixed_read_write_xmm = λ n v r t w. t ≡ r;
      fixed_write_xmm = λ n v r t w. t ≡ r;
    } };

    fn read_gpr(&mut self, reg: &mut u8) {
        self.push("read_gpr", *reg, None);
    }

    fn read_write_gpr(&mut self, reg: &mut u8) {
        self.push("read_write_gpr", *reg, None);
    }

    fn write_gpr(&mut self, reg: &mut u8) {
        self.push("write_gpr", *reg, None);
    }

    fn fixed_read_gpr(&mut self, reg: &mut u8, enc: u8) {
        self.push("fixed_read_gpr", *reg, Some(enc));
    }

    fn fixed_read_write_gpr(&mut self, reg: &mut u8, enc: u8) {
        self.push("fixed_read_write_gpr", *reg, Some(enc));
    }

    fn fixed_write_gpr(&mut self, reg: &mut u8, enc: u8) {
        self.push("fixed_write_gpr", *reg, Some(enc));
    }

    fn read_xmm(&mut self, reg: &mut u8) {
        self.push("read_xmm", *reg, None);
    }

    fn read_write_xmm(&mut self, reg: &mut u8) {
        self.push("read_write_xmm", *reg, None);
    }

    fn write_xmm(&mut self, reg: &mut u8) {
        self.push("write_xmm", *reg, None);
    }

    fn fixed_read_xmm(&mut self, reg: &mut u8, enc: u8) {
        self.push("fixed_read_xmm", *reg, Some(enc));
    }

    fn fixed_read_write_xmm(&mut self, reg: &mut u8, enc: u8) {
        self.push("fixed_read_write_xmm", *reg, Some(enc));
    }

    fn fixed_write_xmm(&mut self, reg: &mut u8, enc: u8) {
        self.push("fixed_write_xmm", *reg, Some(enc));
    }
}
