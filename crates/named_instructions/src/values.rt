//! The fields of an instruction.

use crate::address::amode_of;
use crate::fields::{Fault, Fields, parsed};
use cranelift_assembler_x64::{
    Amode, DeferredTarget, Fixed, Gpr, GprMem, Imm8, Imm16, Imm32, Simm8, Simm32, Xmm, XmmMem,
};

/// The fields of an instruction that are still to be read, each a name, `=` and a value. A field that can't be read is 0,
/// and the fault is kept.
#[derive(Clone, Copy)]
pub(crate) struct Values<'a> {
    rest: Fields<'a>,
    fault: Option<Fault>,
}

impl<'a> Values<'a> {
    pub(crate) fn new(fields: &'a str) -> Values<'a> {
        Values {
            rest: Fields::list(fields, ' '),
            fault: None,
        }
    }

    /// Whether all was read, and nothing is left.
    pub(crate) fn end(&self) -> Result<(), Fault> {
        match self.fault {
            Some(fault) => Err(fault),
            None if self.rest.is_at_end() => Ok(()),
            None => Err(Fault::Malformed),
        }
    }

    fn value(&mut self, name: &str) -> Result<&'a str, Fault> {
        match self.rest.text()?.split_once('=') {
            Some((found, value)) if found == name => Ok(value),
            _ => Err(Fault::Malformed),
        }
    }

    fn or_fault<T: Copy>(&mut self, read: Result<T, Fault>, zero: T) -> T {
        match read {
            Ok(value) => value,
            Err(fault) => {
                self.fault = Some(fault);
                zero
            }
        }
    }

    fn register(&mut self, name: &str) -> u8 {
        let read = self.value(name).and_then(parsed);
        self.or_fault(read, 0)
    }

    pub(crate) fn gpr(&mut self, name: &str) -> Gpr {
        Gpr::new(self.register(name))
    }

    pub(crate) fn xmm(&mut self, name: &str) -> Xmm {
        Xmm::new(self.register(name))
    }

    pub(crate) fn fixed<const E: u8>(&mut self, name: &str) -> Fixed<u8, E> {
        Fixed(self.register(name))
    }

    pub(crate) fn amode(&mut self, name: &str) -> Amode<u8> {
        let read = self.value(name).and_then(amode_of);
        self.or_fault(read, NOWHERE)
    }

    pub(crate) fn gpr_mem(&mut self, name: &str) -> GprMem<u8, u8> {
        let read = self.value(name).and_then(gpr_mem_of);
        self.or_fault(read, GprMem::Gpr(0))
    }

    pub(crate) fn xmm_mem(&mut self, name: &str) -> XmmMem<u8, u8> {
        match self.gpr_mem(name) {
            GprMem::Gpr(number) => XmmMem::Xmm(number),
            GprMem::Mem(amode) => XmmMem::Mem(amode),
        }
    }

    pub(crate) fn imm8(&mut self, name: &str) -> Imm8 {
        let read = self.value(name).and_then(parsed);
        Imm8::new(self.or_fault(read, 0))
    }

    pub(crate) fn imm16(&mut self, name: &str) -> Imm16 {
        let read = self.value(name).and_then(parsed);
        Imm16::new(self.or_fault(read, 0))
    }

    pub(crate) fn imm32(&mut self, name: &str) -> Imm32 {
        let read = self.value(name).and_then(parsed);
        Imm32::new(self.or_fault(read, 0u32))
    }

    pub(crate) fn simm8(&mut self, name: &str) -> Simm8 {
        let read = self.value(name).and_then(parsed);
        Simm8::new(self.or_fault(read, 0))
    }

    pub(crate) fn simm32(&mut self, name: &str) -> Simm32 {
        let read = self.value(name).and_then(parsed);
        Simm32::new(self.or_fault(read, 0))
    }
}

/// A place that stands for none.
const NOWHERE: Amode<u8> = Amode::RipRelative {
    target: DeferredTarget::None,
};

/// A register behind `reg:`, or an address.
fn gpr_mem_of(text: &str) -> Result<GprMem<u8, u8>, Fault> {
    match text.strip_prefix("reg:") {
        Some(number) => Ok(GprMem::Gpr(parsed(number)?)),
        None => Ok(GprMem::Mem(amode_of(text)?)),
    }
}
