//! The operands in the text of an instruction print as a plain walk over their list prints them.

use crate::parts::{Plain, base, gpr_at, indexed, xmm_at};
use arith::{andb_i, mulxl_rvm, xchgw_rm};
use cax64_address::amode::{Amode, Scale};
use cax64_address::operand::{GprMem, XmmMem};
use cax64_address::text::Dialect;
use cax64_immediate::{Imm8, Simm8};
use cax64_operand::{Immediate, Operand, Operands, RowAndOperands, operands_of};
use cax64_register::{AsReg, Fixed, Gpr, Registers, Size, Xmm};
use cax64_text::InstructionText;
use jump::je_d8;
use lock_x::{lock_cmpxchg16b_m, lock_xaddl_mr};
use nop::nop_2b;
use simd::vcmpps_b;
use std::alloc::{AllocError, Global};

/// The operands of an instruction in its text, one behind the other.
#[derive(Drop)]
struct List {
    text: String,
    /// Whether they stand in the order of visits, and not from the last to the first.
    forward: bool,
}

impl List {
    fn add(self, alloc: Global, operand: &str) -> Result<List, AllocError> {
        let (list, forward) = (self.text.as_str(), self.forward);
        let text = if list.len() == 0 {
            String::from_str(alloc, operand)?
        } else if forward {
            format!(in alloc; "{list}, {operand}")?
        } else {
            format!(in alloc; "{operand}, {list}")?
        };
        Ok(List { text, forward })
    }

    fn add_text(
        self,
        alloc: Global,
        operand: Result<String, AllocError>,
    ) -> Result<List, AllocError> {
        let operand = operand?;
        self.add(alloc, operand.as_str())
    }

    fn add_register<R: AsReg>(
        self,
        alloc: Global,
        reg: R,
        size: Option<Size>,
    ) -> Result<List, AllocError> {
        if reg.nameable() {
            self.add_text(alloc, reg.to_string(alloc, size))
        } else {
            Ok(self)
        }
    }

    fn add_address<R: AsReg>(self, alloc: Global, address: Amode<R>) -> Result<List, AllocError> {
        if address.nameable() {
            self.add_text(alloc, address.to_string_in(alloc, Dialect::Att))
        } else {
            Ok(self)
        }
    }

    fn add_number(self, alloc: Global, number: u8) -> Result<List, AllocError> {
        self.add_text(alloc, format!(in alloc; "$0x{number:x}"))
    }

    /// Adds a target that is one digit: the distance from the end of a branch of two bytes.
    fn add_target(self, alloc: Global, distance: i8) -> Result<List, AllocError> {
        let target = i16::from(distance) + 2;
        self.add_text(alloc, format!(in alloc; "{target}"))
    }

    fn add_imm(self, alloc: Global, imm: Immediate) -> Result<List, AllocError> {
        match imm {
            Immediate::Imm8(value) => self.add_number(alloc, value),
            Immediate::Distance8(distance) => self.add_target(alloc, distance),
            // This one has no name.
            Immediate::VexPredicate(value) => self.add_number(alloc, value),
            _ => Ok(self),
        }
    }

    /// Adds an operand of those that the instructions below have.
    fn add_operand<R: Registers>(
        self,
        alloc: Global,
        operand: &Operand<R>,
    ) -> Result<List, AllocError> {
        match operand {
            Operand::ReadGpr(reg, size) => self.add_register(alloc, *reg, Some(*size)),
            Operand::ReadWriteGpr(reg, size) => self.add_register(alloc, *reg, Some(*size)),
            Operand::WriteTwoGprs(first, second, size) => {
                let list = self.add_register(alloc, *first, Some(*size))?;
                list.add_register(alloc, *second, Some(*size))
            }
            Operand::FixedReadWriteGpr(reg, _, Some(size)) => {
                self.add_register(alloc, *reg, Some(*size))
            }
            Operand::ReadXmm(reg) => self.add_register(alloc, *reg, None),
            Operand::WriteXmm(reg) => self.add_register(alloc, *reg, None),
            Operand::ReadAmode(address) => self.add_address(alloc, *address),
            Operand::ReadGprMem(GprMem::Mem(address), _) => self.add_address(alloc, *address),
            Operand::ReadXmmMem(XmmMem::Mem(address)) => self.add_address(alloc, *address),
            Operand::Imm(imm) => self.add_imm(alloc, *imm),
            _ => Ok(self),
        }
    }

    fn add_all<R: Registers>(
        self,
        alloc: Global,
        operands: &Operands<R>,
    ) -> Result<List, AllocError> {
        match operands {
            Operands::Zero | Operands::Nop(_) => Ok(self),
            Operands::One(a) => self.add_operand(alloc, a),
            Operands::Two(a, b) => {
                let list = self.add_operand(alloc, a)?;
                list.add_operand(alloc, b)
            }
            Operands::Three(a, b, c) => {
                let list = self.add_operand(alloc, a)?.add_operand(alloc, b)?;
                list.add_operand(alloc, c)
            }
            Operands::Four(a, b, c, d) => {
                let list = self.add_operand(alloc, a)?.add_operand(alloc, b)?;
                list.add_operand(alloc, c)?.add_operand(alloc, d)
            }
            Operands::Five(a, b, c, d, e) => {
                let list = self.add_operand(alloc, a)?.add_operand(alloc, b)?;
                let list = list.add_operand(alloc, c)?.add_operand(alloc, d)?;
                list.add_operand(alloc, e)
            }
        }
    }
}

/// Whether the text of an instruction ends in the list of its operands, which is this.
fn lists<I: RowAndOperands>(
    alloc: Global,
    inst: &I,
    forward: bool,
    want: &str,
) -> Result<bool, AllocError> {
    if !inst.nameable() {
        return Ok(false);
    }
    let text = String::new(alloc);
    let list = List { text, forward }.add_all(alloc, &operands_of(inst))?;
    let text = inst.to_string(alloc)?;
    Ok(list.text.as_str() == want && text.as_str().ends_with(want))
}

#[test]
fn lists_print_as_in_texts(rt: HostRuntime) -> Result<(), AllocError> {
    let alloc = rt.alloc();
    assert!(rt; lists(alloc, &nop_2b::new(), false, "")?);
    assert!(rt; lists(alloc, &je_d8::new(Simm8::new(7)), false, "9")?);
    let and = andb_i::<Plain>::new(Fixed(0), Imm8::new(0xAA));
    assert!(rt; lists(alloc, &and, false, "$0xaa, %al")?);
    let add = lock_xaddl_mr::<Plain>::new(base(2, 9), Gpr::new(4));
    assert!(rt; lists(alloc, &add, true, "%esp, 9(%rdx)")?);
    let exchange = xchgw_rm::<Plain>::new(Gpr::new(9), indexed(5, 1, Scale::Two, 16));
    assert!(rt; lists(alloc, &exchange, true, "%r9w, 0x10(%rbp, %rcx, 2)")?);
    let product = mulxl_rvm::<Plain>::new(Gpr::new(14), Gpr::new(5), gpr_at(0, -128), Fixed(2));
    assert!(rt; lists(alloc, &product, false, "-0x80(%rax), %ebp, %r14d")?);
    Ok(())
}

#[test]
fn lists_of_four_and_five_print_as_in_texts(rt: HostRuntime) -> Result<(), AllocError> {
    let alloc = rt.alloc();
    let compare = vcmpps_b::<Plain>::new(Xmm::new(1), Xmm::new(2), xmm_at(0, 0), Imm8::new(0x80));
    assert!(rt; lists(alloc, &compare, false, "$0x80, (%rax), %xmm2, %xmm1")?);
    let swap = lock_cmpxchg16b_m::<Plain>::new(base(3, 0), Fixed(0), Fixed(2), Fixed(1), Fixed(3));
    assert!(rt; lists(alloc, &swap, false, "(%rbx)")?);
    Ok(())
}
