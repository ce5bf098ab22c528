//! Machine code of expressions, relations, calls, and of what stands around a function.

use crate::function::{MOST, VARIABLES};
use crate::operand::{Operand, Operator};
use crate::refused::Refused;
use huqmeris::ops::arithmetic::{
    ADDQ_MI_SXL, ADDQ_RM, ANDQ_MI_SXB, ANDQ_MI_SXL, ANDQ_RM, CMPQ_RM, ORQ_MI_SXL, ORQ_RM,
    SUBQ_MI_SXL, SUBQ_RM, XORQ_MI_SXL, XORQ_RM,
};
use huqmeris::ops::control::{POPQ_M, PUSHQ_M, RETQ_ZO};
use huqmeris::ops::moves::{MOVQ_MI_SXL, MOVQ_MR, MOVQ_RM};
use huqmeris::ops::multiplication::{IMULQ_RM, IMULQ_RMI_SXL};
use huqmeris::ops::shifts::{SARQ_MC, SARQ_MI, SHLQ_MC, SHLQ_MI};
use huqmeris::{
    Amode, AmodeOffset, CodeBuffer, Condition, Core, DeferredTarget, Jump, Label, NonRspGpr, Scale,
};
use std::alloc::Global;

pub(crate) const RAX: u8 = 0;

const RCX: u8 = 1;

const RDX: u8 = 2;

const RBX: u8 = 3;

const RBP: u8 = 5;

const RDI: u8 = 7;
/// What nothing else uses.
const R11: u8 = 11;

/// Where variables are kept: registers that a call leaves as they are.
const HOMES: [u8; MOST as usize] = [RBX, 12, 13, 14, 15];

/// Where arguments are passed, behind the array's address in `rdi`.
pub(crate) const ARGUMENTS: [u8; 4] = [6, RDX, RCX, 8];

/// The table of registers: those that are real as they are, those of variables by their homes.
fn homes() -> [u8; 256] {
    let mut homes = [0; 256];
    for number in 0..16usize {
        homes[number] = number as u8;
    }
    for (number, home) in HOMES.iter().enumerate() {
        homes[usize::from(VARIABLES) + number] = *home;
    }
    homes
}

#[derive(Drop)]
pub(crate) struct Emitter {
    buffer: CodeBuffer<Global>,
    homes: [u8; 256],
}

impl Emitter {
    pub(crate) fn new(alloc: Global) -> Emitter {
        Emitter {
            buffer: CodeBuffer::new(alloc),
            homes: homes(),
        }
    }

    fn put(&mut self, mut inst: Core) -> Result<(), Refused> {
        inst.rename(&self.homes);
        self.buffer.push_checked(&inst)?;
        Ok(())
    }

    pub(crate) fn new_label(&mut self) -> Result<Label, Refused> {
        Ok(self.buffer.new_label()?)
    }

    pub(crate) fn bind(&mut self, label: Label) -> Result<(), Refused> {
        self.buffer.bind(label).map_err(|_| Refused::Twice)
    }

    pub(crate) fn jump(&mut self, label: Label) -> Result<(), Refused> {
        Ok(
            self.buffer
                .push_jump(Jump::Always, DeferredTarget::Label(label))?,
        )
    }

    /// The element of the array whose number a variable is. Its number is put into `r11`.
    fn element(&mut self, variable: u8) -> Result<Amode<u8>, Refused> {
        self.put(MOVQ_RM.regs(R11, variable))?;
        self.put(ANDQ_MI_SXB.reg(R11, 15))?;
        Ok(Amode::ImmRegRegShift {
            base: RBP,
            index: NonRspGpr::new(R11),
            scale: Scale::Eight,
            simm32: AmodeOffset::ZERO,
            trap: None,
        })
    }

    pub(crate) fn load(&mut self, register: u8, operand: Operand) -> Result<(), Refused> {
        match operand {
            Operand::Number(number) => self.put(MOVQ_MI_SXL.reg(register, number)),
            Operand::Variable(variable) => self.put(MOVQ_RM.regs(register, variable)),
            Operand::Element(variable) => {
                let element = self.element(variable)?;
                self.put(MOVQ_RM.mem(register, element))
            }
        }
    }

    /// Puts what stands in `rax` where an operand stands.
    pub(crate) fn store(&mut self, operand: Operand) -> Result<(), Refused> {
        match operand {
            Operand::Number(_) => Err(Refused::Operand),
            Operand::Variable(variable) => self.put(MOVQ_RM.regs(variable, RAX)),
            Operand::Element(variable) => {
                let element = self.element(variable)?;
                self.put(MOVQ_MR.mem(RAX, element))
            }
        }
    }

    /// Applies an operator to what stands in `rax`, and to a number.
    fn apply_number(&mut self, operator: Operator, number: i32) -> Result<(), Refused> {
        let count = (number & 63) as u8;
        self.put(match operator {
            Operator::Add => ADDQ_MI_SXL.reg(RAX, number),
            Operator::Subtract => SUBQ_MI_SXL.reg(RAX, number),
            Operator::Multiply => IMULQ_RMI_SXL.regs(RAX, RAX, number),
            Operator::And => ANDQ_MI_SXL.reg(RAX, number),
            Operator::Or => ORQ_MI_SXL.reg(RAX, number),
            Operator::Xor => XORQ_MI_SXL.reg(RAX, number),
            Operator::ShiftLeft => SHLQ_MI.reg(RAX, count),
            Operator::ShiftRight => SARQ_MI.reg(RAX, count),
        })
    }

    /// Applies an operator to what stands in `rax`, and to an operand.
    pub(crate) fn apply(&mut self, operator: Operator, operand: Operand) -> Result<(), Refused> {
        if let Operand::Number(number) = operand {
            return self.apply_number(operator, number);
        }
        let second = match operator {
            Operator::ShiftLeft | Operator::ShiftRight => RCX,
            _ => RDX,
        };
        self.load(second, operand)?;
        self.put(match operator {
            Operator::Add => ADDQ_RM.regs(RAX, RDX),
            Operator::Subtract => SUBQ_RM.regs(RAX, RDX),
            Operator::Multiply => IMULQ_RM.regs(RAX, RDX),
            Operator::And => ANDQ_RM.regs(RAX, RDX),
            Operator::Or => ORQ_RM.regs(RAX, RDX),
            Operator::Xor => XORQ_RM.regs(RAX, RDX),
            Operator::ShiftLeft => SHLQ_MC.reg(RAX),
            Operator::ShiftRight => SARQ_MC.reg(RAX),
        })
    }

    /// Jumps to a label where a condition holds of two operands.
    pub(crate) fn branch(
        &mut self,
        first: Operand,
        condition: Condition,
        second: Operand,
        label: Label,
    ) -> Result<(), Refused> {
        self.load(RAX, first)?;
        self.load(RDX, second)?;
        self.put(CMPQ_RM.regs(RAX, RDX))?;
        Ok(
            self.buffer
                .push_jump(Jump::If(condition), DeferredTarget::Label(label))?,
        )
    }

    /// Calls a function, whose answer stands in `rax` then.
    pub(crate) fn call(&mut self, label: Label) -> Result<(), Refused> {
        self.put(MOVQ_RM.regs(RDI, RBP))?;
        Ok(
            self.buffer
                .push_jump(Jump::Call, DeferredTarget::Label(label))?,
        )
    }

    /// The beginning of a function with so many parameters: what it uses is kept, and they get their homes. The other
    /// variables begin at 0.
    pub(crate) fn enter(&mut self, parameters: usize) -> Result<(), Refused> {
        self.put(PUSHQ_M.reg(RBP))?;
        for home in HOMES {
            self.put(PUSHQ_M.reg(home))?;
        }
        self.put(MOVQ_RM.regs(RBP, RDI))?;
        for (number, home) in HOMES.iter().enumerate() {
            match ARGUMENTS.get(number) {
                Some(argument) if number < parameters => self.put(MOVQ_RM.regs(*home, *argument))?,
                _ => self.put(MOVQ_MI_SXL.reg(*home, 0))?,
            }
        }
        Ok(())
    }

    /// The end of a function.
    pub(crate) fn leave(&mut self, end: Label) -> Result<(), Refused> {
        self.load(RAX, Operand::Number(0))?;
        self.bind(end)?;
        for home in HOMES.iter().rev() {
            self.put(POPQ_M.reg(*home))?;
        }
        self.put(POPQ_M.reg(RBP))?;
        self.put(RETQ_ZO.bare())
    }

    pub(crate) fn finish(self) -> Result<Vec<u8>, Refused> {
        self.buffer.finish().map_err(|_| Refused::Call)
    }
}
