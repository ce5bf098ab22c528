//! A function with virtual registers, and what assigns them.

ghost use Rattle.std.specs.Prelude.{◌≡◌};
ghost use Rattle.cranelift_assembler_x64.specs.Visit.{OperandsRun};
ghost use Rattle.cranelift_assembler_x64.specs.VisitSteps.{Then};
ghost use Rattle.client.specs.Homes.{home_of};

use crate::registers::{Reg, Regs};
use cranelift_assembler_x64::inst::{lock_addl_mr, lock_cmpxchgl_mr};
use cranelift_assembler_x64::{Instruction, RegisterVisitor};

/// A function before its registers are assigned: it counts, and then takes a lock if it is free.
#[derive(Drop)]
pub struct Function {
    pub count: lock_addl_mr<Regs>,
    pub take: lock_cmpxchgl_mr<Regs>,
}

impl Function {
    /// Goes over the registers of both instructions.
    pub fn visit<V: RegisterVisitor<Regs>>(&mut self, visitor: &mut V)
        ensures { Then
            (λ u. OperandsRun ⟦<Reg as PartialEq>⟧.eq V.steps visitor.old self.old.count self.new.count u)
            (λ u. OperandsRun ⟦<Reg as PartialEq>⟧.eq V.steps u self.old.take self.new.take visitor.new) }
    {
        Instruction::visit(&mut self.count, visitor);
        Instruction::visit(&mut self.take, visitor);
    }
}

/// Where virtual registers go: the one of number 16 + n to the home at place n.
#[derive(Drop)]
pub struct Homes(pub [Reg; 3]);

impl Homes {
    /// Where a register goes. It stays where it is the machine's, or has no home.
    pub fn home(&self, reg: Reg) -> Reg
        ensures { result ≡ home_of self.now.0 reg }
    {
        if reg.0 < 16 {
            return reg;
        }
        match self.0.get((reg.0 - 16) as usize) {
            Some(home) => *home,
            None => reg,
        }
    }
}

impl RegisterVisitor<Regs> for Homes {
    // What each call leaves: the register's home, in general registers, and the homes as they were.
    ghost steps = { record {
      read_gpr = λ v r t w. (t ≡ home_of v.0 r) × (w ≡ v);
      read_write_gpr = λ v r t w. (t ≡ home_of v.0 r) × (w ≡ v);
      write_gpr = λ v r t w. (t ≡ home_of v.0 r) × (w ≡ v);
      fixed_read_gpr = λ n v r t w. (t ≡ home_of v.0 r) × (w ≡ v);
      fixed_read_write_gpr = λ n v r t w. (t ≡ home_of v.0 r) × (w ≡ v);
      fixed_write_gpr = λ n v r t w. (t ≡ home_of v.0 r) × (w ≡ v);
      read_xmm = λ v r t w. (t ≡ r) × (w ≡ v);
      read_write_xmm = λ v r t w. (t ≡ r) × (w ≡ v);
      write_xmm = λ v r t w. (t ≡ r) × (w ≡ v);
      fixed_read_xmm = λ n v r t w. (t ≡ r) × (w ≡ v);
      fixed_read_write_xmm = λ n v r t w. (t ≡ r) × (w ≡ v);
      fixed_write_xmm = λ n v r t w. (t ≡ r) × (w ≡ v);
    } };

    fn read_gpr(&mut self, reg: &mut Reg) {
        *reg = self.home(*reg);
    }

    fn read_write_gpr(&mut self, reg: &mut Reg) {
        *reg = self.home(*reg);
    }

    fn write_gpr(&mut self, reg: &mut Reg) {
        *reg = self.home(*reg);
    }

    fn fixed_read_gpr(&mut self, reg: &mut Reg, _enc: u8) {
        *reg = self.home(*reg);
    }

    fn fixed_read_write_gpr(&mut self, reg: &mut Reg, _enc: u8) {
        *reg = self.home(*reg);
    }

    fn fixed_write_gpr(&mut self, reg: &mut Reg, _enc: u8) {
        *reg = self.home(*reg);
    }

    fn read_xmm(&mut self, _reg: &mut Reg) {}

    fn read_write_xmm(&mut self, _reg: &mut Reg) {}

    fn write_xmm(&mut self, _reg: &mut Reg) {}

    fn fixed_read_xmm(&mut self, _reg: &mut Reg, _enc: u8) {}

    fn fixed_read_write_xmm(&mut self, _reg: &mut Reg, _enc: u8) {}

    fn fixed_write_xmm(&mut self, _reg: &mut Reg, _enc: u8) {}
}
