//! Where virtual registers go.

use crate::random::Random;
use crate::registers::{Plain, PlainFamily};
use cranelift_assembler_x64::{Instruction, RegisterVisitor, RowAndOperands};

/// The home of each register that a byte can number. It is never the stack pointer.
#[derive(Drop)]
pub struct Homes([u8; 64]);

impl Homes {
    pub fn new(random: &mut Random) -> Homes {
        let mut homes = [0; 64];
        let mut word = random.word();
        for home in &mut homes {
            word = word.wrapping_mul(0x5851_F42D_4C95_7F2D).wrapping_add(1);
            let number = (word >> 60) as u8;
            *home = if number == 4 { 12 } else { number };
        }
        Homes(homes)
    }

    #[inline(always)]
    fn settle<G: Plain>(&self, reg: &mut G) {
        let number = reg.number();
        if number < 64 {
            *reg = G::of(self.0[number as usize]);
        }
    }
}

impl<R: PlainFamily> RegisterVisitor<R> for Homes {
    // Nothing here rests on what a call leaves.
    ghost steps = { record {
      read_gpr = λ v r t w. Unit {0};
      read_write_gpr = λ v r t w. Unit {0};
      write_gpr = λ v r t w. Unit {0};
      fixed_read_gpr = λ n v r t w. Unit {0};
      fixed_read_write_gpr = λ n v r t w. Unit {0};
      fixed_write_gpr = λ n v r t w. Unit {0};
      read_xmm = λ v r t w. Unit {0};
      read_write_xmm = λ v r t w. Unit {0};
      write_xmm = λ v r t w. Unit {0};
      fixed_read_xmm = λ n v r t w. Unit {0};
      fixed_read_write_xmm = λ n v r t w. Unit {0};
      fixed_write_xmm = λ n v r t w. Unit {0};
    } };

    fn read_gpr(&mut self, reg: &mut R::Reg) {
        self.settle(reg);
    }

    fn read_write_gpr(&mut self, reg: &mut R::Reg) {
        self.settle(reg);
    }

    fn write_gpr(&mut self, reg: &mut R::Reg) {
        self.settle(reg);
    }

    fn fixed_read_gpr(&mut self, reg: &mut R::Reg, enc: u8) {
        *reg = <R::Reg as Plain>::of(enc);
    }

    fn fixed_read_write_gpr(&mut self, reg: &mut R::Reg, enc: u8) {
        *reg = <R::Reg as Plain>::of(enc);
    }

    fn fixed_write_gpr(&mut self, reg: &mut R::Reg, enc: u8) {
        *reg = <R::Reg as Plain>::of(enc);
    }

    fn read_xmm(&mut self, reg: &mut R::Reg) {
        self.settle(reg);
    }

    fn read_write_xmm(&mut self, reg: &mut R::Reg) {
        self.settle(reg);
    }

    fn write_xmm(&mut self, reg: &mut R::Reg) {
        self.settle(reg);
    }

    fn fixed_read_xmm(&mut self, reg: &mut R::Reg, enc: u8) {
        *reg = <R::Reg as Plain>::of(enc);
    }

    fn fixed_read_write_xmm(&mut self, reg: &mut R::Reg, enc: u8) {
        *reg = <R::Reg as Plain>::of(enc);
    }

    fn fixed_write_xmm(&mut self, reg: &mut R::Reg, enc: u8) {
        *reg = <R::Reg as Plain>::of(enc);
    }
}

/// Assigns a home to each register.
pub fn assign<I: RowAndOperands>(insts: &mut [I], homes: &mut Homes)
where
    I::Family: PlainFamily,
{
    for inst in insts {
        Instruction::visit(inst, homes);
    }
}
