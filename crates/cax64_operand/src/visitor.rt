//! Visits of registers.

ghost use Rattle.std.specs.Prelude.{◌≡◌, ℕ};
ghost use Rattle.std.specs.Bool.{MatchBool};
ghost use Rattle.cax64_operand.specs.VisitSteps.{Steps, Then, AmodeRun, GprMemRun, XmmMemRun};

use cax64_address::amode::Amode;
use cax64_address::operand::{GprMem, XmmMem};
use cax64_register::{Gpr, Registers};

/// What goes over the registers of an instruction and may replace them, as an allocator of registers does.
pub trait RegisterVisitor<R: Registers> {
    // What each basic call may do.
    ghost steps: { Steps Self R.ReadGpr R.ReadWriteGpr R.WriteGpr R.ReadXmm R.ReadWriteXmm R.WriteXmm };

    fn read_gpr(&mut self, reg: &mut R::ReadGpr)
        ensures { steps.read_gpr self.old reg.old reg.new self.new };

    fn read_write_gpr(&mut self, reg: &mut R::ReadWriteGpr)
        ensures { steps.read_write_gpr self.old reg.old reg.new self.new };

    fn write_gpr(&mut self, reg: &mut R::WriteGpr)
        ensures { steps.write_gpr self.old reg.old reg.new self.new };

    fn fixed_read_gpr(&mut self, reg: &mut R::ReadGpr, enc: u8)
        ensures { steps.fixed_read_gpr enc self.old reg.old reg.new self.new };

    fn fixed_read_write_gpr(&mut self, reg: &mut R::ReadWriteGpr, enc: u8)
        ensures { steps.fixed_read_write_gpr enc self.old reg.old reg.new self.new };

    fn fixed_write_gpr(&mut self, reg: &mut R::WriteGpr, enc: u8)
        ensures { steps.fixed_write_gpr enc self.old reg.old reg.new self.new };

    fn read_xmm(&mut self, reg: &mut R::ReadXmm)
        ensures { steps.read_xmm self.old reg.old reg.new self.new };

    fn read_write_xmm(&mut self, reg: &mut R::ReadWriteXmm)
        ensures { steps.read_write_xmm self.old reg.old reg.new self.new };

    fn write_xmm(&mut self, reg: &mut R::WriteXmm)
        ensures { steps.write_xmm self.old reg.old reg.new self.new };

    fn fixed_read_xmm(&mut self, reg: &mut R::ReadXmm, enc: u8)
        ensures { steps.fixed_read_xmm enc self.old reg.old reg.new self.new };

    fn fixed_read_write_xmm(&mut self, reg: &mut R::ReadWriteXmm, enc: u8)
        ensures { steps.fixed_read_write_xmm enc self.old reg.old reg.new self.new };

    fn fixed_write_xmm(&mut self, reg: &mut R::WriteXmm, enc: u8)
        ensures { steps.fixed_write_xmm enc self.old reg.old reg.new self.new };

    /// The base, and then the index.
    fn read_amode(&mut self, amode: &mut Amode<R::ReadGpr>)
        ensures { AmodeRun steps.read_gpr self.old amode.old amode.new self.new }
    {
        match amode {
            Amode::ImmReg { base, .. } => self.read_gpr(base),
            Amode::ImmRegRegShift { base, index, .. } => {
                self.read_gpr(base);
                self.read_gpr(index.as_mut());
            }
            Amode::RipRelative { .. } => {}
        }
    }

    fn read_gpr_mem(&mut self, operand: &mut GprMem<R::ReadGpr, R::ReadGpr>)
        ensures { GprMemRun steps.read_gpr steps.read_gpr self.old operand.old operand.new self.new }
    {
        match operand {
            GprMem::Gpr(reg) => self.read_gpr(reg),
            GprMem::Mem(amode) => self.read_amode(amode),
        }
    }

    fn read_write_gpr_mem(&mut self, operand: &mut GprMem<R::ReadWriteGpr, R::ReadGpr>)
        ensures { GprMemRun steps.read_write_gpr steps.read_gpr self.old operand.old operand.new self.new }
    {
        match operand {
            GprMem::Gpr(reg) => self.read_write_gpr(reg),
            GprMem::Mem(amode) => self.read_amode(amode),
        }
    }

    fn write_gpr_mem(&mut self, operand: &mut GprMem<R::WriteGpr, R::ReadGpr>)
        ensures { GprMemRun steps.write_gpr steps.read_gpr self.old operand.old operand.new self.new }
    {
        match operand {
            GprMem::Gpr(reg) => self.write_gpr(reg),
            GprMem::Mem(amode) => self.read_amode(amode),
        }
    }

    fn read_xmm_mem(&mut self, operand: &mut XmmMem<R::ReadXmm, R::ReadGpr>)
        ensures { XmmMemRun steps.read_xmm steps.read_gpr self.old operand.old operand.new self.new }
    {
        match operand {
            XmmMem::Xmm(reg) => self.read_xmm(reg),
            XmmMem::Mem(amode) => self.read_amode(amode),
        }
    }

    fn write_xmm_mem(&mut self, operand: &mut XmmMem<R::WriteXmm, R::ReadGpr>)
        ensures { XmmMemRun steps.write_xmm steps.read_gpr self.old operand.old operand.new self.new }
    {
        match operand {
            XmmMem::Xmm(reg) => self.write_xmm(reg),
            XmmMem::Mem(amode) => self.read_amode(amode),
        }
    }
}

/// Goes over two destinations: only over the first where they compare equal, and what it gives stands for both.
pub fn visit_two_gprs<R: Registers, V: RegisterVisitor<R>>(
    first: &mut Gpr<R::WriteGpr>,
    second: &mut Gpr<R::WriteGpr>,
    visitor: &mut V,
)
    ensures { MatchBool (R.WriteGpr.eq first.old second.old)
        (V.steps.write_gpr visitor.old first.old first.new visitor.new × (second.new ≡ first.new))
        (Then (λ u. V.steps.write_gpr visitor.old first.old first.new u) (λ u. V.steps.write_gpr u second.old second.new visitor.new)) }
{
    if *first.as_ref() == *second.as_ref() {
        visitor.write_gpr(first.as_mut());
        *second = *first;
    } else {
        visitor.write_gpr(first.as_mut());
        visitor.write_gpr(second.as_mut());
    }
}
