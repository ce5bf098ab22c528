//! Other registers in an instruction of the core.

ghost use Rattle.std.specs.Prelude.{◌≡◌, slice_index};
ghost use Rattle.x64_core.specs.Rename.{renamed};
ghost use Rattle.x64_core.specs.View.{core_view};

use crate::instruction::Core;
use x64_place::place::home_if;

impl Core {
    /// Puts others in the place of all its registers, each by its number in this table. All else stays.
    #[inline(always)]
    pub fn rename(&mut self, homes: &[u8; 256])
        ensures { core_view self.new ≡ renamed (slice_index homes.now) (core_view self.old) }
    {
        let fields = self.op.shape().fields;
        let mut place = self.place;
        place.rename(homes);
        *self = Core {
            place,
            imm: self.imm,
            op: self.op,
            reg: home_if(fields.has_reg(), homes, self.reg),
            vvvv: home_if(fields.has_vvvv(), homes, self.vvvv),
        };
    }
}
