//! The numbers and names of the XMM registers (Intel SDM volume 1, section 10.2.2).
ghost use Rattle.std.specs.Prelude.{◌≡◌, ◌<◌};
ghost use Rattle.cax64_register.specs.Names.{xmm_name};

pub const XMM0: u8 = 0;

pub const XMM1: u8 = 1;

pub const XMM2: u8 = 2;

pub const XMM3: u8 = 3;

pub const XMM4: u8 = 4;

pub const XMM5: u8 = 5;

pub const XMM6: u8 = 6;

pub const XMM7: u8 = 7;

pub const XMM8: u8 = 8;

pub const XMM9: u8 = 9;

pub const XMM10: u8 = 10;

pub const XMM11: u8 = 11;

pub const XMM12: u8 = 12;

pub const XMM13: u8 = 13;

pub const XMM14: u8 = 14;

pub const XMM15: u8 = 15;

/// The name of the XMM register with this number.
#[tactic(auto, unfolding(crate::specs::Names::xmm_names))]
pub fn to_string(number: u8) -> &'static str
    requires { number < 16 }
    ensures { result.now ≡ xmm_name number }
{
    match number {
        XMM0 => "%xmm0",
        XMM1 => "%xmm1",
        XMM2 => "%xmm2",
        XMM3 => "%xmm3",
        XMM4 => "%xmm4",
        XMM5 => "%xmm5",
        XMM6 => "%xmm6",
        XMM7 => "%xmm7",
        XMM8 => "%xmm8",
        XMM9 => "%xmm9",
        XMM10 => "%xmm10",
        XMM11 => "%xmm11",
        XMM12 => "%xmm12",
        XMM13 => "%xmm13",
        XMM14 => "%xmm14",
        _ => "%xmm15",
    }
}
