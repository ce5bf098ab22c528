//! Address modes.

use crate::fields::{Fault, parsed};
use cranelift_assembler_x64::{
    Amode, AmodeOffset, AmodeOffsetPlusKnownOffset, Constant, DeferredTarget, KnownOffset, Label,
    NonRspGpr, Scale, TrapCode,
};
use std::num::NonZeroU8;

/// The parts of an address that has a base.
#[derive(Clone, Copy)]
pub struct Parts {
    pub base: Option<u8>,
    pub index: Option<u8>,
    /// 0 to 3.
    pub scale: Option<u8>,
    pub displacement: i32,
    pub late: Option<KnownOffset>,
    pub trap: Option<TrapCode>,
}

impl Parts {
    pub const NONE: Parts = Parts {
        base: None,
        index: None,
        scale: None,
        displacement: 0,
        late: None,
        trap: None,
    };

    /// Index and scale come both or neither, and a late offset only without them.
    pub fn amode(self) -> Result<Amode<u8>, Fault> {
        let base = self.base.ok_or(Fault::Malformed)?;
        let displacement = AmodeOffset::new(self.displacement);
        match (self.index, self.scale, self.late) {
            (None, None, offset) => {
                let simm32 = AmodeOffsetPlusKnownOffset {
                    simm32: displacement,
                    offset,
                };
                Ok(Amode::ImmReg {
                    base,
                    simm32,
                    trap: self.trap,
                })
            }
            (Some(index), Some(scale), None) if scale < 4 => Ok(Amode::ImmRegRegShift {
                base,
                index: NonRspGpr::new(index),
                scale: Scale::new(scale),
                simm32: displacement,
                trap: self.trap,
            }),
            _ => Err(Fault::Malformed),
        }
    }
}

pub fn target_of(text: &str) -> Result<DeferredTarget, Fault> {
    match text.split_once(':') {
        Some(("label", number)) => Ok(DeferredTarget::Label(Label(parsed(number)?))),
        Some(("const", number)) => Ok(DeferredTarget::Constant(Constant(parsed(number)?))),
        None if text == "none" => Ok(DeferredTarget::None),
        _ => Err(Fault::Malformed),
    }
}

fn trap_of(text: &str) -> Result<TrapCode, Fault> {
    let number = NonZeroU8::new(parsed(text)?).ok_or(Fault::Malformed)?;
    Ok(TrapCode(number))
}

/// The address of parts `key:value` with commas between them, or of a target behind `rip:`.
pub fn amode_of(text: &str) -> Result<Amode<u8>, Fault> {
    if let Some(target) = text.strip_prefix("rip:") {
        let target = target_of(target)?;
        return Ok(Amode::RipRelative { target });
    }
    let mut parts = Parts::NONE;
    for part in text.split(',') {
        let (key, value) = part.split_once(':').ok_or(Fault::Malformed)?;
        match key {
            "base" => parts.base = Some(parsed(value)?),
            "index" => parts.index = Some(parsed(value)?),
            "scale" => parts.scale = Some(parsed(value)?),
            "disp" => parts.displacement = parsed(value)?,
            "late" => parts.late = Some(parsed(value)?),
            "trap" => parts.trap = Some(trap_of(value)?),
            _ => return Err(Fault::Malformed),
        }
    }
    parts.amode()
}
