//! What the tests say of readings.

use cax64_machine_code::reading::{Place, RegView};
use cax64_sink::FixedSink;
use x64_core::Core;
use x64_lines::Op;
use x64_reader::{CoreReading, read_core};

/// A register in the place of memory.
pub fn register(number: u8) -> Option<Place> {
    Some(Place::Reg(RegView::Low(number)))
}

/// Memory at a base and a displacement in bytes.
pub fn at(base: u8, disp: i32) -> Option<Place> {
    Some(Place::Mem {
        base: Some(base),
        index: None,
        disp,
    })
}

/// Memory at a base, an index times a factor, and a displacement in bytes.
pub fn indexed(base: u8, index: (u8, u8), disp: i32) -> Option<Place> {
    Some(Place::Mem {
        base: Some(base),
        index: Some(index),
        disp,
    })
}

/// What is read of so many bytes with no register in vvvv.
pub fn reading(
    op: Op,
    length: u8,
    tail: u8,
    reg: Option<u8>,
    place: Option<Place>,
    imm: Option<i64>,
) -> CoreReading {
    let reg = match reg {
        Some(number) => Some(RegView::Low(number)),
        None => None,
    };
    CoreReading {
        op,
        length,
        tail,
        reg,
        vvvv: None,
        place,
        imm,
    }
}

/// Whether bytes are read as this, with others behind them too, and no front of them is read.
pub fn reads(bytes: &[u8], expected: CoreReading) -> bool {
    let mut longer = [0x90; 16];
    for (place, byte) in longer.iter_mut().zip(bytes) {
        *place = *byte;
    }
    for (len, _) in bytes.iter().enumerate() {
        if read_core(&bytes[..len]).is_some() {
            return false;
        }
    }
    read_core(bytes) == Some(expected) && read_core(&longer) == Some(expected)
}

/// Whether what is read of bytes is an instruction of the core that has these bytes.
pub fn is_put_again(bytes: &[u8]) -> bool {
    let Some(reading) = read_core(bytes) else {
        return false;
    };
    let Some(core) = Core::of_reading(&reading) else {
        return false;
    };
    let mut sink = FixedSink::<13>::new();
    core.encode(&mut sink) == Ok(()) && sink.bytes() == bytes
}
