//! Digests of readings.

use cranelift_assembler_x64::reader::{Place, Reading, RegView, read_inst};
use workload_source::digest::Digest;

fn view_number(view: RegView) -> u64 {
    match view {
        RegView::Low(number) => u64::from(number),
        RegView::High(number) => 0x40 ^ u64::from(number),
    }
}

fn place_number(place: Place) -> u64 {
    match place {
        Place::Reg(view) => view_number(view),
        Place::Mem { base, index, disp } => {
            let base = base.unwrap_or(0x80);
            let (index, factor) = index.unwrap_or((0x80, 0));
            let registers = u64::from(u32::from_le_bytes([base, 2, index, factor]));
            registers ^ (u64::from(disp.cast_unsigned()) << 32)
        }
        Place::Rip(distance) => 0x300 ^ (u64::from(distance.cast_unsigned()) << 32),
    }
}

fn digest_reading(digest: &mut Digest, reading: &Reading) {
    let row = reading.row as u8;
    let vvvv = reading.vvvv.unwrap_or(0x80);
    let numbers = u32::from_le_bytes([row, reading.length, reading.tail, vvvv]);
    let reg = match reading.reg {
        Some(view) => view_number(view),
        None => 0x80,
    };
    digest.word(u64::from(numbers) ^ (reg << 32));
    digest.word(match reading.place {
        Some(place) => place_number(place),
        None => 0,
    });
    digest.word(reading.imm.unwrap_or(0).cast_unsigned());
}

/// Reads what stands at the front, and says how many bytes it has, if it is an instruction.
pub(crate) fn read_front(digest: &mut Digest, bytes: &[u8]) -> Option<usize> {
    let reading = read_inst(bytes)?;
    digest_reading(digest, &reading);
    Some(usize::from(reading.length))
}
