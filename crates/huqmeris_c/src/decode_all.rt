//! Reading of many instructions.

ghost use Rattle.std.specs.Prelude.{◌≡◌, ◌≤◌, ◌<◌, None, drop, length, take};
ghost use Rattle.cax64_machine_code.specs.ReadLine.{read_of};
ghost use Rattle.huqmeris_c.specs.InTurn.{InTurn};
ghost use Rattle.x64_lines.specs.Lines.{core_lines};
ghost use Rattle.x64_plain.specs.declared.status.TheConstants.{HQ_OK};

use crate::decode::read;
use x64_plain::HqReading;
use x64_plain::status::HQ_OK;

/// Reads instructions into the slots, and answers how many, and how many bytes they have.
fn read_each(bytes: &[u8], out: &mut [HqReading]) -> (usize, usize)
    ensures reads { InTurn bytes.now (take result.0 out.new) (drop result.1 bytes.now) }
    ensures others { drop result.0 out.new ≡ drop result.0 out.old }
    ensures count { result.0 ≤ length out.old }
    ensures end { result.1 ≤ length bytes.now }
    ensures stops { result.0 < length out.old → read_of core_lines (drop result.1 bytes.now) ≡ None }
{
    let places = out.len();
    let mut at = 0usize;
    for i in 0..places {
        if !read(&bytes[at..], &mut out[i]) {
            return (i, at);
        }
        at += usize::from(out[i].length);
    }
    (places, at)
}

/// Reads instructions one behind the other from the front of some bytes, into as many slots as there are or until no line of the
/// core reads what stands there, and says how many were read and how many bytes they have. The other slots are as before.
#[unsafe(no_mangle)]
pub extern "C" fn hq_decode_all(
    bytes: &[u8],
    out: &mut [HqReading],
    count: &mut usize,
    end: &mut usize,
) -> i32
    ensures answer { result ≡ HQ_OK }
    ensures reads { InTurn bytes.now (take count.new out.new) (drop end.new bytes.now) }
    ensures others { drop count.new out.new ≡ drop count.new out.old }
    ensures within { (count.new ≤ length out.old) × (end.new ≤ length bytes.now) }
    ensures stops { count.new < length out.old → read_of core_lines (drop end.new bytes.now) ≡ None }
{
    let (read, at) = read_each(bytes, out);
    *count = read;
    *end = at;
    HQ_OK
}
