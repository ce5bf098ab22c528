//! An instruction of a line that no row has, by its bytes.

use cax64_encoder::worked::encode_add;
use cax64_sink::{FixedSink, SinkError};
use cax64_table::entry::Entry;

/// REX.W 03 /r: `add rax, rdi` is 48 03 C7. (Intel SDM, volume 2, chapter 3.)
#[test]
fn add_is_encoded_by_its_line(rt: HostRuntime) {
    let mut sink = FixedSink::<3>::new();
    assert!(rt; encode_add(&mut sink) == Ok(()));
    assert!(rt; sink.bytes() == [0x48, 0x03, 0xC7].as_slice());
    assert!(rt; encode_add(&mut sink) == Err(SinkError::Full));
}

/// A number whose ready opcode is another line's is no entry, and neither is one whose opcode is the prefix 66.
#[test]
fn a_number_with_other_ready_parts_is_no_entry(rt: HostRuntime) {
    assert!(rt; Entry::of(0xC071_A810).is_some());
    assert!(rt; Entry::of(0xC071_A810 ^ (1 << 34)).is_none());
    assert!(rt; Entry::of(0x19_8CD1_A810).is_none());
}
