//! Stubs, where what a buffer costs by itself is most of the time.

use crate::jobs::functions::finish;
use cranelift_assembler_x64::SinkError;
use std::alloc::Global;
use workload_source::digest::Digest;
use workload_source::homes::{Homes, assign};
use workload_source::source::Source;
use workload_source::stub::{fill, of_stubs, renew};
use x64_code_buffer::CodeBuffer;

/// So many stubs, each in a buffer of its own. Registers have the same homes in all of them.
pub(crate) fn stubs<S: Source>(alloc: Global, count: u32, seed: u64) -> Result<Digest, SinkError> {
    let mut maker = of_stubs(seed);
    let mut homes = Homes::new(&mut maker.random);
    let mut digest = Digest::new();
    let mut insts = Vec::new(alloc);
    for _ in 0..count {
        renew::<S>(&mut insts, &mut maker).map_err(|_| SinkError::NoMemory)?;
        assign(insts.as_mut_slice(), &mut homes);
        let mut buffer = CodeBuffer::new(alloc);
        fill(&mut buffer, insts.as_slice(), maker.labels, &mut digest)?;
        finish(buffer, &mut digest);
    }
    Ok(digest)
}
