//! The stubs of `x64workloads`, all made in one buffer.

use cranelift_assembler_x64::SinkError;
use huqmeris::{CodeBuffer, FinishError};
use std::alloc::Global;
use workload_source::digest::Digest;
use workload_source::homes::{Homes, assign};
use workload_source::notices::digest_notices;
use workload_source::source::Source;
use workload_source::stub::{fill, of_stubs, renew};

fn finish(buffer: &mut CodeBuffer<Global>, digest: &mut Digest) {
    digest_notices(digest, buffer.notices());
    match buffer.finish_in_place() {
        Ok(()) => digest.bytes(buffer.bytes()),
        Err(FinishError::Unbound(_)) => digest.word(3),
        Err(FinishError::TooFar(at)) => digest.word(at as u64),
    }
}

/// So many stubs in a buffer that is used again and again.
pub(crate) fn stubs_again<S: Source>(
    alloc: Global,
    count: u32,
    seed: u64,
) -> Result<Digest, SinkError> {
    let mut maker = of_stubs(seed);
    let mut homes = Homes::new(&mut maker.random);
    let mut digest = Digest::new();
    let mut insts = Vec::new(alloc);
    let mut buffer = CodeBuffer::new(alloc);
    for _ in 0..count {
        renew::<S>(&mut insts, &mut maker).map_err(|_| SinkError::NoMemory)?;
        assign(insts.as_mut_slice(), &mut homes);
        fill(&mut buffer, insts.as_slice(), maker.labels, &mut digest)?;
        finish(&mut buffer, &mut digest);
        buffer.clear();
    }
    Ok(digest)
}
