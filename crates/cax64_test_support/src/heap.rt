//! A heap that refuses memory where it is told to.

use std::alloc::{AllocError, Allocator};
use std::cell::Cell;

/// What a heap was asked for, and what it refuses.
#[derive(Drop)]
struct Meter {
    requests: Cell<usize>,
    held: Cell<usize>,
    /// The first request that is refused, counted from 1, and the last.
    first: usize,
    last: Cell<usize>,
    /// How many bytes may be held at a time.
    limit: Cell<usize>,
}

/// Counts a request for so many bytes, and says whether it is refused.
fn refuses(meter: &Meter, size: usize) -> bool {
    let request = meter.requests.get().saturating_add(1);
    meter.requests.set(request);
    let free = meter.limit.get().saturating_sub(meter.held.get());
    size > free || (meter.first <= request && request <= meter.last.get())
}

/// So many bytes were handed out.
fn hold(meter: &Meter, size: usize) {
    meter.held.set(meter.held.get().saturating_add(size));
}

/// So many bytes came back.
fn release(meter: &Meter, size: usize) {
    meter.held.set(meter.held.get().saturating_sub(size));
}

/// Another allocator, of which some requests are refused. A block that grows is asked for anew, and held beside the old one
/// until its values are copied.
pub struct TestHeap<B: Allocator> {
    inner: B,
    meter: Meter,
}

impl<B: Allocator> TestHeap<B> {
    /// Refuses one request, counted from 1.
    pub fn refusing(inner: B, request: usize) -> Self {
        TestHeap::with_limits(inner, request, request, usize::MAX)
    }

    /// Refuses this request, counted from 1, and each one after it.
    pub fn refusing_from(inner: B, request: usize) -> Self {
        TestHeap::with_limits(inner, request, usize::MAX, usize::MAX)
    }

    /// Refuses each request with which more than so many bytes would be held.
    pub fn holding(inner: B, limit: usize) -> Self {
        TestHeap::with_limits(inner, 1, 0, limit)
    }

    fn with_limits(inner: B, first: usize, last: usize, limit: usize) -> Self {
        TestHeap {
            inner,
            meter: Meter {
                requests: Cell::new(0),
                held: Cell::new(0),
                first,
                last: Cell::new(last),
                limit: Cell::new(limit),
            },
        }
    }

    /// Refuses nothing from now on.
    pub fn relieve(&self) {
        self.meter.last.set(0);
        self.meter.limit.set(usize::MAX);
    }

    /// How many requests were made, granted or not.
    pub fn requests(&self) -> usize {
        self.meter.requests.get()
    }

    /// How many bytes are held.
    pub fn held(&self) -> usize {
        self.meter.held.get()
    }
}

impl<B: Allocator> Drop for TestHeap<B> {
    fn drop(self) {
        let Self { inner: _, meter: _ } = self;
    }
}

unsafe impl<B: Allocator> Allocator for TestHeap<B> {
    ghost dealloc_token = { λ heap ty ptr. B.dealloc_token heap.inner ty ptr };

    fn allocate(&self, size: usize, align: usize) -> Result<*mut u8, AllocError> {
        if refuses(&self.meter, size) {
            return Err(AllocError);
        }
        match self.inner.allocate(size, align) {
            Ok(block) => {
                hold(&self.meter, size);
                Ok(block)
            }
            Err(error) => Err(error),
        }
    }

    unsafe fn deallocate(&self, ptr: *mut u8, size: usize, align: usize) {
        release(&self.meter, size);
        self.inner.deallocate(ptr, size, align);
    }
}
