//! Runs of `x64rows` whose writers refuse.

use std::alloc::{AllocError, Global};
use std::io;
use std::io::{ErrorKind, Write};
use std::process::Abort;
use x64rows_run::run;

/// A writer that takes so many bytes at once and so many times, and then refuses. It may refuse to pass them on.
#[derive(Drop)]
struct Refusing {
    taken: Vec<u8>,
    at_once: usize,
    calls: usize,
    flushes: bool,
}

impl Write for Refusing {
    fn write(&mut self, bytes: &[u8]) -> io::Result<usize> {
        if self.calls == 0 {
            return Err(io::Error::from(ErrorKind::BrokenPipe));
        }
        self.calls -= 1;
        let len = bytes.len().min(self.at_once);
        self.taken.extend_from_slice(&bytes[..len])?;
        Ok(len)
    }

    fn flush(&mut self) -> io::Result<()> {
        if self.flushes {
            return Ok(());
        }
        Err(io::Error::from(ErrorKind::BrokenPipe))
    }
}

impl Refusing {
    fn new(alloc: Global, at_once: usize, calls: usize, flushes: bool) -> Refusing {
        Refusing {
            taken: Vec::new(alloc),
            at_once,
            calls,
            flushes,
        }
    }
}

const TAIL: [&str; 7] = ["tail", "7", "13", "12", "3", "127", "127"];

const TAIL_LINE: &[u8] = b"7c e5 01\n";

/// The status of a run over this output, which tells nothing on the error stream.
fn status_of(alloc: Global, words: &[&str], out: &mut Refusing) -> Option<u8> {
    let mut told: Vec<u8> = Vec::new(alloc);
    let status = run(alloc, words, out, &mut told);
    if told.is_empty() { Some(status) } else { None }
}

#[test]
fn nothing_is_written_after_a_refused_write(rt: HostRuntime) {
    for calls in 0..12 {
        let mut out = Refusing::new(rt.alloc(), 1, calls, true);
        let wanted = if calls < 9 { 4 } else { 0 };
        assert!(rt;
            status_of(rt.alloc(), &TAIL, &mut out) == Some(wanted),
            "after {calls} writes"
        );
        let len = calls.min(9);
        assert!(rt;
            out.taken.as_slice() == &TAIL_LINE[..len],
            "after {calls} writes"
        );
    }
}

fn lines(bytes: &[u8]) -> usize {
    bytes.iter().filter(|byte| **byte == b'\n').count()
}

#[test]
fn no_line_is_written_after_a_refused_one(rt: HostRuntime) {
    for calls in 0..16 {
        let mut out = Refusing::new(rt.alloc(), 1000, calls, true);
        let wanted = if calls < 14 { 4 } else { 0 };
        assert!(rt;
            status_of(rt.alloc(), &["rows"], &mut out) == Some(wanted),
            "after {calls} writes"
        );
        let taken = out.taken.as_slice();
        assert!(rt; lines(taken) == calls.min(14), "after {calls} writes");
        assert!(rt;
            taken.is_empty() || taken.ends_with(b"\n"),
            "after {calls} writes"
        );
    }
}

#[test]
fn a_refused_flush_is_a_failed_write(rt: HostRuntime) {
    let mut out = Refusing::new(rt.alloc(), 1000, 1000, false);
    assert!(rt; status_of(rt.alloc(), &TAIL, &mut out) == Some(4));
    assert!(rt; out.taken.as_slice() == TAIL_LINE);
}

/// Words that a line of a file can't hold, or whose error stream refuses, are usage.
fn is_usage(alloc: Global, words: &[&str], calls: usize) -> bool {
    let mut out: Vec<u8> = Vec::new(alloc);
    let mut told = Refusing::new(alloc, 1, calls, true);
    let status = run(alloc, words, &mut out, &mut told);
    status == 2
        && out.is_empty()
        && b"usage\n".starts_with(told.taken.as_slice())
        && told.taken.len() == calls.min(6)
}

#[test]
fn other_words_are_usage(rt: HostRuntime) {
    assert!(rt; is_usage(rt.alloc(), &[""], 100));
    assert!(rt; is_usage(rt.alloc(), &["tail", "0", "0", "-", "-", "0", "1\n"], 100));
    for calls in 0..8 {
        assert!(rt;
            is_usage(rt.alloc(), &["row"], calls),
            "after {calls} writes"
        );
    }
}
