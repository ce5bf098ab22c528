//! Runs of `x64rows` on the words of a process: they are copied and listed before the first is read.

use cax64_test_support::growth::{Grows, Outcome, is_refused, refusals};
use std::alloc::{Alloc, Allocator, Global};
use std::env::{Env, FillError};
use std::io;
use x64rows_run::run_process;

/// A process with these words, the first of which is the program's name.
#[derive(Drop)]
struct Process<A> {
    words: &'static [&'static [u8]],
    alloc: A,
}

impl<A: Allocator + Copy> Alloc for Process<A> {
    type A = A;

    fn alloc(&self) -> A {
        self.alloc
    }
}

impl<A> Env for Process<A> {
    fn arg(&self, i: usize, buf: &mut [u8]) -> Result<usize, FillError> {
        let Some(word) = self.words.get(i) else {
            return Err(FillError::NotPresent);
        };
        let Some(start) = buf.get_mut(..word.len()) else {
            return Err(FillError::TooLong);
        };
        start.copy_from_slice(word);
        Ok(word.len())
    }

    fn var(&self, _name: &str, _buf: &mut [u8]) -> Result<usize, FillError> {
        Err(FillError::NotPresent)
    }

    fn var_at(&self, _i: usize, _buf: &mut [u8]) -> Result<usize, FillError> {
        Err(FillError::NotPresent)
    }

    fn current_dir(&self, _buf: &mut [u8]) -> io::Result<usize> {
        Err(io::Error::from(io::ErrorKind::Unsupported))
    }
}

/// A run of a process, which is to end with this status and print this.
#[derive(Clone, Copy)]
struct Run {
    words: &'static [&'static [u8]],
    status: u8,
    out: &'static [u8],
    err: &'static [u8],
    global: Global,
}

impl Grows for Run {
    fn run<A: Allocator + Copy>(&self, alloc: A) -> Outcome {
        let mut out: Vec<u8> = Vec::new(self.global);
        let mut err: Vec<u8> = Vec::new(self.global);
        let process = Process {
            words: self.words,
            alloc,
        };
        let status = run_process(&process, &mut out, &mut err);
        if status == self.status && out.as_slice() == self.out && err.as_slice() == self.err {
            Outcome::Made
        } else if status == 3 && out.is_empty() && err.as_slice() == b"no memory\n".as_slice() {
            Outcome::Refused
        } else {
            Outcome::Wrong
        }
    }
}

#[test]
fn each_word_and_each_list_is_refused(rt: HostRuntime) {
    let tail = Run {
        words: &[
            b"x64rows",
            b"tail",
            b"7",
            b"13",
            b"12",
            b"3",
            b"2147483647",
            b"127",
        ],
        status: 0,
        out: b"bc e5 ff ff ff 7f\n",
        err: b"",
        global: rt.alloc(),
    };
    assert!(rt; is_refused(rt.alloc(), &tail, 12));
}

#[test]
fn words_that_are_no_command_are_listed_before(rt: HostRuntime) {
    let unknown = Run {
        words: &[b"x64rows", b"row"],
        status: 2,
        out: b"",
        err: b"usage\n",
        global: rt.alloc(),
    };
    assert!(rt; is_refused(rt.alloc(), &unknown, 4));
}

#[test]
fn a_word_that_is_no_text_is_no_command(rt: HostRuntime) {
    let broken = Run {
        words: &[b"x64rows", b"rows\xff"],
        status: 2,
        out: b"",
        err: b"usage\n",
        global: rt.alloc(),
    };
    assert!(rt; refusals(rt.alloc(), &broken).is_some());
}
