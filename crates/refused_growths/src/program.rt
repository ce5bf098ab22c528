//! Runs of `x64rows`: whole lines stand on the output, and the error stream says why there are no more.

use cax64_test_support::growth::{Grows, Outcome, enough, is_refused, refusals};
use std::alloc::{Allocator, Global};
use x64rows_run::run;

const ROWS: &str = "\
andb_i: 24 aa: andb $0xaa, %al: andb_i 2 0\n\
lock_addl_mr: f0 45 01 4c 24 80: lock addl %r9d, -0x80(%r12): lock_addl_mr 6 3\n\
andps_a: 44 0f 54 c1: andps %xmm1, %xmm8: andps_a 4 1\n\
lock_addb_mr: f0 40 00 30: lock addb %sil, (%rax): lock_addb_mr 4 1\n\
lock_addq_mi_sxl: f0 4b 81 84 cd 78 56 34 12 ff ff ff ff: lock addq $0xffffffffffffffff, 0x12345678(%r13, %r9, 8): lock_addq_mi_sxl 13 6\n\
lock_cmpxchg16b_m: f0 48 0f c7 08: lock cmpxchg16b (%rax): lock_cmpxchg16b_m 5 1\n\
mulxq_rvm: c4 c2 eb f6 c8: mulxq %r8, %rdx, %rcx: mulxq_rvm 5 1\n\
vcmpps_b: c4 c1 00 c2 00 20: vcmpps $0x20, (%r8), %xmm15, %xmm0: vcmpps_b 6 1\n\
vcvtpd2ps_a: c5 f9 5a c1: vcvtpd2ps %xmm1, %xmm0: vcvtpd2ps_a 4 1\n\
cmpps_a: 0f c2 05 ff ff ff ff 00: cmpeqps (%rip), %xmm0: cmpps_a 8 5\n\
jmp_d8: eb fe: jmp 0: jmp_d8 2 0\n\
je_d32: 0f 84 f6 ff ff ff: je 0xfffffffffffffffc: je_d32 6 0\n\
shlb_m1: d0 e0: shlb $1, %al: shlb_m1 2 1\n\
nop_9b: 66 0f 1f 84 00 00 00 00 00: nopw (%rax, %rax): nopw_rm 9 6\n\
";

/// A run with these words, which is to print this.
#[derive(Clone, Copy)]
struct Run {
    words: &'static [&'static str],
    want: &'static str,
    global: Global,
}

impl Grows for Run {
    fn run<A: Allocator + Copy>(&self, alloc: A) -> Outcome {
        let mut out: Vec<u8> = Vec::new(self.global);
        let mut err: Vec<u8> = Vec::new(self.global);
        let status = run(alloc, self.words, &mut out, &mut err);
        let is_told = err.as_slice() == b"no memory\n".as_slice();
        match (status, out.as_slice()) {
            (0, out) if out == self.want.as_bytes() && err.is_empty() => Outcome::Made,
            (3, out) if is_told && is_front_of_lines(out, self.want) => Outcome::Refused,
            _ => Outcome::Wrong,
        }
    }
}

fn is_front_of_lines(out: &[u8], want: &str) -> bool {
    want.as_bytes().starts_with(out) && matches!(out, [] | [.., b'\n'])
}

const FIRST_ROW: &str = "andb_i: 24 aa: andb $0xaa, %al: andb_i 2 0\n";

/// There is a heap with memory for the first line and none for the second.
#[derive(Clone, Copy)]
struct FirstRow(Global);

impl Grows for FirstRow {
    fn run<A: Allocator + Copy>(&self, alloc: A) -> Outcome {
        let mut out: Vec<u8> = Vec::new(self.0);
        let mut err: Vec<u8> = Vec::new(self.0);
        match (run(alloc, &[], &mut out, &mut err), out.as_slice()) {
            (3, []) => Outcome::Refused,
            (3, out) if out == FIRST_ROW.as_bytes() => Outcome::Made,
            _ => Outcome::Wrong,
        }
    }
}

/// Words that are no command.
#[derive(Clone, Copy)]
struct Usage(Global);

impl Grows for Usage {
    fn run<A: Allocator + Copy>(&self, alloc: A) -> Outcome {
        let mut out: Vec<u8> = Vec::new(self.0);
        let mut err: Vec<u8> = Vec::new(self.0);
        let words = ["tail", "8", "13", "12", "3", "0", "127"];
        let status = run(alloc, &words, &mut out, &mut err);
        if status == 2 && out.is_empty() && err.as_slice() == b"usage\n".as_slice() {
            Outcome::Made
        } else {
            Outcome::Wrong
        }
    }
}

#[test]
fn each_line_is_refused_and_then_printed(rt: HostRuntime) {
    let tail = Run {
        words: &["tail", "7", "13", "12", "3", "2147483647", "127"],
        want: "bc e5 ff ff ff 7f\n",
        global: rt.alloc(),
    };
    assert!(rt; is_refused(rt.alloc(), &tail, 2));
    let rows = Run {
        words: &["rows"],
        want: ROWS,
        global: rt.alloc(),
    };
    assert!(rt; is_refused(rt.alloc(), &rows, 3));
    let buffer = Run {
        words: &["buffer"],
        want: "0f c2 05 00 00 00 00 00\nff 15 fa ff ff ff\n",
        global: rt.alloc(),
    };
    assert!(rt; is_refused(rt.alloc(), &buffer, 3));
    assert!(rt; enough(rt.alloc(), &FirstRow(rt.alloc())).is_some());
    assert!(rt; refusals(rt.alloc(), &Usage(rt.alloc())) == Some(0));
}
