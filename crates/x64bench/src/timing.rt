//! The best times of the calls, over a whole list each. Nothing here knows which instructions there are.

ghost use Rattle.std.specs.Prelude.{◌↔◌, IsTrue, All};
ghost use Rattle.cranelift_assembler_x64.specs.Vec.{vec_state};
ghost use Rattle.x64_encode.specs.Encode.{can_encode_by};

use crate::texts::Texts;
use cax64_sequence::{are_encodable, put_each, put_each_checked};
use cranelift_assembler_x64::reader::{Reading, read_inst};
use std::alloc::{AllocError, Global};
use std::io;
use std::io::ErrorKind;
use std::time::{Duration, Instant};
use x64_encode::Encode;

pub(crate) const ROUNDS: u32 = 15;

/// What is timed.
#[derive(Clone, Copy)]
pub(crate) enum Call {
    EncodeAll,
    IsEncodable,
    IsEncodableAndEncode,
    EncodeChecked,
    EncodeEachChecked,
    EncodedLen,
    ToString,
}

/// What is timed of each type of instruction, in an order in which there is code before it is measured.
pub(crate) const CALLS: [Call; 7] = [
    Call::EncodeAll,
    Call::IsEncodable,
    Call::IsEncodableAndEncode,
    Call::EncodeChecked,
    Call::EncodeEachChecked,
    Call::EncodedLen,
    Call::ToString,
];

impl Call {
    pub(crate) fn name(self) -> &'static str {
        match self {
            Call::EncodeAll => "encode_all",
            Call::IsEncodable => "is_encodable",
            Call::IsEncodableAndEncode => "is_encodable_and_encode",
            Call::EncodeChecked => "encode_checked",
            Call::EncodeEachChecked => "encode_each_checked",
            Call::EncodedLen => "encoded_len",
            Call::ToString => "to_string",
        }
    }
}

/// The place of the first instruction that can't be encoded or has no text.
pub(crate) fn first_unfit<I: Encode, T: Texts<I>>(insts: &[I], code: &Vec<u8>) -> Option<usize> {
    for (place, inst) in insts.iter().enumerate() {
        if !inst.is_encodable(code) || !T::nameable(inst) {
            return Some(place);
        }
    }
    None
}

/// The time since `start`. An error where not all was done, or what came isn't what was to come.
pub(crate) fn time_if(rt: &HostRuntime, start: Instant, is_done: bool) -> io::Result<Duration> {
    let time = start.elapsed(rt)?;
    if is_done {
        Ok(time)
    } else {
        Err(io::Error::from(ErrorKind::InvalidData))
    }
}

/// The call is `put_each`: `encode_each` and `encode_all` are nothing else.
fn time_encode_all<I: Encode>(
    rt: &HostRuntime,
    insts: &[I],
    code: &mut Vec<u8>,
) -> io::Result<Duration> {
    code.clear();
    if !are_encodable(insts, &*code) {
        return Err(io::Error::from(ErrorKind::InvalidData));
    }
    let start = Instant::now(rt)?;
    let is_done = put_each(insts, code).is_ok();
    time_if(rt, start, is_done)
}

fn time_is_encodable<I: Encode>(
    rt: &HostRuntime,
    insts: &[I],
    code: &Vec<u8>,
) -> io::Result<Duration> {
    let start = Instant::now(rt)?;
    let is_done = are_encodable(insts, code);
    time_if(rt, start, is_done)
}

/// Encodes each instruction behind the test whether it can be.
fn test_and_encode<I: Encode>(insts: &[I], code: &mut Vec<u8>) -> bool {
    for inst in insts {
        if !inst.is_encodable(&*code) || inst.encode(code).is_err() {
            return false;
        }
    }
    true
}

fn time_is_encodable_and_encode<I: Encode>(
    rt: &HostRuntime,
    insts: &[I],
    code: &mut Vec<u8>,
) -> io::Result<Duration> {
    code.clear();
    let start = Instant::now(rt)?;
    let is_done = test_and_encode(insts, code);
    time_if(rt, start, is_done)
}

/// Encodes each instruction by the call that tests it first. How many are put is counted, and the loop isn't inlined, as with
/// the calls for a list.
#[inline(never)]
fn encode_checked<I: Encode>(insts: &[I], code: &mut Vec<u8>) -> usize {
    for (whole, inst) in insts.iter().enumerate() {
        if inst.encode_checked(code).is_err() {
            return whole;
        }
    }
    insts.len()
}

fn time_encode_checked<I: Encode>(
    rt: &HostRuntime,
    insts: &[I],
    code: &mut Vec<u8>,
) -> io::Result<Duration> {
    code.clear();
    let start = Instant::now(rt)?;
    let is_done = encode_checked(insts, code) == insts.len();
    time_if(rt, start, is_done)
}

fn time_encode_each_checked<I: Encode>(
    rt: &HostRuntime,
    insts: &[I],
    code: &mut Vec<u8>,
) -> io::Result<Duration> {
    code.clear();
    let start = Instant::now(rt)?;
    let is_done = put_each_checked(insts, code).is_ok();
    time_if(rt, start, is_done)
}

/// The length of all instructions.
fn code_length<I: Encode>(insts: &[I], code: &Vec<u8>) -> usize
    requires { All (λ i. IsTrue (can_encode_by (vec_state code.now) (I.line_meant i))) insts.now }
{
    let mut length: usize = 0;
    for inst in insts {
        length = length.wrapping_add(usize::from(inst.encoded_len(code)));
    }
    length
}

fn time_encoded_len<I: Encode>(
    rt: &HostRuntime,
    insts: &[I],
    code: &Vec<u8>,
) -> io::Result<Duration> {
    if !are_encodable(insts, code) {
        return Err(io::Error::from(ErrorKind::InvalidData));
    }
    let start = Instant::now(rt)?;
    let length = code_length(insts, code);
    time_if(rt, start, length == code.len())
}

/// Whether each instruction has a text.
fn all_nameable<I, T: Texts<I>>(insts: &[I]) -> bool
    ensures { IsTrue result ↔ All (λ i. IsTrue (T.has_text i)) insts.now }
{
    insts.iter().all(|inst| T::nameable(inst))
}

/// The length of all texts, each made and let go.
fn text_length<I, T: Texts<I>>(alloc: Global, insts: &[I]) -> Result<usize, AllocError>
    requires { All (λ i. IsTrue (T.has_text i)) insts.now }
{
    let mut length: usize = 0;
    for inst in insts {
        let text = T::to_string(alloc, inst)?;
        length = length.wrapping_add(text.len());
    }
    Ok(length)
}

fn time_to_string<I, T: Texts<I>>(rt: &HostRuntime, insts: &[I]) -> io::Result<Duration> {
    if !all_nameable::<I, T>(insts) {
        return Err(io::Error::from(ErrorKind::InvalidData));
    }
    let start = Instant::now(rt)?;
    let length = text_length::<I, T>(rt.alloc(), insts)?;
    time_if(rt, start, length != 0)
}

/// Reads the first instruction, and leaves all that is read with the caller. Inlined, it would read what the caller uses, and
/// no more.
#[inline(never)]
fn read_to(code: &[u8], kept: &mut Option<Reading>) {
    *kept = read_inst(code);
}

/// Whether the code is that of so many instructions. Each reading is kept until the next one.
fn reads_as(code: &[u8], count: usize) -> bool {
    let mut rest = code;
    let mut kept = None;
    for _ in 0..count {
        read_to(rest, &mut kept);
        let Some(reading) = kept else {
            return false;
        };
        let Some(behind) = rest.get(usize::from(reading.length)..) else {
            return false;
        };
        rest = behind;
    }
    rest.is_empty()
}

/// The best time of all rounds of reading code of so many instructions.
pub(crate) fn best_time_of_reading(
    rt: &HostRuntime,
    code: &[u8],
    count: usize,
) -> io::Result<Duration> {
    let mut best = Duration::MAX;
    for _ in 0..ROUNDS {
        let start = Instant::now(rt)?;
        let is_done = reads_as(code, count);
        best = best.min(time_if(rt, start, is_done)?);
    }
    Ok(best)
}

/// The time of one round. `code` is what the last call that encodes made.
fn time_of<I: Encode, T: Texts<I>>(
    rt: &HostRuntime,
    call: Call,
    insts: &[I],
    code: &mut Vec<u8>,
) -> io::Result<Duration> {
    match call {
        Call::EncodeAll => time_encode_all(rt, insts, code),
        Call::IsEncodable => time_is_encodable(rt, insts, &*code),
        Call::IsEncodableAndEncode => time_is_encodable_and_encode(rt, insts, code),
        Call::EncodeChecked => time_encode_checked(rt, insts, code),
        Call::EncodeEachChecked => time_encode_each_checked(rt, insts, code),
        Call::EncodedLen => time_encoded_len(rt, insts, &*code),
        Call::ToString => time_to_string::<I, T>(rt, insts),
    }
}

/// The best time of all rounds.
pub(crate) fn best_time<I: Encode, T: Texts<I>>(
    rt: &HostRuntime,
    call: Call,
    insts: &[I],
    code: &mut Vec<u8>,
) -> io::Result<Duration> {
    let mut best = Duration::MAX;
    for _ in 0..ROUNDS {
        best = best.min(time_of::<I, T>(rt, call, insts, code)?);
    }
    Ok(best)
}
