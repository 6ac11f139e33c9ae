//! Calls with each of their requests for memory refused once.
//!
//! They are refused by `tests/refuse.c`, an allocator that replaces the C library's. It is
//! controlled by requests of sizes that no allocator grants. Without it nothing is refused, and
//! each call is made once.

use crate::words::joined;
use std::alloc::{AllocError, Global};

/// What a call gave: the length of some bytes and their sum, or the name of an error.
#[derive(Clone, Copy)]
pub enum Outcome {
    /// The length and the sum of the bytes.
    Bytes(usize, u32),
    /// The error of a failed allocation.
    Memory,
    /// Another error, or another result than the others of this line.
    Other,
}

/// Returns the length and the sum of the bytes: each multiplies what is before it by 31.
pub fn sum_of(bytes: &[u8]) -> Outcome {
    let mut sum = 0u32;
    for &byte in bytes.iter() {
        sum = sum.wrapping_mul(31).wrapping_add(u32::from(byte));
    }
    Outcome::Bytes(bytes.len(), sum)
}

/// Asks for `more` bytes above what any allocator grants. Returns `true` if the allocator of the
/// tests granted them.
fn signal(alloc: Global, more: u32) -> bool {
    Vec::<u8>::with_capacity(alloc, (1 << 62) + more as usize).is_ok()
}

/// How the calls ended: the last one, which was refused nothing, and the numbers of requests
/// refused before it.
#[derive(Clone, Copy)]
struct Counts {
    last: Outcome,
    memory: u32,
    granted: u32,
    wrong: u32,
}

/// Makes the call with its first request refused, with its second, and so on until it makes no
/// more.
fn ends<F: FnMut() -> Outcome>(alloc: Global, mut call: F) -> Counts
    requires { F.IsAlwaysCallable call }
{
    let mut ends = Counts {
        last: Outcome::Other,
        memory: 0,
        granted: 0,
        wrong: 0,
    };
    for count in 0..1000u32 {
        let is_refusing = signal(alloc, count + 1);
        ends.last = call();
        if !is_refusing || !signal(alloc, 0x3_0000) {
            // no request was refused; this signal ends the counting
            let _ = is_refusing && signal(alloc, 0x1_0000);
            break;
        }
        match ends.last {
            Outcome::Memory => ends.memory = ends.memory.saturating_add(1),
            Outcome::Bytes(_, _) => ends.granted = ends.granted.saturating_add(1),
            Outcome::Other => ends.wrong = ends.wrong.saturating_add(1),
        }
    }
    ends
}

/// Returns how many requests were refused that ended the call with Memory, with success and with
/// another error; nothing if none was refused.
fn refused(alloc: Global, ends: Counts) -> Result<String, AllocError> {
    if ends.memory == 0 && ends.granted == 0 && ends.wrong == 0 {
        return "".to_string(alloc);
    }
    format!(in alloc; " {}+{}+{}", ends.memory, ends.granted, ends.wrong)
}

/// Returns the text of the call of this name that ended so.
fn told(alloc: Global, name: &str, ends: Counts) -> Result<String, AllocError> {
    let last = match ends.last {
        Outcome::Bytes(len, sum) => format!(in alloc; " {name} {len} {sum}"),
        Outcome::Memory => format!(in alloc; " {name} memory"),
        Outcome::Other => format!(in alloc; " {name} other"),
    };
    joined(alloc, "", [last, refused(alloc, ends)])
}

/// Returns a text of the call: its name, the length and sum of what it gave, and, where requests
/// were refused, how many of them ended it with Memory, with success and with another error.
pub fn tried<F: FnMut() -> Outcome>(
    alloc: Global,
    name: &str,
    call: F,
) -> Result<String, AllocError>
    requires { F.IsAlwaysCallable call }
{
    told(alloc, name, ends(alloc, call))
}
