//! Makes the calls that the lines of standard input name, and prints how each ends. Lines that
//! begin with `#` are skipped.
//!
//! `ec-private-key DIGITS`, `certificate DIGITS`, `public-key-info DIGITS`, `private-key-info
//! DIGITS`, `signature DIGITS`: the structure is read and written again.
//! `point N DIGITS`: each call that allocates, of the point with this encoding at field elements of
//! N bytes.
//! `key P C Q`: each call that allocates, of the key with a private key of P bytes, the curve whose
//! identifier has the content C and a public key of Q bytes, each `-` if absent.
//! `break HOW AT STEP P`: the key with a private key of P bytes over a reader and a writer that
//! move at most STEP bytes at once, and fail once or end after AT bytes.
//! `pieces HOW AT STEP DIGITS`: the same of any bytes.
//! `show_key P C Q`, `show_point N DIGITS`: what is printed by `{:?}`.
//! `hidden P C Q`: whether what is printed by `{:?}` with options is that of a key that has no
//! private bytes.
//! `encode P ROOM`, `document DIGITS`, `failed DIGITS`, `parts N DIGITS`, `text N TEXT`: single
//! calls.
//! `write KIND P PATH`, `read KIND PATH`: one call on a file, of a `key` or a `document`; of a P of
//! `-` the shortest element is written.
//! `file P PATH`: each call on a file. `refuse PATH`: a key type that refuses.
//!
//! `tests/keys`, `tests/certificates` and `tests/calls` make the lines, and say what is printed.
#![tactic(auto)]

mod calls;
mod fields;
mod files;
mod keys;
mod points;
mod refusals;
mod results;
mod shown;
mod streams;
mod structures;
mod words;

use std::alloc::{AllocError, Global};
use std::io;
use std::io::{BufRead, BufReader};
use std::rt::Files;
use words::word;

/// Returns the line that is printed for this one.
fn answer<H: Files>(rt: &H, alloc: Global, line: &str) -> Result<String, AllocError> {
    let (name, rest) = word(line.as_bytes());
    match name {
        b"point" => points::answer(alloc, rest),
        b"key" => keys::answer(alloc, rest),
        b"break" => streams::answer(alloc, rest),
        b"pieces" => streams::pieces(alloc, rest),
        b"write" => files::write(rt, alloc, rest),
        b"read" => files::read(rt, alloc, rest),
        b"file" => files::answer(rt, alloc, rest),
        b"refuse" => refusals::answer(rt, alloc, rest),
        _ => results_of(alloc, name, rest),
    }
}

/// Makes a call that reads and writes no file, and returns the line of its result.
fn results_of(alloc: Global, name: &[u8], rest: &[u8]) -> Result<String, AllocError> {
    match name {
        b"encode" => results::encode(alloc, rest),
        b"document" => results::document(alloc, rest),
        b"failed" => results::failed(alloc, rest),
        b"parts" => results::parts(alloc, rest),
        b"text" => results::text(alloc, rest),
        b"show_key" => shown::key(alloc, rest),
        b"hidden" => shown::hidden(alloc, rest),
        b"show_point" => shown::point(alloc, rest),
        _ => structures::answer(alloc, name, rest),
    }
}

/// Prints the line for this one, unless it begins with `#`.
fn print(rt: &HostRuntime, line: &str) -> io::Result<()> {
    if line.starts_with('#') {
        return Ok(());
    }
    println!(rt; "{}", answer(rt, rt.alloc(), line)?)
}

fn main(rt: HostRuntime) -> io::Result<()> {
    for line in BufReader::new(rt.alloc(), rt.reader())?.lines(rt.alloc()) {
        print(&rt, &line?)?;
    }
    Ok(())
}
