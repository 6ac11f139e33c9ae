//! Runs over readers and writers that fail. `tests/test_reports.py` has the reports on known
//! inputs, and `tests/test_program.py` the program as a user runs it, with each request refused.
mod taken;

use crate::{Fault, Form, inspect, run, run_der};
use sec1::der::{StdReader, StdWriter};
use std::alloc::Global;
use std::fmt::Debug;
use std::io;
use std::process::Abort;
use std::test::Fail;

/// Fails the test unless the two are equal.
// A call of this takes the prover a fraction of the time that `assert_eq!` takes in line.
fn assert_equal<T: PartialEq + Debug>(rt: &impl Abort, found: &T, wanted: &T) {
    assert_eq!(rt; *found, *wanted);
}

/// Fails the test unless the two are equal, and names the case.
fn assert_equal_for<C: Debug, T: PartialEq + Debug>(
    rt: &impl Abort,
    case: &C,
    found: &T,
    wanted: &T,
) {
    assert_eq!(rt; *found, *wanted, "of {case:?}");
}

/// Returns the result of a run over the reader, and the writer after it.
// It says nothing of these, so that a call of it takes the prover less time than `run`.
fn outcome<R: io::Read + Drop, W: io::Write + Drop>(
    alloc: Global,
    form: Form,
    reader: R,
    writer: W,
) -> (Result<u8, Fault>, W) {
    let mut reader = StdReader::new(reader);
    let mut writer = StdWriter::new(writer);
    let result = match form {
        Form::Text => run(alloc, &mut reader, &mut writer),
        Form::Der => run_der(alloc, &mut reader, &mut writer),
    };
    (result, writer.into_inner())
}

/// A reader that gives its bytes one by one and then fails.
#[derive(Drop)]
struct Broken<'a> {
    rest: &'a [u8],
}

impl io::Read for Broken<'_> {
    fn read(&mut self, buf: &mut [u8]) -> io::Result<usize> {
        if self.rest.is_empty() {
            return Err(io::Error::from(io::ErrorKind::Other));
        }
        let count = buf.len().min(1);
        let (front, rest) = self.rest.split_at(count);
        buf[..count].copy_from_slice(front);
        self.rest = rest;
        Ok(count)
    }
}

/// A writer that takes some bytes in all, a few at a time, and then fails or takes none.
#[derive(Drop)]
struct Narrow {
    taken: Vec<u8>,
    step: usize,
    room: usize,
    fails: bool,
}

impl io::Write for Narrow {
    fn write(&mut self, buf: &[u8]) -> io::Result<usize> {
        let count = self.step.min(self.room).min(buf.len());
        if count == 0 && self.fails {
            return Err(io::Error::from(io::ErrorKind::Other));
        }
        self.taken.extend_from_slice(&buf[..count])?;
        self.room -= count;
        Ok(count)
    }

    fn flush(&mut self) -> io::Result<()> {
        Ok(())
    }
}

/// A key of no bytes and no other part, in hexadecimal.
static EMPTY_KEY: &[u8] = b"30050201010400";

/// The report on that key.
static EMPTY_KEY_REPORT: &[u8] =
    b"private_key: 0 bytes\nparameters: none\npublic_key: none\npoint: none\n";

#[test]
fn reports_failed_reads_in_turn(rt: HostRuntime) {
    for given in 0..=EMPTY_KEY.len() {
        let rest = EMPTY_KEY.get(..given).unwrap_or_default();
        for form in [Form::Text, Form::Der] {
            let reader = Broken { rest };
            let (result, text) = outcome(rt.alloc(), form, reader, Vec::new(rt.alloc()));
            assert_equal_for(&rt, &given, &result, &Err(Fault::Input));
            assert_equal_for(&rt, &given, &text.is_empty(), &true);
        }
    }
    let _ = println!(&rt; "run, run_der: each of their 15 reads fails");
}

/// Fails the test unless a run over that key fails with its writer, which then has taken as many
/// bytes of the report as it has room for.
fn fails_to_write(rt: &(impl Abort + AllocGlobal), form: Form, key: &[u8], writer: Narrow) {
    let room = writer.room;
    let (result, writer) = outcome(rt.alloc(), form, key, writer);
    assert_equal_for(rt, &room, &result, &Err(Fault::Output));
    let taken = Some(writer.taken.as_slice());
    assert_equal_for(rt, &room, &taken, &EMPTY_KEY_REPORT.get(..room));
}

#[test]
fn reports_failed_writes_in_turn(rt: HostRuntime) -> Result<(), Fail> {
    let der = hex::decode(rt.alloc(), EMPTY_KEY)?;
    for room in 0..EMPTY_KEY_REPORT.len() {
        for (step, fails) in [(1, true), (1, false), (3, true), (100, true)] {
            for (form, key) in [(Form::Text, EMPTY_KEY), (Form::Der, der.as_slice())] {
                let writer = Narrow {
                    taken: Vec::new(rt.alloc()),
                    step,
                    room,
                    fails,
                };
                fails_to_write(&rt, form, key, writer);
            }
        }
    }
    let _ = println!(&rt; "run, run_der: each of their 67 writes fails");
    Ok(())
}

/// A writer that takes all bytes, and fails when it is flushed.
#[derive(Drop)]
struct Unflushed;

impl io::Write for Unflushed {
    fn write(&mut self, buf: &[u8]) -> io::Result<usize> {
        Ok(buf.len())
    }

    fn flush(&mut self) -> io::Result<()> {
        Err(io::Error::from(io::ErrorKind::Other))
    }
}

#[test]
fn flushes_what_was_written(rt: HostRuntime) -> Result<(), Fail> {
    let alloc = rt.alloc();
    let der = hex::decode(alloc, EMPTY_KEY)?;
    for (form, input) in [(Form::Text, EMPTY_KEY), (Form::Der, der.as_slice())] {
        assert_equal(
            &rt,
            &inspect(alloc, form, input, Unflushed),
            &Err(Fault::Output),
        );
        let mut room = [0u8; 67];
        assert_equal(
            &rt,
            &inspect(alloc, form, input, room.as_mut_slice()),
            &Ok(0),
        );
        assert_equal(&rt, &room.as_slice(), &EMPTY_KEY_REPORT);
    }
    Ok(())
}

#[test]
fn names_faults(rt: HostRuntime) -> Result<(), Fail> {
    for (error, words) in [
        (Fault::Input, "input failed"),
        (Fault::Output, "output failed"),
        (Fault::Memory, "out of memory"),
    ] {
        assert_equal(&rt, &format!(in rt.alloc(); "{error}")?.as_str(), &words);
    }
    Ok(())
}
