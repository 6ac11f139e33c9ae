//! Inspects an EC private key: hexadecimal text on standard input, or DER in the file named by the
//! one argument.
#![tactic(auto)]

mod report;
#[cfg(test)]
mod tests;

ghost use Rattle.std.specs.Prelude.{◌≡◌, ◌≢◌, ◌<◌, ◌≤◌, ℕ, List, false, ◌↔◌, ◌⊎◌, IsTrue, IfOk};
ghost use Rattle.std.specs.Prelude.{IfErr, OnOk, OnErr, IsErrOf, MatchOption, MatchResult, Ok};
ghost use Rattle.std.specs.Prelude.{Err, Some, string_bytes};
ghost use Rattle.std.specs.Io.KnownBytes.{Appends};
ghost use Rattle.sec1.specs.Der.{AppendsPrefix, Ends, Takes};
ghost use Rattle.sec1_der.specs.Streams.{ReadsOnto};
ghost use Rattle.sec1_inspect.specs.declared.Failure.TheVariants.{Run, Paths};
ghost use Rattle.sec1_inspect.specs.declared.Fault.TheVariants.{Input, Output, Memory};
ghost use Rattle.sec1_inspect.specs.declared.Source.TheVariants.{StandardInput, File};
ghost use Rattle.sec1_inspect.specs.Report.{IsDerReport, IsReport};
ghost use Rattle.sec1_inspect.specs.Run.{HasStatus, ReportsOn, TakesInput};
ghost use Rattle.sec1_inspect.specs.Run.{WritesPrefix, WritesReport, fault_text, line_of};
ghost use Rattle.sec1_inspect.specs.Run.{report_in};

use crate::report::{LIMIT, Report, report_on_der, report_on_text};
use sec1::der::{Read, StdReader, StdWriter, Write};
use std::alloc::{AllocError, Global};
use std::io::Write as _;
use std::process::ExitCode;
use std::rt::{Env, Files};
use std::{env, fmt, fs, io};

/// Why there is no report.
#[derive(Clone, Copy, Debug, PartialEq, Eq)]
pub enum Fault {
    /// The reader failed.
    Input,
    /// The writer failed.
    Output,
    /// An allocation failed.
    Memory,
}

/// Prints the text of the error, whatever options are set.
impl fmt::Display for Fault {
    ghost output = { λ error. Some (fault_text error) };

    ghost styled_output = { λ error _. Some (fault_text error) };

    fn fmt<W: fmt::Write>(&self, f: &mut fmt::Formatter<W>) -> fmt::Result {
        f.write_str(match self {
            Fault::Input => "input failed",
            Fault::Output => "output failed",
            Fault::Memory => "out of memory",
        })
    }
}

impl From<AllocError> for Fault {
    ghost from_gives = { λ _ error. error ≡ Memory };

    fn from(_: AllocError) -> Fault {
        Fault::Memory
    }
}

/// Reads an input in hexadecimal, writes the report on it, and returns the status: 0 for a key, 1
/// for anything else. At most 1,048,577 bytes are read.
///
/// # Errors
///
/// Input exactly when a read failed, Output exactly when a write failed, Memory if an allocation
/// failed. After Output a prefix of the report has been written, otherwise nothing.
pub fn run<R: Read, W: Write>(alloc: Global, reader: &mut R, writer: &mut W) -> Result<u8, Fault>
    requires reader { R.failed reader.old ≡ false }
    requires writer { W.failed writer.old ≡ false }

    ensures input { IsErrOf result Fault.Input ↔ IsTrue (R.failed reader.new) }
    ensures output { IsErrOf result Fault.Output ↔ IsTrue (W.failed writer.new) }

    ensures report { let taken = Takes R.left R.taken reader.old reader.new in
        let ended = Ends R.left R.ended reader.new in
        IfOk result (WritesReport (ReportsOn IsReport taken ended (R.left reader.old))
        (W.written writer.old) (W.written writer.new)) }

    ensures nothing { IfErr result
        (λ error. error ≢ Output → W.written writer.new ≡ W.written writer.old) }
    ensures prefix { let taken = Takes R.left R.taken reader.old reader.new in
        let ended = Ends R.left R.ended reader.new in
        IsErrOf result Fault.Output
        → WritesPrefix (ReportsOn IsReport taken ended (R.left reader.old))
        (W.written writer.old) (W.written writer.new) }
{
    let input = read_input(alloc, reader)?;
    let report = report_on_text(alloc, &input)?;
    write_report(writer, &report)
}

/// Reads an input in DER, and reports on it as [`run`] does.
///
/// # Errors
///
/// Those of [`run`].
pub fn run_der<R: Read, W: Write>(
    alloc: Global,
    reader: &mut R,
    writer: &mut W,
) -> Result<u8, Fault>
    requires reader { R.failed reader.old ≡ false }
    requires writer { W.failed writer.old ≡ false }

    ensures input { IsErrOf result Fault.Input ↔ IsTrue (R.failed reader.new) }
    ensures output { IsErrOf result Fault.Output ↔ IsTrue (W.failed writer.new) }

    ensures report { let taken = Takes R.left R.taken reader.old reader.new in
        let ended = Ends R.left R.ended reader.new in
        IfOk result (WritesReport (ReportsOn IsDerReport taken ended (R.left reader.old))
        (W.written writer.old) (W.written writer.new)) }

    ensures nothing { IfErr result
        (λ error. error ≢ Output → W.written writer.new ≡ W.written writer.old) }
    ensures prefix { let taken = Takes R.left R.taken reader.old reader.new in
        let ended = Ends R.left R.ended reader.new in
        IsErrOf result Fault.Output
        → WritesPrefix (ReportsOn IsDerReport taken ended (R.left reader.old))
        (W.written writer.old) (W.written writer.new) }
{
    let input = read_input(alloc, reader)?;
    let report = report_on_der(alloc, &input)?;
    write_report(writer, &report)
}

/// Reads the remaining input, at most one byte more than the limit.
///
/// # Errors
/// Input exactly when a read failed, Memory if an allocation failed.
#[tactic(auto, using(crate::proofs::ReportLemmas::takes_onto))]
fn read_input<R: Read>(alloc: Global, reader: &mut R) -> Result<Vec<u8>, Fault>
    requires { R.failed reader.old ≡ false }
    ensures input { IsErrOf result Fault.Input ↔ IsTrue (R.failed reader.new) }
    ensures kind { IfErr result (λ error. (error ≡ Input) ⊎ (error ≡ Memory)) }
    ensures read { IfOk result
        (λ input. TakesInput (Takes R.left R.taken reader.old reader.new)
        (Ends R.left R.ended reader.new) input.items) }
{
    let mut input = Vec::new(alloc);
    while input.len() <= LIMIT {
        let missing = LIMIT + 1 - input.len();
        if read_some(reader, &mut input, missing)? == 0 {
            break;
        }
    }
    Ok(input)
}

/// The greatest number of bytes in one read.
const STEP: usize = 4096;

/// Appends the bytes of one read to the input, at most 4,096 and at most those missing, and returns
/// their number: 0 only at the end. The vector grows by no more.
///
/// # Errors
/// Input exactly when the read failed, Memory if the allocation failed. On an error the vector is
/// unchanged.
fn read_some<R: Read>(reader: &mut R, input: &mut Vec<u8>, missing: usize) -> Result<usize, Fault>
    requires unfailed { R.failed reader.old ≡ false }
    requires some { 0 < missing }
    ensures input { IsErrOf result Fault.Input ↔ IsTrue (R.failed reader.new) }
    ensures kind { IfErr result (λ error. (error ≡ Input) ⊎ (error ≡ Memory)) }
    ensures bound { IfOk result (λ n. n ≤ missing) }
    ensures bytes { IfOk result
        (ReadsOnto (Takes R.left R.taken reader.old reader.new) input.old.items
        input.new.items) }
    ensures end { IfOk result (λ n. n ≡ 0 → Ends R.left R.ended reader.new) }
    ensures unchanged { OnErr result (input.new.items ≡ input.old.items) }
{
    let mut chunk = [0u8; STEP];
    let step = missing.min(STEP);
    input.reserve_exact(step)?;
    let Ok(count) = reader.read(&mut chunk[..step]) else {
        return Err(Fault::Input);
    };
    input.extend_from_slice(&chunk[..count])?;
    Ok(count)
}

/// Writes the report, and returns its status.
///
/// # Errors
/// Output exactly when a write failed, after a prefix of the report was written.
fn write_report<W: Write>(writer: &mut W, report: &Report) -> Result<u8, Fault>
    requires { W.failed writer.old ≡ false }
    ensures output { IsErrOf result Fault.Output ↔ IsTrue (W.failed writer.new) }
    ensures kind { IfErr result (λ error. error ≡ Output) }
    ensures status { IfOk result (λ status. status ≡ report.now.status) }
    ensures whole { OnOk result
        (Appends (W.written writer.old) (W.written writer.new) (string_bytes report.now.text)) }
    ensures prefix { OnErr result
        (AppendsPrefix (W.written writer.old) (W.written writer.new)
        (string_bytes report.now.text)) }
{
    match writer.write_all(report.text.as_bytes()) {
        Ok(()) => Ok(report.status),
        Err(_) => Err(Fault::Output),
    }
}

/// The form of an input.
#[derive(Clone, Copy)]
enum Form {
    /// Hexadecimal text.
    Text,
    /// Raw bytes.
    Der,
}

/// Reads the input, writes and flushes the report on it, and returns the status.
///
/// # Errors
/// Input if a read failed, Output if a write or the flush failed, Memory if an allocation failed.
#[tactic(auto, using(crate::proofs::ReportLemmas::has_status))]
fn inspect<R: io::Read + Drop, W: io::Write + Drop>(
    alloc: Global,
    form: Form,
    reader: R,
    writer: W,
) -> Result<u8, Fault>
    ensures { IfOk result (HasStatus (report_in form) (R.remaining reader)) }
{
    let mut reader = StdReader::new(reader);
    let mut writer = StdWriter::new(writer);
    let status = match form {
        Form::Text => run(alloc, &mut reader, &mut writer)?,
        Form::Der => run_der(alloc, &mut reader, &mut writer)?,
    };
    match writer.into_inner().flush() {
        Ok(()) => Ok(status),
        Err(_) => Err(Fault::Output),
    }
}

/// Why the program prints no report.
#[derive(Drop)]
enum Failure {
    /// A run failed.
    Run(Fault),
    /// Two or more paths were given.
    Paths,
}

impl From<Fault> for Failure {
    ghost from_gives = { λ error failure. failure ≡ Run error };

    fn from(error: Fault) -> Failure {
        Failure::Run(error)
    }
}

/// What the program reports on.
#[derive(Drop)]
enum Source {
    /// Hexadecimal text on standard input.
    StandardInput,
    /// DER in the file at this path.
    File(String),
}

/// Returns the source named by the first two arguments.
///
/// # Errors
/// Paths if there are two.
fn chosen_source(path: Option<String>, other: Option<String>) -> Result<Source, Failure>
    ensures { MatchOption path (result ≡ Ok StandardInput)
        (λ path. MatchOption other (result ≡ Ok (File path)) (λ _. result ≡ Err Paths)) }
{
    match (path, other) {
        (None, _) => Ok(Source::StandardInput),
        (Some(path), None) => Ok(Source::File(path)),
        (Some(_), Some(_)) => Err(Failure::Paths),
    }
}

/// Returns the status that the program ends with: the report's, otherwise 2.
fn status(outcome: &Result<u8, Failure>) -> u8
    ensures { MatchResult outcome.now (λ status. result ≡ status) (λ _. result ≡ 2) }
{
    match outcome {
        Ok(status) => *status,
        Err(_) => 2,
    }
}

/// Returns the line for standard error, without its end.
fn line(failure: &Failure) -> &'static str
    ensures { result.now ≡ line_of failure.now }
{
    match failure {
        Failure::Run(Fault::Input) => "sec1_inspect: input failed",
        Failure::Run(Fault::Output) => "sec1_inspect: output failed",
        Failure::Run(Fault::Memory) => "sec1_inspect: out of memory",
        Failure::Paths => "sec1_inspect: at most one path",
    }
}

/// Writes the report on the source named by the program's arguments to standard output, and returns
/// the status.
fn inspect_source<H: AllocGlobal + Env + Files + Input + Print>(rt: &H) -> Result<u8, Failure> {
    let Ok(mut arguments) = env::args(rt) else {
        return Err(Failure::Run(Fault::Input));
    };
    let _program = arguments.next();
    let status = match chosen_source(arguments.next(), arguments.next())? {
        Source::StandardInput => inspect(rt.alloc(), Form::Text, rt.reader(), io::writer(rt))?,
        Source::File(path) => {
            let file = fs::open(rt, path.as_str()).map_err(|_| Fault::Input)?;
            inspect(rt.alloc(), Form::Der, file, io::writer(rt))?
        }
    };
    Ok(status)
}

fn main(rt: HostRuntime) -> ExitCode {
    let outcome = inspect_source(&rt);
    if let Err(failure) = &outcome {
        let _ = eprintln!(&rt; "{}", line(failure));
    }
    ExitCode::from(status(&outcome))
}
