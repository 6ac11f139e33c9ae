//! Draws any file that people have in place of a key, and says what it is.
#![tactic(auto)]

mod output;
mod text;

use crate::output::{Failure, Style, show, status_of};
use crate::text::escaped;
use clap::error::ErrorKind;
use clap::{Arg, ArgAction, ArgMatches, Command, Error, value_parser};
use der_view::Options;
use std::alloc::{AllocError, Global};
use std::io::BufWriter;
use std::process::ExitCode;
use std::{env, fs, io};

/// The number of bytes that are written at a time.
const BUFFER: usize = 65_536;

/// What `--help` says after the options.
const MORE: &str = "\
A content that may be private is hidden: its length stands in its place. A file has at most
16,777,215 bytes.

The status is 0 if each file has an EC private key (RFC 5915), 1 if one has none, and 2 if
one can't be read or shown, or for wrong arguments.

Example: sec1_dump --depth 1 key.pem";

/// Returns the option `--NAME`, which takes no value.
fn flag<'a>(alloc: Global, name: &'static str, help: &'static str) -> Arg<'a> {
    Arg::new(alloc, name)
        .long(name)
        .action(ArgAction::SetTrue)
        .help(help)
}

/// Returns the option `--NAME`, whose value is a number of bytes or of elements.
fn number<'a>(alloc: Global, name: &'static str, help: &'static str) -> Arg<'a> {
    Arg::new(alloc, name)
        .long(name)
        .value_name("N")
        .value_parser(value_parser!(usize).range(0..=16_777_215))
        .help(help)
}

/// Returns the arguments that these words give.
///
/// # Errors
///
/// A mistake in the words, or a request for help or for the version.
fn parsed<'a>(alloc: Global, words: &'a [String]) -> Result<ArgMatches<'a>, Error> {
    let offset = "Draws the element that begins after N bytes alone";
    let depth = "Draws no element that more than N others are around";
    let every = vec![in alloc;
        flag(
            alloc,
            "all",
            "Shows the content of each element too, private keys among them"
        ),
        flag(alloc, "json", "Prints lines of JSON"),
        number(alloc, "offset", offset),
        number(alloc, "depth", depth),
        Arg::new(alloc, "FILE")
            .num_args(1..)
            .action(ArgAction::Append)
            .help("DER, PEM, hexadecimal or base64; standard input if absent or -"),
    ]?;
    Command::new(alloc, "sec1_dump")
        .version("0.2.0")
        .about("Draws any file that people have in place of a key, and says what it is")
        .after_help(MORE)
        .args_override_self(true)
        .args(every)?
        .try_get_matches_from(words)
}

/// Shows a file, or standard input if there is none or its name is `-`. Returns whether it has a
/// key.
fn show_file(rt: &HostRuntime, style: Style, path: Option<&str>) -> Result<bool, Failure> {
    let alloc = rt.alloc();
    let Ok(mut writer) = BufWriter::with_capacity(alloc, BUFFER, io::writer(rt)) else {
        return Err(Failure::Memory);
    };
    match path {
        None | Some("-") => show(alloc, style, path, rt.reader(), &mut writer),
        Some(name) => {
            let file = fs::open(rt, name).map_err(Failure::Input)?;
            show(alloc, style, path, file, &mut writer)
        }
    }
}

/// Says why a file isn't shown to its end. Returns whether others may be shown.
fn tell(rt: &HostRuntime, path: Option<&str>, failure: Failure) -> bool {
    let name = match path {
        None | Some("-") => "standard input",
        Some(path) => path,
    };
    let Ok(name) = escaped(rt.alloc(), name) else {
        tell_memory(rt);
        return true;
    };
    let told = match &failure {
        Failure::Input(error) => eprintln!(rt; "sec1_dump: {name}: {error}"),
        Failure::TooLong => eprintln!(rt; "sec1_dump: {name}: more than 16,777,215 bytes"),
        Failure::Memory => eprintln!(rt; "sec1_dump: {name}: out of memory"),
        Failure::Output(error) => eprintln!(rt; "sec1_dump: standard output: {error}"),
    };
    told.is_ok() && !matches!(&failure, Failure::Output(_))
}

/// Says that there is no memory.
fn tell_memory(rt: &HostRuntime) {
    let _ = eprintln!(rt; "sec1_dump: out of memory");
}

/// Shows a file. Returns whether others may be shown, and the status for this one.
fn dump_file(rt: &HostRuntime, style: Style, path: Option<&str>) -> (bool, u8) {
    let shown = show_file(rt, style, path);
    let status = status_of(&shown);
    match shown {
        Ok(_) => (true, status),
        Err(failure) => (tell(rt, path, failure), status),
    }
}

/// Shows the files that the arguments name, or standard input if they name none. Returns the
/// greatest of their statuses.
fn dump(rt: &HostRuntime, matches: &ArgMatches) -> u8 {
    let options = Options {
        all: matches.get_flag("all"),
        json: matches.get_flag("json"),
        levels: match matches.get_one::<usize>("depth") {
            Some(depth) => depth.saturating_add(1),
            None => 0,
        },
        offset: matches.get_one::<usize>("offset").unwrap_or(0),
        file: &[],
    };
    let paths = matches.get_strs("FILE").unwrap_or(&[]);
    let named = paths.len() > 1;
    let style = Style { options, named };
    if paths.is_empty() {
        return dump_file(rt, style, None).1;
    }
    let mut greatest = 0;
    for path in paths {
        let (goes_on, status) = dump_file(rt, style, Some(*path));
        greatest = u8::max(greatest, status);
        if !goes_on {
            break;
        }
    }
    greatest
}

/// Says what is wrong with the arguments, or prints help or the version, and returns the status.
fn tell_arguments(rt: &HostRuntime, error: Error) -> u8 {
    match error.print(rt) {
        Ok(()) => error.exit_code() as u8,
        Err(error) => {
            let _ = eprintln!(rt; "sec1_dump: standard output: {error}");
            2
        }
    }
}

/// Runs the program, and returns the status that it ends with. Fails only if an allocation fails.
fn run(rt: &HostRuntime) -> Result<u8, AllocError> {
    let alloc = rt.alloc();
    let Ok(arguments) = env::args(rt) else {
        let _ = eprintln!(rt; "sec1_dump: the arguments can't be read");
        return Ok(2);
    };
    let words: Vec<String> = arguments.collect(alloc)?;
    match parsed(alloc, words.as_slice()) {
        Ok(matches) => Ok(dump(rt, &matches)),
        Err(error) if error.kind() == ErrorKind::OutOfMemory => Err(AllocError),
        Err(error) => Ok(tell_arguments(rt, error)),
    }
}

fn main(rt: HostRuntime) -> ExitCode {
    match run(&rt) {
        Ok(status) => ExitCode::from(status),
        Err(_) => {
            tell_memory(&rt);
            ExitCode::from(2)
        }
    }
}
