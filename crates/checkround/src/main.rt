// Checks a round file, of standard input or of the file that is named, and prints a line a record.
#![tactic(auto)]

#[cfg(test)]
mod tests;

use anyhow::anyhow;
use roundcheck::file::check_file;
use std::fs::File;
use std::io::Read;
use std::process::ExitCode;
use std::{env, io};

const USAGE: &str =
    "checkround checks a round file and prints a line for each record, then the verdict or the refusal.

  checkround < FILE    reads standard input
  checkround FILE      reads the file
  checkround --help    prints this

The status is 0 where the file was read to its end, and 1 where it was refused or could not be read.
";

// A file of more bytes is refused, whatever they are, so no more are read.
const ENOUGH: u64 = 65537;

// What the arguments ask for.
#[derive(Drop)]
enum Asked {
    StandardInput,
    File(String),
    Help,
}

fn read_arguments(rt: &HostRuntime) -> anyhow::Result<Asked> {
    let mut words = env::args(rt)?;
    // the program's own name
    let _ = words.next();
    let Some(word) = words.next() else {
        return Ok(Asked::StandardInput);
    };
    if words.next().is_some() {
        return Err(anyhow!("more than one argument; see checkround --help"));
    }
    if word.as_str() == "--help" {
        return Ok(Asked::Help);
    }
    Ok(Asked::File(word))
}

fn read_bytes<R: Read + Drop>(rt: &HostRuntime, input: R) -> io::Result<Vec<u8>> {
    let mut bytes = Vec::new(rt.alloc());
    input.take(ENOUGH).read_to_end(&mut bytes)?;
    Ok(bytes)
}

// Checks the bytes, prints the report, and answers whether they were read to their end.
fn check(rt: &HostRuntime, bytes: &[u8]) -> anyhow::Result<bool> {
    let report = check_file(rt.alloc(), bytes)?;
    let text = report.text(rt.alloc())?;
    rt.print(text)?;
    Ok(report.ending.is_ok())
}

fn run(rt: &HostRuntime) -> anyhow::Result<bool> {
    let bytes = match read_arguments(rt)? {
        Asked::StandardInput => read_bytes(rt, rt.stdin())?,
        Asked::File(path) => read_bytes(rt, File::open(rt, path.as_str())?)?,
        Asked::Help => {
            rt.print(USAGE)?;
            return Ok(true);
        }
    };
    check(rt, bytes.as_slice())
}

fn main(rt: HostRuntime) -> anyhow::Result<ExitCode> {
    // Where the file was refused, the refusal is printed: there is nothing more to say of it.
    Ok(if run(&rt)? {
        ExitCode::SUCCESS
    } else {
        ExitCode::FAILURE
    })
}
