// Serves a server's turn on a round file. Standard input has a line with the permutation, a slash and the secret
// words, and the file behind it; standard output gets the file with the turn's records.
#![tactic(auto)]

ghost use Rattle.std.specs.Prelude.{◌<◌, length, MatchOption};

use anyhow::Context;
use clearing::clear;
use mixfile::file::mix_file;
use std::io::{Read, Write};
use std::str::{SplitWhitespace, from_utf8};

// The longest line that is read: enough for 64 entries and six words for each of 4,096 comparators.
const LONGEST_LINE: usize = 524288;

// A file of more bytes is refused, whatever they are, so no more are read.
const ENOUGH: usize = 65537;

// The numbers of a line: those before the slash, and those behind it.
#[derive(Drop)]
struct Secrets {
    permutation: Vec<usize>,
    words: Vec<u64>,
}

// Where the first newline is, within the longest line.
fn line_end(bytes: &[u8]) -> Option<usize>
    ensures { MatchOption result Unit (λ end. end < length bytes.now) }
{
    bytes
        .iter()
        .take(LONGEST_LINE + 1)
        .position(|byte| *byte == b'\n')
}

// The numbers before the slash; none where a part is no number, or there is no slash. That is an answer to the line; the
// error is want of memory, which ends the program.
fn read_permutation(
    rt: &HostRuntime,
    parts: &mut SplitWhitespace<'_>,
) -> anyhow::Result<Option<Vec<usize>>> {
    let mut entries = Vec::new(rt.alloc());
    for part in parts {
        if part == "/" {
            return Ok(Some(entries));
        }
        let Ok(entry) = part.parse::<usize>() else {
            return Ok(None);
        };
        entries.push(entry)?;
    }
    Ok(None)
}

fn read_line(rt: &HostRuntime, line: &[u8]) -> anyhow::Result<Secrets> {
    let text = from_utf8(line).ok().context("the line is no text")?;
    let mut parts = text.split_whitespace();
    let permutation = read_permutation(rt, &mut parts)?.context(
        "the line has no permutation before a slash",
    )?;
    // room for all from the start, so that no copy of them stays behind
    let mut words = Vec::with_capacity(rt.alloc(), line.len())?;
    for part in parts {
        let word = part
            .parse::<u64>()
            .ok()
            .context("a secret word is no number")?;
        words.push(word)?;
    }
    Ok(Secrets { permutation, words })
}

fn read_input(rt: &HostRuntime) -> anyhow::Result<Vec<u8>> {
    let mut bytes = Vec::with_capacity(rt.alloc(), LONGEST_LINE + ENOUGH)?;
    rt.stdin()
        .take((LONGEST_LINE + ENOUGH) as u64)
        .read_to_end(&mut bytes)?;
    Ok(bytes)
}

// Serves the turn that the bytes ask for; the line's secrets do not stay in them.
fn serve(rt: &HostRuntime, bytes: &mut [u8]) -> anyhow::Result<Vec<u8>> {
    let end = line_end(bytes).context("there is no line with a permutation and secret words")?;
    let secrets = read_line(rt, &bytes[..end]);
    clear(&mut bytes[..end]);
    let Secrets {
        permutation,
        mut words,
    } = secrets?;
    Ok(mix_file(
        rt.alloc(),
        &bytes[end + 1..],
        permutation.as_slice(),
        words.as_mut_slice(),
    )?)
}

fn run(rt: &HostRuntime) -> anyhow::Result<()> {
    let mut bytes = read_input(rt)?;
    let mixed = serve(rt, bytes.as_mut_slice())?;
    Ok(rt.stdout().write_all(mixed.as_slice())?)
}

fn main(rt: HostRuntime) -> anyhow::Result<()> {
    run(&rt)
}
