#![tactic(auto)]

mod line;

use line::Shown;
use roundfile::reader::Reader;
use std::io;
use std::io::Read;

// Prints a line for each record of the file, up to its end or to the refusal, which is a line too and no error.
fn list(rt: &HostRuntime, file: &[u8]) -> io::Result<()> {
    let mut reader = match Reader::new(file) {
        Ok(reader) => reader,
        Err(refusal) => return println!(rt; "{refusal}"),
    };
    loop {
        match reader.next_record() {
            Ok(Some(entry)) => rt.println(Shown(entry))?,
            Ok(None) => return Ok(()),
            Err(refusal) => return println!(rt; "{refusal}"),
        }
    }
}

fn main(rt: HostRuntime) -> io::Result<()> {
    let mut file = Vec::new(rt.alloc());
    rt.stdin().read_to_end(&mut file)?;
    list(&rt, file.as_slice())
}
