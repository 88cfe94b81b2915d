//! Tries the RLE coding on a table of cases: each line of the standard input is a case, and is answered on the standard
//! output. Blank lines and lines that begin with `#` are skipped. `tools/rle_cases.py` says what the lines mean.
#![tactic(auto)]

mod reading;
mod sweeping;
mod words;
mod writing;

use std::alloc::Global;
use std::io;
use words::LineError;

// `bitcases` goes over its lines like this too: these few are no crate.
fn main(rt: HostRuntime) -> io::Result<()> {
    let heap = rt.alloc();
    let text = io::read_to_string(heap, rt.stdin())?;
    for line in text.lines() {
        if line.is_empty() || line.starts_with('#') {
            continue;
        }
        match answer(heap, line) {
            Ok(answer) => println!(rt; "{answer}")?,
            Err(error) => println!(rt; "? {error}")?,
        }
    }
    Ok(())
}

fn answer(heap: Global, line: &str) -> Result<String, LineError> {
    let mut words = line.split_whitespace();
    match words.next() {
        Some("write") => writing::answer(heap, words),
        Some("read") => reading::answer(heap, words),
        Some("sweep") => sweeping::answer(heap, words),
        _ => Err(LineError::NotUnderstood),
    }
}
