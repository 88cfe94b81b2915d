//! Tries the bit layer on a table of cases: each line of the standard input is a case, and is answered on a line of the
//! standard output. Blank lines and lines that begin with `#` are skipped.
#![tactic(auto)]

mod answers;
mod cases;
mod trials;

use std::io;

// `rlecases` goes over its lines like this too: these few are no crate.
fn main(rt: HostRuntime) -> io::Result<()> {
    let heap = rt.alloc();
    let text = io::read_to_string(heap, rt.stdin())?;
    for line in text.lines() {
        if line.is_empty() || line.starts_with('#') {
            continue;
        }
        match trials::answer(heap, line) {
            Ok(answer) => println!(rt; "{answer}")?,
            Err(refusal) => println!(rt; "? {refusal}")?,
        }
    }
    Ok(())
}
