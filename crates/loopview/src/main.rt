//! Packs the readings of a detector loop into columns of bytes, and reads them back.
#![tactic(auto)]

ghost use Rattle.loopview.specs.Flags.{Spells};

mod columns;
mod readings;
mod report;

use columns::Columns;
use report::{Extent, Table};
use std::process::ExitCode;
use std::str::FromStr;
use std::{env, io};
use thiserror::Error;

const USAGE: &str = "\
usage: loopview [--all] < READINGS

Packs the readings of a detector loop into three columns of bytes, reads them
back from those bytes alone, and says how many came back equal. Each line of
the input is one reading:
  address,value,tick    address 0 to 127, value 0 to 255, tick in milliseconds
Blank lines and lines that begin with # are skipped.

The columns are the addresses at 7 bits each, the values at 8 bits each, and
each tick's difference to the tick before it as a zigzag VLQ. It prints how
many bytes each column takes and the first of them in hexadecimal, then the
table of the readings as they were read back, and how many are equal.

  --all     show every row of the table, and not only its first and last ones
  --help    print this text
";

/// What the words of the command line ask for.
#[derive(Clone, Copy, Debug, PartialEq, Eq)]
enum Request {
    Help,
    Show(Extent),
}

/// A word of the command line that the program does not know.
#[derive(Debug, PartialEq, Eq, Drop, Error)]
#[error("unknown word {0:?}: see loopview --help")]
struct UnknownWord(String);

/// A word that the command line may hold.
#[derive(Clone, Copy, Debug, PartialEq, Eq)]
enum Flag {
    All,
    Help,
}

/// A word that spells no flag.
#[derive(Clone, Copy, Debug, PartialEq, Eq)]
struct NoFlag;

impl FromStr for Flag {
    type Err = NoFlag;

    ghost from_str_gives = { Spells };

    fn from_str(word: &str) -> Result<Flag, NoFlag> {
        match word {
            "--all" => Ok(Flag::All),
            "--help" => Ok(Flag::Help),
            _ => Err(NoFlag),
        }
    }
}

impl Request {
    /// What `words`, those after the program's name, ask for.
    fn from_words(words: env::Args) -> Result<Request, UnknownWord> {
        let mut extent = Extent::Ends;
        for word in words {
            match word
                .as_str()
                .parse()
                .map_err(|_: NoFlag| UnknownWord(word))?
            {
                Flag::Help => return Ok(Request::Help),
                Flag::All => extent = Extent::Every,
            }
        }
        Ok(Request::Show(extent))
    }
}

/// Packs the readings that the standard input holds, reads them back, and shows both.
fn show(rt: &HostRuntime, extent: Extent) -> anyhow::Result<()> {
    let heap = rt.alloc();
    let text = io::read_to_string(heap, rt.stdin())?;
    let readings = readings::parse(heap, text.as_str())?;
    if readings.is_empty() {
        println!(rt; "no readings: nothing to pack")?;
        return Ok(());
    }
    let columns = Columns::pack(heap, readings.as_slice())?;
    print!(rt; "{columns}")?;
    let back = columns.read_back(heap)?;
    rt.print(Table::new(back.as_slice(), extent))?;
    let count = readings.len();
    let equal = columns::count_equal(readings.as_slice(), back.as_slice());
    println!(rt; "{equal} of {count} readings came back equal")?;
    Ok(())
}

/// Does what the words of the command line ask for.
fn run(rt: &HostRuntime) -> anyhow::Result<()> {
    let mut words = env::args(rt)?;
    let _program = words.next();
    match Request::from_words(words)? {
        Request::Help => rt.print(USAGE)?,
        Request::Show(extent) => show(rt, extent)?,
    }
    Ok(())
}

fn main(rt: HostRuntime) -> ExitCode {
    let Err(fault) = run(&rt) else {
        return ExitCode::SUCCESS;
    };
    let _ = eprintln!(rt; "loopview: {fault}");
    ExitCode::FAILURE
}
