//! What the table is answered with.
use bits::Fault;
use std::fmt;
use std::fmt::Display;

/// What a call of `read_vlq` gave: a number and how many bytes it took, or a fault.
#[derive(Clone, Copy, Debug, PartialEq, Eq)]
pub struct VlqRead {
    pub outcome: Result<(u64, usize), Fault>,
}

impl fmt::Display for VlqRead {
    fn fmt<W: fmt::Write>(&self, f: &mut fmt::Formatter<W>) -> fmt::Result {
        match self.outcome {
            Ok((value, taken)) => write!(f, "{value} in {taken}"),
            Err(fault) => write!(f, "{fault}, layer {}", fault.layer()),
        }
    }
}

/// The answer to a case.
#[derive(Debug, PartialEq, Eq, Drop)]
pub enum Answer {
    Vlq {
        bytes: Vec<u8>,
        read: VlqRead,
    },
    Read(VlqRead),
    Zigzag {
        zigzag: u64,
        back: i64,
    },
    Packed {
        bytes: Vec<u8>,
        values: Vec<u64>,
    },
    Batch {
        count: usize,
        cells: Vec<u64>,
        next: usize,
    },
    /// two ways to read one batch gave different values
    Differs,
}

impl fmt::Display for Answer {
    fn fmt<W: fmt::Write>(&self, f: &mut fmt::Formatter<W>) -> fmt::Result {
        match self {
            Answer::Vlq { bytes, read } => {
                write_hex(f, bytes.as_slice())?;
                write!(f, " {read}")
            }
            Answer::Read(read) => read.fmt(f),
            Answer::Zigzag { zigzag, back } => write!(f, "{zigzag} -> {back}"),
            Answer::Packed { bytes, values } => {
                write_hex(f, bytes.as_slice())?;
                write_values(f, values.as_slice())
            }
            Answer::Batch { count, cells, next } => {
                write!(f, "{count}:")?;
                write_values(f, cells.as_slice())?;
                write!(f, " next {next}")
            }
            Answer::Differs => f.write_str("differs"),
        }
    }
}

// Bytes in hexadecimal, and an arrow to what was read of them.
fn write_hex<W: fmt::Write>(f: &mut fmt::Formatter<W>, bytes: &[u8]) -> fmt::Result {
    for byte in bytes {
        write!(f, "{byte:02X} ")?;
    }
    f.write_str(if bytes.is_empty() { "- ->" } else { "->" })
}

// A space and a value, for each.
fn write_values<W: fmt::Write>(f: &mut fmt::Formatter<W>, values: &[u64]) -> fmt::Result {
    for value in values {
        write!(f, " {value}")?;
    }
    Ok(())
}
