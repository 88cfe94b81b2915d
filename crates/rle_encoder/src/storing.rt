//! Writing to an encoder's buffer.
ghost use Rattle.std.specs.Prelude.{◌≡◌, ◌+◌, ◌≤◌, length, take};
ghost use Rattle.packed.specs.Bytes.{overwrite};
ghost use Rattle.rle_encoder.specs.Encoder.{Unmoved, front, room};

use crate::adding::header_of;
use crate::{Phase, RleEncoder};

impl<'a> RleEncoder<'a> {
    // Bytes from a place on that is behind those that are written, and the place behind them.
    pub(crate) fn store(&mut self, at: usize, bytes: &[u8]) -> usize
        requires behind { self.old.progress.written ≤ at }
        requires fits { at + length bytes.now ≤ room self.old }
        ensures bytes { self.new.out.now ≡ overwrite self.old.out.now at bytes.now }
        ensures unmoved { Unmoved self.old self.new }
        ensures end { result ≡ at + length bytes.now }
    {
        write_bytes(self.out, at, bytes)
    }

    // The header of a packed run that is open, which ends here: the buffer then has all bytes that are written.
    pub(crate) fn write_header(&mut self)
        ensures front { take self.old.progress.written self.new.out.now ≡ front self.old }
        ensures unmoved { Unmoved self.old self.new }
    {
        if let Phase::Packing { header, groups } = self.progress.phase {
            self.out[header] = header_of(groups);
        }
    }
}

// Bytes over those from a place on, and the place behind them. What an encoder keeps is said of its whole buffer.
pub(crate) fn write_bytes(out: &mut [u8], at: usize, bytes: &[u8]) -> usize
    requires { at + length bytes.now ≤ length out.old }
    ensures bytes { out.new ≡ overwrite out.old at bytes.now }
    ensures end { result ≡ at + length bytes.now }
{
    let end = at + bytes.len();
    out[at..end].copy_from_slice(bytes);
    end
}
