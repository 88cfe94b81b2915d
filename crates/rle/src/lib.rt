//! The RLE/bit-packed hybrid: what its pages are, what is proved of them, how a run is read, and the bytes of a run.
//!
//! The functions without a body are theorems: each stands in its function's contract, over every width, list and page.
#![tactic(auto)]

mod pieces;
mod runs;

ghost use Rattle.std.specs.Prelude.{◌≡◌, nat_le};
ghost use Rattle.rle.specs.Theorems.{ReadStands, StandingIsRead, WrittenIsRead, WrittenIsShort, WrittenStands};

pub use pieces::{group_bytes, repeated_bytes, value_bytes, vlq_length};
pub use runs::{Found, run_at};

/// Whether the hybrid has a width.
pub fn has_width(width: u32) -> bool
    ensures { result ≡ nat_le width 64 }
{
    width <= 64
}

/// A written page stands, in the public format, for its list and at most seven zeros behind it.
pub fn written_page_stands()
    ensures { WrittenStands }
{}

/// Whatever stands in the public format is read as its values and then the end, and is not refused.
pub fn standing_page_is_read()
    ensures { StandingIsRead }
{}

/// A written page is read as its list, at most seven zeros behind it, and the end.
pub fn written_page_is_read()
    ensures { WrittenIsRead }
{}

/// What is read without a fault stands in the public format, but for the named leniencies.
pub fn read_page_stands()
    ensures { ReadStands }
{}

/// A page takes at most nine bytes for each value, and 63.
pub fn written_page_is_short()
    ensures { WrittenIsShort }
{}
