//! What hybrid pages mean as a coding of columns.
ghost use Rattle.rle.specs.Reading.{reads as reads_as};
ghost use Rattle.rle.specs.Runs.{page as page_of};
ghost use Rattle.std.specs.Prelude.{length, nat_le};
ghost use Rattle.std.proofs.Common.{leb→le, le_refl};
ghost use Rattle.rle.proofs.PageLaws.{page_is_read};
ghost use Rattle.rle.proofs.Standing.{need-bounded};

use column::Meaning;

/// The coding of columns as RLE/bit-packed hybrid pages.
#[derive(Clone, Copy, Debug, PartialEq, Eq)]
pub struct RlePages;

impl Meaning for RlePages {
    ghost allows = { λ w. nat_le w 64 };

    ghost page = { page_of };

    ghost need = { λ w l. length (page_of w l) };

    ghost reads = { λ w _ s. reads_as w s };

    fn has_width(width: u32) -> bool {
        rle::has_width(width)
    }

    ghost widths_are_narrow = { λ w allowed. leb→le w 64 allowed };

    ghost written_is_read = { λ w l allowed column. page_is_read w l column };

    ghost page_within_need = { λ w l allowed column. le_refl (length (page_of w l)) };

    ghost need_is_bounded = { need-bounded };
}
