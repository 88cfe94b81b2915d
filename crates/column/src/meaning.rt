//! What the pages of a coding mean.
ghost use Rattle.std.specs.Prelude.{◌≡◌, ℕ, ◌+◌, ◌*◌, ◌≤◌, Bool, T, List, length};
ghost use Rattle.column.specs.Pages.{Reading, opened, with_zeros};
ghost use Rattle.column.specs.Putting.{Column};

/// What the pages of a coding mean, at each width that it has.
///
/// It is a trait of its own, on a type that holds nothing, and no part of `Coding`: an encoder's clauses name it too, and an
/// encoder knows no coding.
pub trait Meaning {
    /// The widths that the coding has.
    ghost allows: { ℕ → Bool };

    /// The page that a list of patterns writes.
    ghost page: { ℕ → List ℕ → List ℕ };

    /// How many bytes a buffer must have for a list.
    ghost need: { ℕ → List ℕ → ℕ };

    /// What a page reads as, given how many values it holds.
    ghost reads: { ℕ → ℕ → List ℕ → Reading };

    /// Whether the coding has a width.
    fn has_width(width: u32) -> bool
        ensures { result ≡ allows width };

    /// No width is above 64.
    ghost widths_are_narrow: { (w : ℕ) → T (allows w) → w ≤ 64 };

    /// A written page reads as its list, at most seven zeros behind it, and the end.
    ghost written_is_read: { (w : ℕ) (l : List ℕ) → T (allows w) → Column w l
        → (k : ℕ) × (k ≤ 7) × (reads w (length l) (page w l) ≡ opened (with_zeros l k)) };

    /// A page is no longer than its list needs.
    ghost page_within_need: { (w : ℕ) (l : List ℕ) → T (allows w) → Column w l
        → length (page w l) ≤ need w l };

    /// What a list needs is bounded by its length.
    ghost need_is_bounded: { (w : ℕ) (l : List ℕ) → T (allows w) → Column w l
        → need w l ≤ 2080 + 9 * length l };
}
