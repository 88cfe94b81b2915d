//! What was checked before an encoder is made.
ghost use Rattle.std.specs.Prelude.{ℕ};

/// A width and a buffer's length that an encoder can be made for.
pub trait Pass {
    ghost width: { Self → ℕ };

    ghost room: { Self → ℕ };
}
