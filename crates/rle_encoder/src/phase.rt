//! What an encoder is at, between two values.

/// Where the values go that are in no written run yet.
#[derive(Debug, Clone, Copy, PartialEq, Eq)]
pub enum Phase {
    /// they are collected, with no packed run open
    Gathering,
    /// they are collected behind an open packed run of so many groups, whose header goes to `header`
    Packing { header: usize, groups: usize },
    /// they are one value that repeats
    Repeating { count: usize },
}
