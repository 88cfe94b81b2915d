//! What an encoder holds beside its buffer.
ghost use Rattle.std.specs.Prelude.{◌≡◌, ◌<◌};
ghost use Rattle.arrayvec.specs.ArrayVec.{array_vec_len};
ghost use Rattle.rle_encoder.specs.Encoding.{alike_with, collected, equals, grouped, nothing};
ghost use Rattle.rle_encoder.specs.Extending.{or_zero};

use crate::Phase;
use arrayvec::ArrayVec;

/// How far a page is written, and the values that are in no written run yet.
#[derive(Debug, PartialEq, Eq, Drop)]
pub(crate) struct Progress {
    pub(crate) width: usize,
    // how many values were accepted
    pub(crate) length: usize,
    // how many bytes of complete runs and groups stand at the buffer's front
    pub(crate) written: usize,
    pub(crate) phase: Phase,
    // the value that repeats, or that all collected values have
    pub(crate) same: Option<u64>,
    // the values that are collected: an eighth makes a group or a run of them
    pub(crate) gathered: ArrayVec<u64, 7>,
}

impl Progress {
    pub(crate) fn new(width: usize) -> Progress
        ensures { result ≡ nothing width }
    {
        Progress {
            width,
            length: 0,
            written: 0,
            phase: Phase::Gathering,
            same: None,
            gathered: ArrayVec::new(),
        }
    }

    // The value that repeats, or that all collected values have; no caller has none, and 0 stands for it.
    pub(crate) fn current(&self) -> u64
        ensures { result ≡ or_zero self.now.same }
    {
        self.same.unwrap_or(0)
    }

    pub(crate) fn is_current(&self, value: u64) -> bool
        ensures { result ≡ equals self.now.same value }
    {
        self.same == Some(value)
    }

    // Whether the values that are collected are all equal with one more, which is the current one or not.
    pub(crate) fn alike_with(&self, same: bool) -> bool
        ensures { result ≡ alike_with (array_vec_len self.now.gathered) same }
    {
        self.gathered.is_empty() || same
    }

    // One value more of a group that is not full.
    pub(crate) fn collect(&mut self, value: u64, alike: bool)
        requires few { array_vec_len self.old.gathered < 7 }
        requires short { self.old.length < 2147483647 }
        ensures { self.new ≡ collected self.old value alike }
    {
        self.length += 1;
        self.same = alike.then_some(value);
        self.gathered.push(value);
    }

    // One value more, which makes a group of those that are collected.
    pub(crate) fn close_group(&mut self, phase: Phase, same: Option<u64>)
        requires { self.old.length < 2147483647 }
        ensures { self.new ≡ grouped self.old phase same }
    {
        self.length += 1;
        self.phase = phase;
        self.same = same;
        self.gathered.clear();
    }
}
