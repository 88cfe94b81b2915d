//! Working a whole page: puts, finish, open and takes, with every answer written down.
ghost use Rattle.std.specs.Prelude.{◌≡◌, ◌+◌, ◌≤◌, length, Some};
ghost use Rattle.column.specs.Putting.{putting};
ghost use Rattle.column.specs.Taking.{after_taking};
ghost use Rattle.column.specs.Trips.{after_call, after_calls, patterns};
ghost use Rattle.column.specs.Working.{answer_of, cells_after, cells_by, cut_from, cut_to, decoder_after, put_of, puts_answered, puts_of, taken_from, takes_answered};

use crate::coding::{Decoder, Encoder};
use crate::declined::Declined;
use crate::putting::{PutList, put_list};
use packed::Element;
use std::ops::Range;

/// A call that puts: one value, or a list of them as a part of a slice.
// A part is two numbers, here and below: a `Range` cannot be copied.
#[derive(Clone, Copy, Debug, PartialEq, Eq)]
pub enum PutCall<E> {
    One(E),
    List { from: usize, to: usize },
}

/// A call that takes: one value, values into a part of the cells, or values that are passed over.
#[derive(Clone, Copy, Debug, PartialEq, Eq)]
pub enum TakeCall {
    Get,
    Batch { from: usize, to: usize },
    Skip(usize),
}

/// What a call that takes answered.
#[derive(Clone, Copy, Debug, PartialEq, Eq)]
pub enum TakeAnswer<E> {
    Got(Result<Option<E>, Declined>),
    Took(Result<usize, Declined>),
}

/// A call, and its answer once it is made.
#[derive(Clone, Copy, Debug, PartialEq, Eq)]
pub struct Step<C, A> {
    pub call: C,
    pub answer: Option<A>,
}

impl<C: Copy, A: Copy> Step<C, A> {
    // Writes the answer down.
    fn set_answer(&mut self, answer: A)
        ensures { self.new ≡ record { call = self.old.call; answer = Some answer } }
    {
        self.answer = Some(answer);
    }
}

/// A call that puts, and how many of its values were accepted and why the next was not.
pub type Put<E> = Step<PutCall<E>, PutList>;

/// A call that takes, and its answer.
pub type Take<E> = Step<TakeCall, TakeAnswer<E>>;

// Makes the calls, one after another, and answers how many values were accepted.
pub(crate) fn put_all<'a, N: Encoder<'a>, E: Element>(
    encoder: &mut N,
    values: &[E],
    puts: &mut [Put<E>],
) -> usize
    requires { length (N.state encoder.old).accepted ≤ 2147483647 }
    ensures answers { puts.new
        ≡ puts_answered E.Element values.now N.Code.need (N.state encoder.old) puts.old }
    ensures state { N.state encoder.new
        ≡ after_calls N.Code.need (N.state encoder.old) (puts_of E.Element values.now puts.old) }
    ensures count { length (N.state encoder.old).accepted + result
        ≡ length (N.state encoder.new).accepted }
{
    let mut count: usize = 0;
    for put in puts.iter_mut() {
        let answer = put_call(encoder, values, put.call);
        count += answer.count;
        put.set_answer(answer);
    }
    count
}

fn put_call<'a, N: Encoder<'a>, E: Element>(
    encoder: &mut N,
    values: &[E],
    call: PutCall<E>,
) -> PutList
    ensures answer { result
        ≡ putting N.Code.need (N.state encoder.old) (patterns (put_of E.Element values.now call)) }
    ensures state { N.state encoder.new
        ≡ after_call N.Code.need (N.state encoder.old) (put_of E.Element values.now call) }
{
    match call {
        PutCall::One(v) => PutList::from(encoder.put(v)),
        PutCall::List { from, to } => put_list(encoder, &values[cut(from, to, values.len())]),
    }
}

// A part of a slice of `len`, cut to it.
fn cut(from: usize, to: usize, len: usize) -> Range<usize>
    ensures start { result.start ≡ cut_from from len }
    ensures end { result.end ≡ cut_to from to len }
    ensures in_order { result.start ≤ result.end }
    ensures inside { result.end ≤ len }
{
    let start = from.min(len);
    start..to.min(len).max(start)
}

// Makes the calls, one after another.
pub(crate) fn take_all<D: Decoder, E: Element>(
    decoder: &mut D,
    cells: &mut [E],
    takes: &mut [Take<E>],
)
    ensures answers { takes.new
        ≡ takes_answered E.Element (length cells.old) (D.state decoder.old) takes.old }
    ensures cells { cells.new
        ≡ cells_after E.Element (length cells.old) (D.state decoder.old) cells.old takes.old }
    ensures state { D.state decoder.new
        ≡ decoder_after E.Element (length cells.old) (D.state decoder.old) takes.old }
{
    for take in takes.iter_mut() {
        let answer = take_call(decoder, cells, take.call);
        take.set_answer(answer);
    }
}

fn take_call<D: Decoder, E: Element>(
    decoder: &mut D,
    cells: &mut [E],
    call: TakeCall,
) -> TakeAnswer<E>
    ensures answer { result
        ≡ answer_of E.Element call (taken_from E.Element (length cells.old) (D.state decoder.old) call) }
    ensures cells { cells.new
        ≡ cells_by E.Element cells.old call (taken_from E.Element (length cells.old) (D.state decoder.old) call) }
    ensures state { D.state decoder.new
        ≡ after_taking (taken_from E.Element (length cells.old) (D.state decoder.old) call) (D.state decoder.old) }
    ensures length { length cells.new ≡ length cells.old }
{
    match call {
        TakeCall::Get => TakeAnswer::Got(decoder.get()),
        TakeCall::Batch { from, to } => {
            let part = cut(from, to, cells.len());
            TakeAnswer::Took(decoder.get_batch(&mut cells[part]))
        }
        TakeCall::Skip(count) => TakeAnswer::Took(decoder.skip(count)),
    }
}
