//! Putting values into a page.
ghost use Rattle.column.specs.Putting.{as_list, putting};
ghost use Rattle.column.specs.States.{with_more};
ghost use Rattle.std.specs.Prelude.{◌≡◌, map, take};

use crate::Refusal;
use crate::coding::Encoder;
use packed::Element;

/// How many values of a list were accepted, and why the next was not.
#[derive(Clone, Copy, Debug, PartialEq, Eq)]
pub struct PutList {
    pub count: usize,
    pub refusal: Option<Refusal>,
}

/// The answer to a put of one value, as that to a list of it.
impl From<Result<(), Refusal>> for PutList {
    ghost from_gives = { λ answer list. list ≡ as_list answer };

    fn from(answer: Result<(), Refusal>) -> PutList {
        PutList {
            count: usize::from(answer.is_ok()),
            refusal: answer.err(),
        }
    }
}

/// Puts values one after another, and leaves off at the first that is refused.
pub fn put_list<'a, N: Encoder<'a>, E: Element>(encoder: &mut N, values: &[E]) -> PutList
    ensures answer { result ≡ putting N.Code.need (N.state encoder.old) (map E.pattern values.now) }
    ensures state { N.state encoder.new
        ≡ with_more (N.state encoder.old) (take result.count (map E.pattern values.now)) }
{
    put_each(encoder, values)
}

// The values with their index, up to the first that is refused: apart from the public call, where a wrong
// argument so errs at its contract.
fn put_each<'a, N: Encoder<'a>, E: Element>(encoder: &mut N, values: &[E]) -> PutList
    ensures answer { result ≡ putting N.Code.need (N.state encoder.old) (map E.pattern values.now) }
    ensures state { N.state encoder.new
        ≡ with_more (N.state encoder.old) (take result.count (map E.pattern values.now)) }
{
    for (i, v) in values.iter().enumerate() {
        if let Err(refusal) = encoder.put(*v) {
            return PutList {
                count: i,
                refusal: Some(refusal),
            };
        }
    }
    PutList {
        count: values.len(),
        refusal: None,
    }
}
