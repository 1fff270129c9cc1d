// An answer as five numbers: the one returned, the three values of `out`, and what a refusal tells or 0.
ghost use Rattle.std.specs.Prelude.{◌≡◌, IfOk, MatchResult};
ghost use Rattle.answers.specs.Refusals.{refusal_in};
ghost use Rattle.append.specs.Answers.{tail_in};
ghost use Rattle.entries.specs.Answers.{count_in};
ghost use Rattle.stocklog.specs.Replies.{reply, or_zero, longer, number_reply};
ghost use Rattle.stocklog.specs.Numbers.{values_in, numbers_in};

use answers::Refusal;

// The three values of `out`.
#[derive(Clone, Copy)]
pub struct Values(pub u64, pub u64, pub u64);

pub const NONE: Values = Values(0, 0, 0);

#[derive(Clone, Copy)]
pub struct Numbers {
    pub number: u32,
    pub values: Values,
    pub told: u64,
}

// An answer done with the values that are said of it, or a refusal with those beside it.
pub fn answered<T: Copy, F: FnOnce(T) -> Values>(
    a: Result<T, Refusal>,
    beside: Values,
    said: F,
) -> Numbers
    requires { IfOk a (λ t. F.pre said t) }
    ensures { MatchResult a
        (λ t. (v : _) × F.post said t v × (numbers_in result ≡ reply 0 (values_in v) 0))
        (λ r. numbers_in result ≡ reply (refusal_in r).number (values_in beside) (or_zero (refusal_in r).told)) }
{
    match a {
        Ok(t) => Numbers {
            number: 0,
            values: said(t),
            told: 0,
        },
        Err(r) => Numbers {
            number: answers::number_of(r),
            values: beside,
            told: answers::told_of(r).unwrap_or(0),
        },
    }
}

// A number: the new tail of an append, or how many offsets are listed.
pub fn of_number(a: Result<usize, Refusal>) -> Numbers
    ensures appended { numbers_in result ≡ number_reply (tail_in a) }
    ensures listed { numbers_in result ≡ number_reply (count_in a) }
{
    answered(a, NONE, |n| Values(n as u64, 0, 0))
}

// Writes `out` whole, and answers the number to return.
pub fn put(out: &mut [u64; 4], n: Numbers) -> u32
    ensures { record { number = result; out = out.new } ≡ numbers_in n }
{
    *out = [n.values.0, n.values.1, n.values.2, n.told];
    n.number
}

// The same for the eight places of the entry call.
pub fn put_eight(out: &mut [u64; 8], n: Numbers, more: Values) -> u32
    ensures { record { number = result; out = out.new } ≡ longer (numbers_in n) (values_in more) }
{
    *out = [
        n.values.0, n.values.1, n.values.2, n.told, more.0, more.1, more.2, 0,
    ];
    n.number
}
