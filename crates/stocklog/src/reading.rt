// The calls that read a whole log.
ghost use Rattle.std.specs.Prelude.{◌≡◌};
ghost use Rattle.model.specs.Directory.{shape_of};
ghost use Rattle.model.specs.Reading.{check, owed};
ghost use Rattle.codec.specs.Eight.{log_of};
ghost use Rattle.entries.specs.Answers.{owed_in};
ghost use Rattle.answers.specs.Refusals.{checked_in};
ghost use Rattle.stocklog.specs.Replies.{check_reply, owed_reply};
ghost use Rattle.stocklog.specs.Numbers.{numbers_in};

use crate::numbers::{self, NONE, Numbers, Values};
use answers::Refusal;
use codec::names::Offset;

fn of_check(c: Result<(), Refusal>) -> Numbers
    ensures { numbers_in result ≡ check_reply (checked_in c) }
{
    numbers::answered(c, NONE, |()| NONE)
}

// The frame and every entry below the tail.
#[unsafe(no_mangle)]
pub extern "C" fn stocklog_check(dir: &[u8], log: &[u8], tail: usize, out: &mut [u64; 4]) -> u32
    ensures { record { number = result; out = out.new } ≡ check_reply (check (shape_of dir.now) (log_of log.now tail)) }
{
    numbers::put(out, of_check(entries::calls::check(dir, log, tail)))
}

fn of_owed(o: Result<Option<Offset>, Refusal>) -> Numbers
    ensures { numbers_in result ≡ owed_reply (owed_in o) }
{
    numbers::answered(o, NONE, |found| match found {
        Some(q) => Values(1, q.0, 0),
        None => NONE,
    })
}

// 1 and the lowest offset that owes a replica of one of these sets a decision record; or 0.
#[unsafe(no_mangle)]
pub extern "C" fn stocklog_owed(
    dir: &[u8],
    log: &[u8],
    tail: usize,
    sets: &[u64],
    out: &mut [u64; 4],
) -> u32
    ensures { record { number = result; out = out.new } ≡ owed_reply (owed (shape_of dir.now) (log_of log.now tail) sets.now) }
{
    numbers::put(
        out,
        of_owed(entries::owing::lowest_owing(dir, log, tail, sets)),
    )
}
