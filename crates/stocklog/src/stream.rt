// The calls that read an object's stream.
ghost use Rattle.std.specs.Prelude.{◌≡◌};
ghost use Rattle.model.specs.Directory.{shape_of};
ghost use Rattle.model.specs.Reading.{stream_next, stream_list};
ghost use Rattle.codec.specs.Eight.{log_of};
ghost use Rattle.entries.specs.Answers.{next_in};
ghost use Rattle.stocklog.specs.Replies.{next_reply, list_reply};
ghost use Rattle.stocklog.specs.Numbers.{numbers_in};

use crate::numbers::{self, Numbers, Values};
use codec::names::{ObjectId, Offset};
use entries::reader::Next;

fn of_next(n: Next) -> Numbers
    ensures { numbers_in result ≡ next_reply (next_in n) }
{
    let none = Values(0, 0, n.reader.0);
    numbers::answered(n.found, none, |found| match found {
        Some(o) => Values(1, o.0, n.reader.0),
        None => none,
    })
}

// 1, the next entry's offset and the reader after it; or 0, 0 and the tail. Refused: 0, 0 and the reader as it was.
#[unsafe(no_mangle)]
pub extern "C" fn stocklog_stream_next(
    dir: &[u8],
    log: &[u8],
    tail: usize,
    object: u32,
    from: u64,
    out: &mut [u64; 4],
) -> u32
    ensures { record { number = result; out = out.new } ≡ next_reply (stream_next (shape_of dir.now) (log_of log.now tail) object from) }
{
    let n = entries::reader::stream_next(dir, log, tail, ObjectId(object), Offset(from));
    numbers::put(out, of_next(n))
}

// How many offsets the object has; they are at the start of the list.
#[unsafe(no_mangle)]
pub extern "C" fn stocklog_stream_list(
    dir: &[u8],
    log: &[u8],
    tail: usize,
    object: u32,
    list: &mut [u32],
    out: &mut [u64; 4],
) -> u32
    ensures { record { reply = record { number = result; out = out.new }; lent = list.new } ≡ list_reply (stream_list (shape_of dir.now) (log_of log.now tail) object list.old) }
{
    let l = entries::listing::stream_list(dir, log, tail, ObjectId(object), list);
    numbers::put(out, numbers::of_number(l))
}
