// The calls that read one entry: its fields, one of its headers, where its items lie.
ghost use Rattle.std.specs.Prelude.{◌≡◌};
ghost use Rattle.model.specs.Directory.{shape_of};
ghost use Rattle.model.specs.Reading.{entry_call, item_list};
ghost use Rattle.codec.specs.Eight.{log_of};
ghost use Rattle.answers.specs.Refusals.{answer_by};
ghost use Rattle.entries.specs.Answers.{header_from, info_of, found_in};
ghost use Rattle.stocklog.specs.Replies.{coded, no_values, info_values, more_told, entry_reply, nth, header_call, header_reply, items_reply, part_said};
ghost use Rattle.stocklog.specs.Numbers.{values_in, numbers_in};

use crate::numbers::{self, NONE, Numbers, Values};
use answers::Refusal;
use codec::layout::{ITEM_SIZE, ITEMS_BEGIN, SLOT_SIZE};
use codec::names::{ObjectId, Offset};
use entries::calls::Info;
use slot::fields::Header;

const NO_HEADER: Header = Header {
    object: ObjectId(0),
    format: 0,
    pointer: 0,
};

#[tactic(auto, using(crate::specs::Entry::info_said))]
fn of_info(i: Info) -> Values
    ensures { values_in result ≡ info_values (info_of i) }
{
    Values(i.kind.number(), u64::from(i.number.0), u64::from(i.headers))
}

fn of_entry(f: Result<Info, Refusal>) -> Numbers
    ensures { numbers_in result ≡ coded info_values no_values (found_in f) }
{
    numbers::answered(f, NONE, of_info)
}

// How many items, and the two numbers that it names; zeros where it is refused.
fn more_of(f: Result<Info, Refusal>) -> Values
    ensures { values_in result ≡ more_told (found_in f) }
{
    match f {
        Ok(i) => Values(
            u64::from(i.items),
            u64::from(i.names.0),
            u64::from(i.names.1),
        ),
        Err(_) => NONE,
    }
}

// Kind, number and how many headers; from the fifth place on how many items, and the numbers that it names.
#[unsafe(no_mangle)]
pub extern "C" fn stocklog_entry(
    dir: &[u8],
    log: &[u8],
    tail: usize,
    offset: u64,
    out: &mut [u64; 8],
) -> u32
    ensures { record { number = result; out = out.new } ≡ entry_reply (entry_call (shape_of dir.now) (log_of log.now tail) offset) }
{
    let f = entries::calls::entry(dir, log, tail, Offset(offset));
    numbers::put_eight(out, of_entry(f), more_of(f))
}

// One of the headers by its place, or 3. No entry has a fifth: it would be zero.
fn placed(i: Info, place: u32) -> Result<Header, Refusal>
    ensures { answer_by header_from result ≡ nth (info_of i).headers place }
{
    if i.headers <= place {
        return Err(Refusal::Request);
    }
    Ok(match place {
        0 => i.first,
        1 => i.second,
        2 => i.third,
        3 => i.fourth,
        _ => NO_HEADER,
    })
}

fn of_header(h: Result<Header, Refusal>) -> Numbers
    ensures { numbers_in result ≡ header_reply (answer_by header_from h) }
{
    numbers::answered(h, NONE, |h| {
        Values(u64::from(h.object.0), u64::from(h.format), h.pointer)
    })
}

// Object, format and the 8 bytes of a header by its place.
#[tactic(auto, unfolding(crate::specs::Replies::header_call))]
#[unsafe(no_mangle)]
pub extern "C" fn stocklog_header(
    dir: &[u8],
    log: &[u8],
    tail: usize,
    offset: u64,
    place: u32,
    out: &mut [u64; 4],
) -> u32
    ensures { record { number = result; out = out.new } ≡ header_reply (header_call (shape_of dir.now) (log_of log.now tail) offset place) }
{
    let h = entries::calls::entry(dir, log, tail, Offset(offset)).and_then(|i| placed(i, place));
    numbers::put(out, of_header(h))
}

// The sizes and the place by which an item list lies in the log, as numbers of 64 bits.
const SLOT: u64 = SLOT_SIZE as u64;

const ITEMS: u64 = ITEMS_BEGIN as u64;

const ITEM: u64 = ITEM_SIZE as u64;

// Where the items lie in the log: byte position and length. That part of the log's own bytes is the item list.
#[unsafe(no_mangle)]
pub extern "C" fn stocklog_items(
    dir: &[u8],
    log: &[u8],
    tail: usize,
    offset: u64,
    out: &mut [u64; 4],
) -> u32
    ensures out_after { record { number = result; out = out.new } ≡ items_reply offset (entry_call (shape_of dir.now) (log_of log.now tail) offset) }
    ensures log_after { part_said (record { number = result; out = out.new }) log.now ≡ item_list (shape_of dir.now) (log_of log.now tail) offset }
{
    let f = entries::calls::entry(dir, log, tail, Offset(offset));
    let n = numbers::answered(f, NONE, |i| {
        Values(SLOT * offset + ITEMS, ITEM * u64::from(i.items), 0)
    });
    numbers::put(out, n)
}
