// The answers other than done (13.3), as one enum that every call answers with.
#![tactic(auto)]

ghost use Rattle.std.specs.Prelude.{◌≡◌};
ghost use Rattle.model.specs.Answers.{answer, bad_directory};
ghost use Rattle.model.specs.Directory.{shape_of};
ghost use Rattle.codec.specs.Options.{option_in};
ghost use Rattle.answers.specs.Refusals.{refusal_in, checked_in};

use codec::names::Offset;

#[derive(Clone, Copy, Debug, PartialEq, Eq)]
pub enum Refusal {
    Frame,
    BadEntry(Offset),
    Request,
    Closed,
    Wide,
    Empty,
    NoCommit,
    Decided,
    Full,
    BadReplica,
    FalseRecord(Offset),
    Waiting,
    NoRoom,
    NoRoomAt(Offset),
    Behind,
    Directory(u64),
    Astray(u64),
    NoPrice(u32),
}

// The number of a refusal in the table.
pub fn number_of(r: Refusal) -> u32
    ensures { result ≡ (refusal_in r).number }
{
    match r {
        Refusal::Frame => 1,
        Refusal::BadEntry(_) => 2,
        Refusal::Request => 3,
        Refusal::Closed => 4,
        Refusal::Wide => 5,
        Refusal::Empty => 6,
        Refusal::NoCommit => 7,
        Refusal::Decided => 8,
        Refusal::Full => 9,
        Refusal::BadReplica => 10,
        Refusal::FalseRecord(_) => 11,
        Refusal::Waiting => 12,
        Refusal::NoRoom => 13,
        Refusal::NoRoomAt(_) => 13,
        Refusal::Behind => 14,
        Refusal::Directory(_) => 15,
        Refusal::Astray(_) => 16,
        Refusal::NoPrice(_) => 19,
    }
}

// What a refusal tells beside its number, if it tells anything.
pub fn told_of(r: Refusal) -> Option<u64>
    ensures { option_in result ≡ (refusal_in r).told }
{
    match r {
        Refusal::Frame => None,
        Refusal::BadEntry(o) => Some(o.0),
        Refusal::Request => None,
        Refusal::Closed => None,
        Refusal::Wide => None,
        Refusal::Empty => None,
        Refusal::NoCommit => None,
        Refusal::Decided => None,
        Refusal::Full => None,
        Refusal::BadReplica => None,
        Refusal::FalseRecord(o) => Some(o.0),
        Refusal::Waiting => None,
        Refusal::NoRoom => None,
        Refusal::NoRoomAt(o) => Some(o.0),
        Refusal::Behind => None,
        Refusal::Directory(k) => Some(k),
        Refusal::Astray(k) => Some(k),
        Refusal::NoPrice(k) => Some(k as u64),
    }
}

// The directory is within its rules; else the first place at fault.
pub fn directed(dir: &[u8]) -> Result<(), Refusal>
    ensures { checked_in result ≡ answer (bad_directory (shape_of dir.now)) tt }
{
    match directory::faults::fault(dir) {
        None => Ok(()),
        Some(k) => Err(Refusal::Directory(k)),
    }
}
