// The directory of the eight objects, made from their table.
ghost use Rattle.std.specs.Prelude.{◌≡◌, ◌*◌, ◌<◌, length};
ghost use Rattle.lists.specs.Splice.{splice};
ghost use Rattle.model.specs.Objects.{the_objects};
ghost use Rattle.model.specs.Directory.{record_size, marked_byte, record_bytes, directory_of};
ghost use Rattle.directory.specs.Eight.{RecordToPut, object_in};

use crate::layout::{
    HIGHEST_BEGINS, ID_BEGINS, KIND_BEGINS, LAST_BEGINS, MARK_OBJECT, MARKED, MARKED_BEGINS,
    RECORD_SIZE, ZEROS_BEGIN,
};
use codec::objects::{OBJECTS, Object};

// How many objects there are.
const EIGHT: usize = 8;

// The byte of a mark.
fn marked_byte(marked: bool) -> u32
    ensures { (result ≡ marked_byte marked) × (result < 256) }
{
    if marked {
        return MARKED;
    }
    0
}

// Stores the record of an object, whose kind is one of the two, from byte i on.
fn put_record(d: &mut [u8], i: usize, b: Object)
    requires { RecordToPut d.old i b }
    ensures { d.new ≡ splice d.old i (record_bytes (object_in b)) }
{
    let marked = marked_byte(b.marked);
    codec::bytes::put16(d, i, MARK_OBJECT);
    codec::bytes::put16(d, i + ZEROS_BEGIN, 0);
    codec::bytes::put32(d, i + ID_BEGINS, b.id);
    codec::bytes::put32(d, i + HIGHEST_BEGINS, b.highest);
    codec::bytes::put8(d, i + KIND_BEGINS, b.kind as u32);
    codec::bytes::put8(d, i + MARKED_BEGINS, marked);
    codec::bytes::put16(d, i + LAST_BEGINS, 0);
}

// Fills d with the directory of the eight objects.
pub fn write_eight(d: &mut [u8])
    requires { length d.old ≡ record_size * length the_objects }
    ensures { d.new ≡ directory_of the_objects }
{
    for k in 0..EIGHT {
        put_record(d, RECORD_SIZE * k, OBJECTS[k]);
    }
}
