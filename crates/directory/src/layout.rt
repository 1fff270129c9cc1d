// The sizes and places of a directory's record (1.9, 1.10), as the model has them.
pub const RECORD_SIZE: usize = 16;

pub const MOST_RECORDS: usize = 64;
// The mark of a record, its first two bytes as one number.
pub const MARK_OBJECT: u32 = 0x4F42;

pub const ZEROS_BEGIN: usize = 2;

pub const ID_BEGINS: usize = 4;

pub const HIGHEST_BEGINS: usize = 8;

pub const KIND_BEGINS: usize = 12;

pub const MARKED_BEGINS: usize = 13;

pub const LAST_BEGINS: usize = 14;
// The two kinds, and the mark of a marked object.
pub const MAP: u32 = 1;

pub const REGISTER: u32 = 2;

pub const MARKED: u32 = 1;
// An id and a map's highest key are below these.
pub const IDS_END: u32 = 2147483648;

pub const KEYS_END: u32 = 4294967295;
