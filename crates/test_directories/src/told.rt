// What a case tells beside its directory and its log.
#[derive(Clone, Copy)]
pub struct Told {
    pub tail: u32,
    pub hosted: u64,
    pub object: u32,
    pub key: u32,
}

// It has so many bytes.
pub const SIZE: usize = 20;
// The bytes of a table, room for four cells.
pub const TABLE_SIZE: usize = 96;
