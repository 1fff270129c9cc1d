// The constant table of the eight objects, read by place.
// id, kind (1 map, 2 register), highest key, mark (1 or 0)
#[derive(Clone, Copy)]
pub struct Object {
    pub id: u32,
    pub kind: u8,
    pub highest: u32,
    pub marked: bool,
}

pub const OBJECTS: [Object; 8] = [
    Object {
        id: 1,
        kind: 1,
        highest: 9999,
        marked: true,
    },
    Object {
        id: 2,
        kind: 1,
        highest: 499,
        marked: false,
    },
    Object {
        id: 3,
        kind: 1,
        highest: 499,
        marked: true,
    },
    Object {
        id: 4,
        kind: 1,
        highest: 499,
        marked: true,
    },
    Object {
        id: 5,
        kind: 1,
        highest: 9999,
        marked: false,
    },
    Object {
        id: 6,
        kind: 2,
        highest: 0,
        marked: true,
    },
    Object {
        id: 7,
        kind: 2,
        highest: 0,
        marked: false,
    },
    Object {
        id: 8,
        kind: 2,
        highest: 0,
        marked: false,
    },
];
