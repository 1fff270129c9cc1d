// The leaves: integers in bytes, a type for each kind of number, marks, header words, what a cell holds, the table of the eight objects.
#![tactic(auto)]

pub mod bytes;
pub mod cells;
pub mod layout;
pub mod marks;
pub mod names;
pub mod objects;
pub mod words;
