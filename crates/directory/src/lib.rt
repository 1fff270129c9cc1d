// The directory that is handed to a call, read where it lies: the first place at fault, the objects by their place, and sets of 64 bits.
#![tactic(auto)]

pub mod eight;
pub mod faults;
pub mod layout;
pub mod maps;
pub mod objects;
pub mod places;
pub mod sets;
