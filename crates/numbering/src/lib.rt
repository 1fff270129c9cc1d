// A number for each cell of a directory, by object and then by key, so that what is kept for cells can be kept in an array.
#![tactic(auto)]

pub mod bases;
