// A replica's table: rows that ascend by object, then key. While a call plays, new rows are kept in a run of their own.
#![tactic(auto)]

pub mod moves;
pub mod order;
pub mod radix;
pub mod rows;
pub mod runs;
pub mod seek;
pub mod sorting;
