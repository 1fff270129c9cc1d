// What an order costs: the price of one map of a replica, by a list of price records. Rows and prices ascend by key, so both are walked once.
#![tactic(auto)]

pub mod call;
pub mod layout;
pub mod lines;
pub mod prices;
pub mod walk;
