// What an account holds: the rows of its tables, its phase and call, and by which numbers these and its declines are told.
#![tactic(auto)]

mod name;
mod phase;
mod refusal;
mod report;
mod rows;
#[cfg(test)]
mod tests;

pub use name::Name;
pub use phase::{Call, Phase};
pub use refusal::Refusal;
pub use report::{Due, Notice};
pub use rows::{Contract, Lots, Order, Position, Product};
