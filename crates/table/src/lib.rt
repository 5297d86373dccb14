// A fixed table of rows, and the lookup of a row by its key.
#![tactic(auto)]

mod edits;
mod full;
mod keyed;
mod reads;
mod table;
#[cfg(test)]
mod tests;

pub use full::Full;
pub use keyed::{Keyed, first};
pub use table::Table;
