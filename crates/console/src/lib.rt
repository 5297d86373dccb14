// What the programs share: the front of what is put into a fixed buffer, lines out of blocks of input, and the texts of answers.
#![tactic(auto)]

mod front;
mod lines;
mod texts;

pub use front::Front;
