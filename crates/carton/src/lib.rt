// The carton file: its blocks and their tests, the words that they hold, and its heading.
#![tactic(auto)]

mod blocks;
mod columns;
mod heading;
mod words;

pub use blocks::{blocks_ok, size_ok};
pub use columns::Columns;
pub use heading::{Heading, Places, heading_of};
pub use words::{FromWord, read_column, read_words};
