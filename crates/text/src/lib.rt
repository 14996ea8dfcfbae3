// The characters of a script: hexadecimal digits, two for a byte, the bytes of a field, those of a batch's handles, and
// lines; and decimal numbers.
#![tactic(auto)]

pub mod batches;
pub mod decimals;
pub mod hex;
mod lines;
mod reader;
pub mod words;

pub use lines::Line;
pub use reader::{Reader, read_line, step};
