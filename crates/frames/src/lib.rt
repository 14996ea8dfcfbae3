// The request of a line: the rules F, but for those of an answer.
#![tactic(auto)]

mod requests;

pub use requests::decode;
pub use text::hex::MOST_BYTES;
