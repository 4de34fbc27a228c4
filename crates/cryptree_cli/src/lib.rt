//! What the program does, over any source of input and of random bytes, any disk and any sink.
#![tactic(auto)]

pub mod top;

pub use cli_base::status;
pub use cli_words::words;
