//! Codecs by parts: how values are spelled as bytes, each with its proof that exactly the spellings of values are read.
//! The code has the place in the bytes that are read, and what is common to all that is written.
#![tactic(auto)]

mod counted;
mod cursor;
mod faults;

pub use counted::{encode_counted, encode_length};
pub use cursor::Cursor;
pub use faults::{DecodeFault, EncodeFault};
