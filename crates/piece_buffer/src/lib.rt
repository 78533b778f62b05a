//! Bytes of a stream on their way from who reads them to who parses them.
#![tactic(auto)]

mod piece_buffer;

pub use piece_buffer::PieceBuffer;
