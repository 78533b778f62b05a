// Streams in pieces, and how faults of streams are told.
use lsp_frame::{FrameFault, read_pieces};
use std::alloc::Global;

/// Whether no messages come of no pieces.
pub fn has_no_messages(alloc: Global) -> Option<bool> {
    match read_pieces(alloc, &[]) {
        Ok(reading) => Some(reading.messages.len() == 0),
        Err(_) => None,
    }
}

fn is_told(alloc: Global, fault: FrameFault, want: &str) -> bool {
    match fault.to_string(alloc) {
        Ok(shown) => shown.as_str() == want,
        Err(_) => false,
    }
}

/// Whether each fault is told.
pub fn tell_faults(alloc: Global) -> bool {
    is_told(alloc, FrameFault::BadFrame { at: 3 }, "bad frame at byte 3")
        && is_told(
            alloc,
            FrameFault::BadMessage { at: 4 },
            "bad message at byte 4",
        )
        && is_told(alloc, FrameFault::NoMemory, "out of memory")
}
