// Laws of streams of frames, for the proofs of those who read and write them.
ghost use Rattle.std.specs.Prelude.{◌≡◌, ◌≢◌, ◌+◌, ◌≤◌, ◌++◌, ℕ, List, length};
ghost use Rattle.lsp_frame.specs.Frames.{cut_of, frame, rest, first_and, frames_from, frames_on, rest_bytes, rest_place};
ghost use Rattle.lsp_frame.specs.Header.{size_limit};
ghost use Rattle.lsp_frame.specs.Written.{header_for, frame_for};

use crate::frame::Cut;

/// What was judged of the first frame stays, whatever follows: no bytes mend a bad one, and a whole one ends where it did.
pub fn judged_frames_stay()
    ensures { (bytes more : List ℕ) → cut_of bytes ≢ Cut.NeedMore
        → cut_of (bytes ++ more) ≡ cut_of bytes }
{}

/// The frames of a stream are the first one and those of the bytes after it.
pub fn frames_go_on()
    ensures { (at : ℕ) (bytes : List ℕ)
        → frames_from at bytes ≡ first_and frames_from at bytes (cut_of bytes) }
{}

/// What comes of the front of a stream, and then of what is left of it with what follows, is what comes of the whole.
pub fn any_cutting()
    ensures { (at : ℕ) (front more : List ℕ) → frames_from at (front ++ more)
        ≡ frames_on (frames_from at front) (λ place left. frames_from place (left ++ more)) }
{}

/// What is left after the frames ends where the stream ends, and no whole frame comes of it.
pub fn frames_end()
    ensures place { (at : ℕ) (bytes : List ℕ) → let frames = frames_from at bytes in
        rest_place frames + length (rest_bytes frames) ≡ at + length bytes }
    ensures none { (at : ℕ) (bytes : List ℕ) → let frames = frames_from at bytes in
        frames_from (rest_place frames) (rest_bytes frames)
        ≡ rest (rest_place frames) (rest_bytes frames) }
{}

/// A written frame is cut as this frame, whatever follows it, where its body is within the limit.
pub fn written_frames_are_cut()
    ensures cut { (body more : List ℕ) → length body ≤ size_limit → cut_of (frame_for body ++ more)
        ≡ Cut.Frame (length (header_for (length body))) (length (frame_for body)) }
    ensures frames { (at : ℕ) (body more : List ℕ) → length body ≤ size_limit
        → frames_from at (frame_for body ++ more)
        ≡ frame at body (frames_from (at + length (frame_for body)) more) }
{}
