//! Laws of frames. Each function is its clauses, and does nothing.

ghost use Rattle.std.specs.Prelude.{◌≡◌, ◌≤◌, ◌++◌, ℕ, List, length, Option, Some, Result};
ghost use Rattle.edge_io.specs.Frame.{frame_octets, ReadsFrame, ReadsBack};
ghost use Rattle.edge_io.specs.declared.frame.FrameError.{FrameError};

/// A message that was written as a frame is read back, whatever follows it.
pub fn a_frame_is_read_back()
    ensures { (message rest : List ℕ) (read : Result (Option (List ℕ)) FrameError)
        (after : Option (List ℕ)) →
        ReadsFrame read (Some (frame_octets message ++ rest)) after →
        ReadsBack message rest read after }
{}
