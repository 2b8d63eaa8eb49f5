//! Laws of streams. Each function is its clauses, and does nothing.

ghost use Rattle.std.specs.Prelude.{◌≡◌, ◌<◌, ℕ, List};
ghost use Rattle.std.specs.List.{All};
ghost use Rattle.axfr_apply.specs.declared.transfer_request.TransferRequest.{TransferRequest};
ghost use Rattle.ixfr_apply.specs.Laws.{StreamReads};
ghost use Rattle.ixfr_apply.specs.Stream.{Read, reading};

/// A stream is read message after message, up to the first that ends the transfer: what it ends with is the stream's outcome,
/// and what stands behind its frame is left. Where no message ends the transfer, the stream is cut if it ends inside a frame, and
/// ended early if it ends between frames. Each stream of octets reads so, and in no other way.
pub fn a_stream_is_read_by_its_frames()
    ensures reads { (asked : TransferRequest) (bytes : List ℕ) → All (λ byte. byte < 256) bytes →
        StreamReads asked bytes (reading asked bytes) }
    ensures only { (asked : TransferRequest) (bytes : List ℕ) (read : Read) →
        StreamReads asked bytes read → reading asked bytes ≡ read }
{}
