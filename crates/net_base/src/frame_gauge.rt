//! How far a stream of frames has come.

ghost use Rattle.std.specs.Prelude.{◌≤◌};

/// How far a stream of frames has come. A frame is a length in two bytes, the higher first, and so many bytes of a message
/// (RFC 1035, section 4.2.2).
#[derive(Drop)]
pub struct FrameGauge {
    // The first byte of a length, where the second is still to come.
    high: Option<u8>,
    // How many bytes of a message are still to come.
    left: usize,
}

impl FrameGauge {
    /// At the start of a stream.
    pub fn new() -> Self {
        FrameGauge {
            high: None,
            left: 0,
        }
    }

    /// Whether the next byte is the first of a frame.
    pub fn is_between_frames(&self) -> bool {
        self.high.is_none() && self.left == 0
    }

    /// Whether the next byte is one of a message.
    pub fn is_in_message(&self) -> bool {
        self.left > 0
    }

    /// How many bytes are still to come of the length, or of the message, that the next byte belongs to.
    pub fn part(&self) -> usize
        ensures { 1 ≤ result }
    {
        match self.high {
            _ if self.left > 0 => self.left,
            Some(_) => 1,
            None => 2,
        }
    }

    /// Goes over bytes, at most `part` of them.
    pub fn pass(&mut self, bytes: &[u8]) {
        if self.left > 0 {
            self.left = self.left.saturating_sub(bytes.len());
            return;
        }
        match (self.high, bytes) {
            (None, [high]) => self.high = Some(*high),
            (None, [high, low, ..]) => self.left = message_len(*high, *low),
            (Some(high), [low, ..]) => {
                self.high = None;
                self.left = message_len(high, *low);
            }
            _ => {}
        }
    }
}

fn message_len(high: u8, low: u8) -> usize {
    usize::from(high) * 256 + usize::from(low)
}
