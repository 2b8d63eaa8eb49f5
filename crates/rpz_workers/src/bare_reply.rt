//! The reply to a message for which there is no memory.

ghost use Rattle.std.specs.Prelude.{◌≡◌};
ghost use Rattle.rpz_workers.specs.Replying.{bare_reply as bare_reply_to};

use dns_message::speaks;
use dns_record::number::u16_at;
use reply_build::bare_servfail;

/// A response of the message's ID with rcode 2; `None` for what is never answered. It takes no memory.
pub(crate) fn bare_reply(message: &[u8]) -> Option<[u8; 12]>
    ensures { result ≡ bare_reply_to message.now }
{
    if speaks(message) {
        Some(bare_servfail(u16_at(message, 0)))
    } else {
        None
    }
}
