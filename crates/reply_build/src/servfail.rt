//! The response to a query for which there is no memory.

ghost use Rattle.std.specs.Prelude.{◌≡◌};
ghost use Rattle.reply_build.specs.Servfail.{bare_servfail as servfail_octets};

/// The octets of a response of this ID with RD, RA and rcode 2, and without a question (RFC 1035, section 4.1.1). It takes no
/// memory.
pub fn bare_servfail(id: u16) -> [u8; 12]
    ensures { result ≡ servfail_octets id }
{
    let high = (id / 256) as u8;
    let low = (id % 256) as u8;
    [high, low, 0x81, 0x82, 0, 0, 0, 0, 0, 0, 0, 0]
}
