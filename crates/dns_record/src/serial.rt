//! Serial numbers of zones.

ghost use Rattle.std.specs.Prelude.{◌≡◌};
ghost use Rattle.dns_record.specs.Serial.{is_newer};

/// Whether their serial is newer than ours (RFC 1982, section 3.2, in 32 bits): it is up to 2^31 - 1 steps
/// on, past 2^32 - 1 from 0 again. At a distance of 2^31 neither of two is newer.
pub fn serial_newer(ours: u32, theirs: u32) -> bool
    ensures { result ≡ is_newer ours theirs }
{
    (ours < theirs && theirs - ours < 1 << 31) || (ours > theirs && ours - theirs > 1 << 31)
}
