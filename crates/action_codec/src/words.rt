//! The names that a CNAME row can point to in place of data.

ghost use Rattle.std.specs.Prelude.{◌≡◌, length, option_copied};
ghost use Rattle.dns_name.specs.Labels.{name_octets};
ghost use Rattle.action_codec.specs.Action.{own_name, is_reserved_name as reserved_name, is_own_name as own_is, points_to};

use dns_name::Pattern;

pub(crate) const ROOT: &[u8] = b"\x00";

pub(crate) const ASTERISK: &[u8] = b"\x01*\x00";

pub(crate) const PASSTHRU: &[u8] = b"\x0crpz-passthru\x00";

pub(crate) const DROP: &[u8] = b"\x08rpz-drop\x00";

pub(crate) const TCP_ONLY: &[u8] = b"\x0crpz-tcp-only\x00";

/// Whether the data is a name of a single label that begins `rpz-`.
pub(crate) fn is_reserved_name(rdata: &[u8]) -> bool
    ensures { result ≡ reserved_name rdata.now }
{
    rdata.len() > 4
        && usize::from(rdata[0]) + 2 == rdata.len()
        && &rdata[1..5] == b"rpz-".as_slice()
}

/// Whether the data is the name of the rule's own pattern, as the owner writes it.
pub(crate) fn is_own_name(own: Option<&Pattern>, rdata: &[u8]) -> bool
    ensures { result ≡ own_is (option_copied own.entry) rdata.now }
{
    match own {
        Some(pattern) => is_written(pattern, rdata),
        None => false,
    }
}

// Whether the data is the name that the owner of the pattern writes.
fn is_written(pattern: &Pattern, rdata: &[u8]) -> bool
    ensures { result ≡ points_to rdata.now (own_name pattern.now) }
{
    let base = pattern.base().octets();
    if pattern.is_wild() {
        rdata.len() > 2 && &rdata[..2] == b"\x01*".as_slice() && &rdata[2..] == base
    } else {
        rdata == base
    }
}
