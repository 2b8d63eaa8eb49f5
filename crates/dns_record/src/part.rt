//! What the data of a record is made of.

ghost use Rattle.std.specs.Prelude.{◌≡◌, option_copied};
ghost use Rattle.dns_record.specs.Part as part_form;
ghost use Rattle.dns_record.specs.Part.{layout_of};

use crate::{class, rtype};

/// A part of the data of a record.
#[derive(Clone, Copy, Debug, PartialEq, Eq)]
pub enum Part {
    /// A name.
    Name,
    /// So many bytes.
    Fixed(usize),
}

static NAME: [Part; 1] = [Part::Name];

static TWO_NAMES: [Part; 2] = [Part::Name, Part::Name];

// Two names and five numbers of 32 bits.
static START_OF_AUTHORITY: [Part; 3] = [Part::Name, Part::Name, Part::Fixed(20)];

// A preference of 16 bits and a name.
static MAIL_EXCHANGE: [Part; 2] = [Part::Fixed(2), Part::Name];

// A priority, a weight and a port of 16 bits each, and a name.
static SERVICE: [Part; 2] = [Part::Fixed(6), Part::Name];

static IPV4_ADDRESS: [Part; 1] = [Part::Fixed(4)];

static IPV6_ADDRESS: [Part; 1] = [Part::Fixed(16)];

/// The parts of the data of a type and class; `None` where the data is any bytes.
pub fn layout(rtype: u16, class: u16) -> Option<&'static [Part]>
    ensures { option_copied result ≡ layout_of rtype class }
{
    if is_one_name(rtype) {
        return Some(&NAME);
    }
    match rtype {
        rtype::SOA => Some(&START_OF_AUTHORITY),
        rtype::MINFO => Some(&TWO_NAMES),
        rtype::MX => Some(&MAIL_EXCHANGE),
        rtype::SRV => Some(&SERVICE),
        rtype::A if class == class::IN => Some(&IPV4_ADDRESS),
        rtype::AAAA if class == class::IN => Some(&IPV6_ADDRESS),
        _ => None,
    }
}

// The types whose data is one name.
fn is_one_name(rtype: u16) -> bool
    ensures { result ≡ part_form.is_one_name rtype }
{
    matches!(
        rtype,
        rtype::NS
            | rtype::MD
            | rtype::MF
            | rtype::CNAME
            | rtype::MB
            | rtype::MG
            | rtype::MR
            | rtype::PTR
            | rtype::DNAME
    )
}
