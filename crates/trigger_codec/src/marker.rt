//! The labels that name a kind of trigger.

ghost use Rattle.std.specs.Prelude.{◌≡◌};
ghost use Rattle.trigger_codec.specs.Trigger as form;
ghost use Rattle.trigger_codec.specs.Seen.{marker_seen};

/// What the last label of a rule's owner names.
#[derive(Clone, Copy)]
pub(crate) enum Marker {
    ClientIp,
    ResponseIp,
    NsIp,
    NsDname,
    Unknown,
    Plain,
}

/// What the label names, in any case of letters.
pub(crate) fn marker_of(label: &[u8]) -> Marker
    ensures { marker_seen result ≡ form.marker_of label.now }
{
    if label.eq_ignore_ascii_case(b"rpz-client-ip") {
        Marker::ClientIp
    } else if label.eq_ignore_ascii_case(b"rpz-ip") {
        Marker::ResponseIp
    } else if label.eq_ignore_ascii_case(b"rpz-nsip") {
        Marker::NsIp
    } else if label.eq_ignore_ascii_case(b"rpz-nsdname") {
        Marker::NsDname
    } else if is_reserved(label) {
        Marker::Unknown
    } else {
        Marker::Plain
    }
}

// Whether the label begins `rpz-`, in any case of letters.
fn is_reserved(label: &[u8]) -> bool
    ensures { result ≡ form.is_reserved label.now }
{
    label.len() >= 4 && label[..4].eq_ignore_ascii_case(b"rpz-")
}

/// Whether the label is `*`.
pub(crate) fn is_asterisk(label: &[u8]) -> bool
    ensures { result ≡ form.is_asterisk label.now }
{
    label == b"*".as_slice()
}
