//! The names of one message, in time linear in the message and the names.

ghost use Rattle.std.specs.Prelude.{◌≡◌, ◌≤◌, ℕ, List, length, IfOk, IfSome};
ghost use Rattle.dns_name.specs.Labels.{IsName};
ghost use Rattle.dns_name.specs.Reading.{Gives, name_at};
ghost use Rattle.dns_name.specs.Tails.{IsNameAt, IsTailAt, IsTail, AreTails, name_and_after};

use crate::fault::{NameError, NameFault};
use crate::item::{Item, item_at};
use crate::limits::NAME_LIMIT;
use crate::name::Name;
use std::alloc::{AllocError, Global};
use std::marker::Model;

/// How many pointers are followed before what stands behind them is remembered.
const FREE_POINTERS: usize = 256;

/// How many places a pointer of 14 bits can lead to (RFC 1035, section 4.1.4).
const POINTED_PLACES: usize = 16_384;

/// How many labels and pointers a name passes at most, and its zero: each label takes two bytes at least.
const NAME_STEPS: usize = NAME_LIMIT / 2 + POINTED_PLACES + 1;

// Where in the octets the name that stands at a place has its own.
#[derive(Clone, Copy, Debug)]
struct Span {
    place: usize,
    from: usize,
    to: usize,
}

// A name, the place after it, and how many pointers were followed to places of which nothing was known.
#[derive(Debug, Drop)]
struct Walked {
    name: Name,
    after: usize,
    pointers: usize,
}

/// Reads the names of one message, and remembers what stands behind their pointers. The time for all names
/// is linear in the bytes of the message and in those of the names in full: after the first pointer a name
/// walks at most 127 labels, and each place that a pointer leads to is walked twice at most.
///
/// Contracts see the message. What is remembered takes memory once 256 pointers were followed.
#[derive(Debug, Drop)]
pub struct NameReader<'m> {
    message: &'m [u8],
    // how many pointers were followed
    pointers: usize,
    // for each place where its span would be, if there is one
    index: Vec<u16>,
    spans: Vec<Span>,
    octets: Vec<u8>,
}

impl<'m> Model for NameReader<'m> {
    ghost use Rattle.std.specs.Prelude.{ℕ, List};
    ghost use Rattle.dns_name.specs.Tails.{AreTails};

    ghost Value = { List ℕ };

    ghost view = { λ n. n.message.now };

    ghost invariant = { λ n. AreTails n.message.now n.octets.items n.spans.items };
}

impl<'m> NameReader<'m> {
    /// The names of a message. It takes no memory.
    pub fn new(alloc: Global, message: &'m [u8]) -> Self
        ensures { result ≡ message.now }
    {
        NameReader {
            message,
            pointers: 0,
            index: Vec::new(alloc),
            spans: Vec::new(alloc),
            octets: Vec::new(alloc),
        }
    }

    /// The message.
    pub fn message(&self) -> &'m [u8]
        ensures { result.now ≡ self.now }
    {
        self.message
    }

    /// The name at a place of the message, and the place after it, or the first fault: what [`Name::read`]
    /// gives.
    pub fn read(&mut self, alloc: Global, at: usize) -> Result<(Name, usize), NameError>
        ensures exact { Gives (λ x. x) result (name_at self.old at) }
        ensures name { IfOk result (λ x. IsName x.0) }
        ensures same { self.new ≡ self.old }
    {
        let walked = self.walk(alloc, at)?;
        self.keep(alloc, at, &walked.name, walked.pointers)?;
        Ok((walked.name, walked.after))
    }

    fn walk(&self, alloc: Global, at: usize) -> Result<Walked, NameError>
        ensures exact { Gives name_and_after result (name_at self.now at) }
    {
        let message = self.message;
        let mut wire = Vec::new(alloc);
        let mut used = 0usize;
        // the labels from here to the place are not copied yet
        let mut run = at;
        let mut place = at;
        let mut after = None;
        let mut pointers = 0usize;
        loop {
            match item_at(message, run, place, used)? {
                Item::End => {
                    // with the zero
                    wire.extend_from_slice(&message[run..place + 1])?;
                    let after = after.unwrap_or(place + 1);
                    return Ok(Walked {
                        name: Name::from_wire(wire),
                        after,
                        pointers,
                    });
                }
                Item::Label(label) => {
                    used += label.len() + 1;
                    place += label.len() + 1;
                }
                Item::Pointer(target) => {
                    wire.extend_from_slice(&message[run..place])?;
                    let end = after.unwrap_or(place + 2);
                    if let Some(tail) = self.tail_at(target) {
                        if used + tail.len() > NAME_LIMIT {
                            return Err(NameError::Fault(NameFault::TooLong));
                        }
                        wire.extend_from_slice(tail)?;
                        return Ok(Walked {
                            name: Name::from_wire(wire),
                            after: end,
                            pointers,
                        });
                    }
                    after = Some(end);
                    run = target;
                    place = target;
                    pointers = pointers.saturating_add(1);
                }
            }
        }
    }

    // What is known of the name at a place.
    fn tail_at(&self, place: usize) -> Option<&[u8]>
        ensures { IfSome result (λ tail. IsTailAt self.now place tail.now) }
    {
        let Some(at) = self.index.get(place) else {
            return None;
        };
        match self.spans.get(usize::from(*at)) {
            Some(span)
                if span.place == place && span.from <= span.to && span.to <= self.octets.len() => {
                Some(&self.octets[span.from..span.to])
            }
            _ => None,
        }
    }

    // Remembers the name at a place, if so many pointers were followed to it that it is worth it.
    fn keep(
        &mut self,
        alloc: Global,
        at: usize,
        name: &Name,
        pointers: usize,
    ) -> Result<(), AllocError>
        requires { IsNameAt self.old at name.now }
        ensures { self.new ≡ self.old }
    {
        if !self.has_table(alloc, pointers)? {
            return Ok(());
        }
        let from = self.octets.len();
        self.octets.extend_from_slice(name.octets())?;
        mark(
            self.message,
            self.octets.as_slice(),
            at,
            from,
            self.index.as_mut_slice(),
            &mut self.spans,
        )
    }

    // Counts pointers that were followed, and gives whether there is a table for what stands behind them.
    fn has_table(&mut self, alloc: Global, pointers: usize) -> Result<bool, AllocError>
        ensures { self.new ≡ self.old }
    {
        if pointers == 0 {
            return Ok(false);
        }
        self.pointers = self.pointers.saturating_add(pointers);
        if self.pointers < FREE_POINTERS {
            return Ok(false);
        }
        if self.index.is_empty() {
            let places = self.message.len().min(POINTED_PLACES);
            self.index = vec![in alloc; 0u16; places]?;
        }
        Ok(true)
    }
}

impl Name {
    /// The name at a place of a message, and the place after it, or the first fault. It may go on at
    /// earlier places by compression pointers (RFC 1035, section 4.1.4), each of which leads before the
    /// place where the labels in front of it began. The place after the name is then behind its first
    /// pointer. The time is linear in the bytes up to the name's end. [`Names`] reads many names of one
    /// message.
    pub fn read(alloc: Global, bytes: &[u8], at: usize) -> Result<(Name, usize), NameError>
        ensures exact { Gives (λ x. x) result (name_at bytes.now at) }
        ensures name { IfOk result (λ x. IsName x.0) }
    {
        let names = NameReader::new(alloc, bytes);
        let walked = names.walk(alloc, at)?;
        Ok((walked.name, walked.after))
    }
}

// At the end of the octets, from `first` on, is the name that stands at a place. Remembers it for that place
// and each that the name passes, up to the first that is known.
fn mark(
    message: &[u8],
    octets: &[u8],
    at: usize,
    first: usize,
    index: &mut [u16],
    spans: &mut Vec<Span>,
) -> Result<(), AllocError>
    requires are { AreTails message.now octets.now spans.old.items }
    requires name { IsTail message.now octets.now at first (length octets.now) }
    ensures { AreTails message.now octets.now spans.new.items }
{
    let to = octets.len();
    let mut place = at;
    let mut from = first;
    for _step in 0..NAME_STEPS {
        if !add(index, spans, Span { place, from, to })? {
            return Ok(());
        }
        match next_of(message, octets, place, from) {
            Some((next, rest)) => {
                place = next;
                from = rest;
            }
            None => return Ok(()),
        }
    }
    Ok(())
}

// Where the name at a place goes on, in the message and in the octets, at whose end it is.
fn next_of(message: &[u8], octets: &[u8], place: usize, from: usize) -> Option<(usize, usize)>
    requires { IsTail message.now octets.now place from (length octets.now) }
    ensures { IfSome result
        (λ next. IsTail message.now octets.now next.0 next.1 (length octets.now)) }
{
    match item_at(message, place, place, 0) {
        Ok(Item::Label(label)) => Some((place + label.len() + 1, from + label.len() + 1)),
        Ok(Item::Pointer(target)) => Some((target, from)),
        Ok(Item::End) | Err(_) => None,
    }
}

// Remembers a span, unless no pointer leads to its place. Gives false, and leaves all as it was, where
// something is known of the place already, or the index has no number for the span.
fn add(index: &mut [u16], spans: &mut Vec<Span>, span: Span) -> Result<bool, AllocError>
    ensures { (message octets : List ℕ) → AreTails message octets spans.old.items →
        IsTail message octets span.place span.from span.to →
        AreTails message octets spans.new.items }
{
    if span.place >= index.len() {
        return Ok(true);
    }
    let count = spans.len();
    if count > 65_535 || is_known(index, spans.as_slice(), span.place) {
        return Ok(false);
    }
    spans.push(span)?;
    index[span.place] = count as u16;
    Ok(true)
}

// Whether there is a span for a place.
fn is_known(index: &[u16], spans: &[Span], place: usize) -> bool {
    match index.get(place) {
        Some(at) => spans
            .get(usize::from(*at))
            .is_some_and(|span| span.place == place),
        None => false,
    }
}
