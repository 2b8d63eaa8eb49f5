//! What some of the replies come to.

ghost use Rattle.std.specs.Prelude.{◌≡◌, ℕ, [], fold, slice_index};
ghost use Rattle.load_gen.specs.Summed as form;
ghost use Rattle.load_gen.specs.Tallied.{joined, tally_of, with_reply, with_turn};
ghost use Rattle.load_gen.specs.Tallied as tallied;

use reply_build::{Said, Turn};

/// What replies that stand one after another come to, so that neighbouring parts can be put together. All numbers are modulo 2^64.
#[derive(Clone, Copy)]
pub(crate) struct Tally {
    /// How many have the rcode 3.
    pub nxdomain: u64,
    /// How many have the rcode 0 and no answer.
    pub nodata: u64,
    /// How many others there are.
    pub other: u64,
    /// What their bytes come to.
    pub mark: u64,
    /// The power of 31 by the number of their bytes.
    pub power: u64,
}

// Whether the message has this rcode.
fn has_rcode(octets: &[u8], rcode: u8) -> bool
    ensures { result ≡ form.has_rcode rcode octets.now }
{
    octet_at(octets, 3) % 16 == rcode
}

// Whether the message has no answer.
fn has_no_answer(octets: &[u8]) -> bool
    ensures { result ≡ form.has_no_answer octets.now }
{
    octet_at(octets, 6) == 0 && octet_at(octets, 7) == 0
}

// An octet of a message; 0 behind its end.
fn octet_at(octets: &[u8], place: usize) -> u8
    ensures { result ≡ slice_index octets.now place }
{
    octets.get(place).copied().unwrap_or(0)
}

// A byte more of the replies.
#[tactic(auto, using(crate::proofs::Marks::wrapped))]
fn next_mark(mark: u64, byte: u8) -> u64
    ensures { result ≡ form.next_mark mark byte }
{
    mark.wrapping_mul(31).wrapping_add(u64::from(byte))
}

// The power of 31 by one byte more.
#[tactic(auto, using(crate::proofs::Marks::wrapped_power))]
fn next_power(power: u64) -> u64
    ensures { (byte : ℕ) → result ≡ tallied.next_power power byte }
{
    power.wrapping_mul(31)
}

// Goes on with the bytes of a reply.
fn add_octets(mark: u64, power: u64, octets: &[u8]) -> (u64, u64)
    ensures mark { result.0 ≡ fold form.next_mark mark octets.now }
    ensures power { result.1 ≡ fold tallied.next_power power octets.now }
{
    let mut mark = mark;
    let mut power = power;
    for byte in octets {
        mark = next_mark(mark, *byte);
        power = next_power(power);
    }
    (mark, power)
}

// A count with one more, where the test holds.
fn one_if(test: bool, count: u64) -> u64
    ensures { result ≡ tallied.one_if test count }
{
    if test { count.wrapping_add(1) } else { count }
}

impl Tally {
    /// The tally of no replies: all counts are 0.
    pub fn none() -> Self
        ensures { result ≡ tally_of [] }
    {
        Tally {
            nxdomain: 0,
            nodata: 0,
            other: 0,
            mark: 0,
            power: 1,
        }
    }

    /// One reply more.
    pub fn add(&mut self, turn: &Turn)
        ensures { self.new ≡ with_turn self.old turn.now }
    {
        if let Turn::Said(Said::Reply(octets)) = turn {
            self.add_reply(octets.as_slice());
        }
    }

    // One reply more, of these octets.
    fn add_reply(&mut self, octets: &[u8])
        ensures { self.new ≡ with_reply self.old octets.now }
    {
        let nxdomain = has_rcode(octets, 3);
        let nodata = has_rcode(octets, 0) && has_no_answer(octets);
        self.nxdomain = one_if(nxdomain, self.nxdomain);
        self.nodata = one_if(nodata, self.nodata);
        self.other = one_if(!nxdomain && !nodata, self.other);
        let (mark, power) = add_octets(self.mark, self.power, octets);
        self.mark = mark;
        self.power = power;
    }

    /// With the replies that come next.
    pub fn join(self, next: Tally) -> Self
        ensures { result ≡ joined self next }
    {
        Tally {
            nxdomain: self.nxdomain.wrapping_add(next.nxdomain),
            nodata: self.nodata.wrapping_add(next.nodata),
            other: self.other.wrapping_add(next.other),
            mark: self.mark.wrapping_mul(next.power).wrapping_add(next.mark),
            power: self.power.wrapping_mul(next.power),
        }
    }
}
