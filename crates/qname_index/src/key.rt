//! The octets by which a name stands in a trie.

ghost use Rattle.std.specs.Prelude.{◌≡◌, [], ◌+◌, ◌≤◌, ◌++◌, length, map};
ghost use Rattle.std.specs.Char.{to_ascii_lowercase};
ghost use Rattle.dns_name.specs.Labels.{IsName, label_octets, lowered, name_octets};
ghost use Rattle.qname_index.specs.Key.{name_key};
ghost use Rattle.qname_index.specs.Patterns.{name_in};

use dns_name::Name;
use std::marker::Model;

// How many octets there is room for: a name is written in at most 255, of which the key lacks the zero.
const ROOM: usize = 255;

/// The labels of a name from the root on, each behind its length, as a trie has them: so names that end alike begin alike. It lies
/// on the stack.
#[derive(Drop)]
pub struct Key {
    octets: [u8; ROOM],
    // the key is what stands from here on
    start: usize,
}

impl Model for Key {
    ghost use Rattle.std.specs.Prelude.{ℕ, List, drop, ◌≤◌};

    ghost Value = { List ℕ };

    ghost view = { λ k. drop k.start k.octets };

    ghost invariant = { λ k. k.start ≤ 255 };
}

impl Key {
    /// The key of a name. It takes no memory.
    #[inline(always)]
    pub fn of(name: &Name) -> Key
        ensures key { result ≡ name_key name.now }
        ensures short { length (name_key name.now) ≤ 254 }
        ensures name { IsName name.now }
    {
        let mut key = Key::root();
        key.put(name);
        key
    }

    // The key of the root, which has no octets. It takes no memory.
    #[inline(always)]
    pub(crate) fn root() -> Key
        ensures { result ≡ [] }
    {
        Key {
            octets: [0; ROOM],
            start: ROOM,
        }
    }

    // Makes it the key of the root.
    fn clear(&mut self)
        ensures { self.new ≡ [] }
    {
        self.start = ROOM;
    }

    // Makes it the key of a name.
    #[inline(always)]
    fn put(&mut self, name: &Name)
        ensures key { self.new ≡ name_key name.now }
        ensures short { length (name_key name.now) ≤ 254 }
        ensures name { IsName name.now }
    {
        self.clear();
        let mut labels = name.labels();
        while let Some(label) = labels.next_label() {
            self.put_before(label);
        }
    }

    // Makes it the key of the name in lower case.
    #[inline(always)]
    pub(crate) fn put_lower(&mut self, name: &Name)
        ensures key { self.new ≡ name_key (lowered name.now) }
        ensures short { length (name_key (lowered name.now)) ≤ 254 }
    {
        self.put(name);
        self.make_lower();
    }

    // The name of which the octets are the key, as it is written. It takes no memory.
    pub(crate) fn written(octets: &[u8]) -> Key
        requires name { IsName (name_in octets.now) }
        requires key { octets.now ≡ name_key (name_in octets.now) }
        ensures { result ≡ name_octets (name_in octets.now) }
    {
        let mut written = Key {
            octets: [0; ROOM],
            start: ROOM - 1,
        };
        let mut rest = octets;
        while let Some((len, others)) = rest.split_first() {
            let (label, behind) = others.split_at(usize::from(*len));
            written.put_before(label);
            rest = behind;
        }
        written
    }

    // Puts all octets in lower case.
    #[inline(always)]
    fn make_lower(&mut self)
        ensures { self.new ≡ map to_ascii_lowercase self.old }
    {
        self.octets[self.start..].make_ascii_lowercase();
    }

    // Puts a label behind its length in front.
    fn put_before(&mut self, label: &[u8])
        requires { length label.now + 1 + length self.old ≤ 255 }
        ensures { self.new ≡ label_octets label.now ++ self.old }
    {
        let start = self.start - label.len() - 1;
        self.octets[start] = label.len() as u8;
        self.octets[start + 1..self.start].copy_from_slice(label);
        self.start = start;
    }

    /// The octets.
    pub fn as_slice(&self) -> &[u8]
        ensures { result.now ≡ self.now }
    {
        &self.octets[self.start..]
    }
}
