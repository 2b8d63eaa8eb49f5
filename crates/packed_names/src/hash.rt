//! The hash of a suffix of a name: sixteen octets a step, each a product of numbers that a secret key hides.

ghost use Rattle.std.specs.Prelude.{◌≡◌, ◌+◌, ◌-◌, ◌≤◌, length, slice_index};
ghost use Rattle.packed_names.specs.Hash as form;

// The halves of a product of 128 bits, combined. In the low half alone the highest bit of a factor changes no bit but the
// highest, so that names could be chosen that collide with every key.
fn folded_product(a: u64, b: u64) -> u64
    ensures { result ≡ form.folded_product a b }
{
    let (low, high) = a.carrying_mul(b, 0);
    high ^ low
}

// The eight octets from an index on as a number.
fn word_at(octets: &[u8], at: usize) -> u64
    requires { at + 8 ≤ length octets.now }
    ensures { result ≡ form.word_at octets.now at }
{
    u64::from_le_bytes([
        octets[at],
        octets[at + 1],
        octets[at + 2],
        octets[at + 3],
        octets[at + 4],
        octets[at + 5],
        octets[at + 6],
        octets[at + 7],
    ])
}

// The octet at an index, or a zero behind the last.
fn octet_or_zero(octets: &[u8], at: usize) -> u8
    ensures { result ≡ slice_index octets.now at }
{
    match octets.get(at) {
        Some(octet) => *octet,
        None => 0,
    }
}

// All octets of a short name as a number, with zeros behind them.
fn short_word(octets: &[u8]) -> u64
    ensures { result ≡ form.word_at octets.now 0 }
{
    u64::from_le_bytes([
        octet_or_zero(octets, 0),
        octet_or_zero(octets, 1),
        octet_or_zero(octets, 2),
        octet_or_zero(octets, 3),
        octet_or_zero(octets, 4),
        octet_or_zero(octets, 5),
        octet_or_zero(octets, 6),
        octet_or_zero(octets, 7),
    ])
}

// The two last words. In fewer than sixteen octets they overlap, and in fewer than eight they are the same.
fn last_words(octets: &[u8]) -> (u64, u64)
    ensures first { result.0 ≡ form.word_at octets.now (length octets.now - 16) }
    ensures second { result.1 ≡ form.word_at octets.now (length octets.now - 8) }
{
    let len = octets.len();
    if len < 8 {
        let word = short_word(octets);
        return (word, word);
    }
    if len < 16 {
        return (word_at(octets, 0), word_at(octets, len - 8));
    }
    (word_at(octets, len - 16), word_at(octets, len - 8))
}

/// The hash of a name as it is written in full.
pub(crate) fn hash_of(key: u64, octets: &[u8]) -> u32
    ensures { result ≡ form.hash_of key octets.now }
{
    let len = octets.len();
    let mut hash = key.rotate_left(32) ^ len as u64;
    for i in 0..len / 16 {
        let first = word_at(octets, 16 * i) ^ key;
        let second = word_at(octets, 16 * i + 8) ^ hash;
        hash = folded_product(first, second);
    }
    let (first, second) = last_words(octets);
    (folded_product(first ^ key, second ^ hash) >> 32) as u32
}

/// The bucket of a hash: its 11 highest bits.
pub(crate) fn bucket(hash: u32) -> usize
    ensures { result ≡ form.bucket hash }
{
    (hash >> 21) as usize
}
