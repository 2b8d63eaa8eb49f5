//! The table that finds the place of a suffix: a list of entries, with a chain for each bucket.

ghost use Rattle.std.specs.Prelude.{◌≡◌, ℕ, ◌<◌, List, [], ◌∷◌, ◌++◌, length, Some, None, MatchOption, OnOk, IfOk, IfSome, IsTrue, ◌↔◌, ◌≢◌};
ghost use Rattle.dns_name.specs.Wire.{labels_in, IsWire};
ghost use Rattle.packed_names.specs.Hash as form;
ghost use Rattle.packed_names.specs.Places.{first_offset, reachable_place};
ghost use Rattle.packed_names.specs.declared.table.SuffixEntry.{SuffixEntry};
ghost use Rattle.packed_names.specs.Table.{suffix_places, hashes_of, Skips, IsTable};

use crate::hash::{bucket, hash_of};
use crate::pointing::POINTED_PLACES;
use std::alloc::{AllocError, Global};

const BUCKETS: usize = 2_048;

// The chains number entries by 16 bits. A table never gets so many: each entry has an offset of its own below 16,384.
const ENTRY_LIMIT: usize = 65_535;

/// A suffix of a name that was written, and the offset of its first label.
#[derive(Clone, Copy, Debug)]
pub struct SuffixEntry<'n> {
    // the suffix as it is written in full
    octets: &'n [u8],
    hash: u32,
    offset: u16,
    // How many entries are left to search for a name of this bucket: those behind them, up to this one, are of other buckets.
    next: u16,
}

// Whether the entry is of this name, byte for byte.
fn has_name<'n>(suffix: &SuffixEntry<'n>, octets: &[u8]) -> bool
    ensures { IsTrue result ↔ (suffix.now.octets.now ≡ octets.now) }
{
    suffix.octets == octets
}

// How many entries are left to search for this hash, of all.
fn bucket_head<'n>(key: u64, heads: &[u16], suffixes: &[SuffixEntry<'n>], hash: u32) -> usize
    requires { IsTable key heads.now suffixes.now }
    ensures { Skips (hashes_of suffixes.now) result (length suffixes.now) (form.bucket hash) }
{
    match heads.get(bucket(hash)) {
        Some(head) => usize::from(*head),
        None => suffixes.len(),
    }
}

// How many entries are left to search for this hash, of those before an entry.
fn left_before<'n>(
    key: u64,
    heads: &[u16],
    suffixes: &[SuffixEntry<'n>],
    at: usize,
    hash: u32,
) -> usize
    requires table { IsTable key heads.now suffixes.now }
    requires inside { at < length suffixes.now }
    ensures { Skips (hashes_of suffixes.now) result at (form.bucket hash) }
{
    let suffix = suffixes[at];
    if bucket(suffix.hash) == bucket(hash) {
        usize::from(suffix.next)
    } else {
        at
    }
}

// The offset of a name, whose hash is given.
fn find<'n>(
    key: u64,
    heads: &[u16],
    suffixes: &[SuffixEntry<'n>],
    octets: &[u8],
    hash: u32,
) -> Option<u16>
    requires table { IsTable key heads.now suffixes.now }
    requires wire { IsWire octets.now }
    requires hash { hash ≡ form.hash_of key octets.now }
    ensures place { MatchOption result
        (first_offset (suffix_places suffixes.now) (labels_in octets.now) ≡ None)
        (λ offset. first_offset (suffix_places suffixes.now) (labels_in octets.now) ≡ Some offset) }
    ensures near { IfSome result (λ offset. offset < POINTED_PLACES) }
{
    let mut left = bucket_head(key, heads, suffixes, hash);
    while left > 0 {
        let suffix = suffixes[left - 1];
        if suffix.hash == hash {
            if has_name(&suffix, octets) {
                return Some(suffix.offset);
            }
        }
        left = left_before(key, heads, suffixes, left - 1, hash);
    }
    None
}

/// The offset of a whole name, if it is that of the first entry. `None` says nothing.
pub(crate) fn offset_if_first<'n>(
    key: u64,
    heads: &[u16],
    suffixes: &[SuffixEntry<'n>],
    octets: &[u8],
) -> Option<u16>
    requires table { IsTable key heads.now suffixes.now }
    ensures place { IfSome result
        (λ offset. first_offset (suffix_places suffixes.now) (labels_in octets.now) ≡ Some offset) }
    ensures near { IfSome result (λ offset. offset < POINTED_PLACES) }
{
    if suffixes.is_empty() {
        return None;
    }
    let suffix = suffixes[0];
    if has_name(&suffix, octets) {
        Some(suffix.offset)
    } else {
        None
    }
}

/// The offset of a suffix. If it has none, it gets an entry with the offset `at`, where a pointer can lead there.
pub(crate) fn find_or_insert<'n>(
    alloc: Global,
    key: u64,
    heads: &mut Vec<u16>,
    suffixes: &mut Vec<SuffixEntry<'n>>,
    octets: &'n [u8],
    at: usize,
) -> Result<Option<u16>, AllocError>
    requires table { IsTable key heads.old.items suffixes.old.items }
    requires wire { IsWire octets.now }
    ensures table { IsTable key heads.new.items suffixes.new.items }
    ensures found { IfOk result (λ place. MatchOption place
        ((first_offset (suffix_places suffixes.old.items) (labels_in octets.now) ≡ None)
        × (suffix_places suffixes.new.items
        ≡ suffix_places suffixes.old.items ++ reachable_place at (labels_in octets.now)))
        (λ offset. (first_offset (suffix_places suffixes.old.items) (labels_in octets.now) ≡ Some offset)
        × (suffixes.new.items ≡ suffixes.old.items) × (offset < POINTED_PLACES))) }
{
    let hash = hash_of(key, octets);
    let found = find(key, heads.as_slice(), suffixes.as_slice(), octets, hash);
    if found.is_some() || at >= POINTED_PLACES {
        return Ok(found);
    }
    make_heads(alloc, key, heads, suffixes.as_slice())?;
    insert(key, heads, suffixes, octets, hash, at)?;
    Ok(None)
}

// The heads of empty buckets, which come after so many entries without one.
fn empty_heads(alloc: Global, count: usize) -> Result<Vec<u16>, AllocError>
    ensures { (key : ℕ) (heads : List ℕ) (suffixes : List SuffixEntry) → IsTable key heads suffixes →
        count ≡ length suffixes → IfOk result (λ new. IsTable key new.items suffixes) }
{
    let Ok(count) = u16::try_from(count) else {
        return Err(AllocError);
    };
    Ok(vec![in alloc; count; BUCKETS]?)
}

// Makes the buckets, if there are none yet.
fn make_heads<'n>(
    alloc: Global,
    key: u64,
    heads: &mut Vec<u16>,
    suffixes: &[SuffixEntry<'n>],
) -> Result<(), AllocError>
    requires { IsTable key heads.old.items suffixes.now }
    ensures { IsTable key heads.new.items suffixes.now }
{
    if !heads.is_empty() {
        return Ok(());
    }
    *heads = empty_heads(alloc, suffixes.len())?;
    Ok(())
}

// Puts an entry behind the others.
fn insert<'n>(
    key: u64,
    heads: &mut Vec<u16>,
    suffixes: &mut Vec<SuffixEntry<'n>>,
    octets: &'n [u8],
    hash: u32,
    offset: usize,
) -> Result<(), AllocError>
    requires table { IsTable key heads.old.items suffixes.old.items }
    requires wire { IsWire octets.now }
    requires hash { hash ≡ form.hash_of key octets.now }
    requires none { first_offset (suffix_places suffixes.old.items) (labels_in octets.now) ≡ None }
    requires near { offset < POINTED_PLACES }
    ensures table { IsTable key heads.new.items suffixes.new.items }
    ensures ok { OnOk result (suffix_places suffixes.new.items
        ≡ suffix_places suffixes.old.items
        ++ record { offset = offset; labels = labels_in octets.now } ∷ []) }
{
    let count = suffixes.len();
    if count >= ENTRY_LIMIT {
        return Err(AllocError);
    }
    let next = bucket_head(key, heads.as_slice(), suffixes.as_slice(), hash) as u16;
    suffixes.push(SuffixEntry {
        octets,
        hash,
        offset: offset as u16,
        next,
    })?;
    let index = bucket(hash);
    if index < heads.len() {
        heads[index] = count as u16 + 1;
    }
    Ok(())
}
