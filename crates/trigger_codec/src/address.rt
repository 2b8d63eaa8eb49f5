//! Prefixes of addresses as labels: the length, and the address reversed (draft-vixie-dnsop-dns-rpz,
//! section 4.1.1).

ghost use Rattle.std.specs.Prelude.{◌≡◌, ◌+◌, ◌*◌, ◌≤◌, length, take, drop, IfSome};
ghost use Rattle.std.specs.List.{count_by};
ghost use Rattle.trigger_codec.specs.Address.{is_zz as zz_label, bytes_read, words_read, v4_of, v6_of, from_lowest, address_read, prefix_read};
ghost use Rattle.trigger_codec.specs.Words.{word_count, first_byte};

use crate::digits::{byte_of, is_zz, length_of, word_of};
use crate::inert::Inert;
use dns_name::{Labels, Name};
use ip_prefix::{Addr, Prefix, PrefixFault};

/// The prefix that the first labels of the owner write, so many.
#[tactic(auto, unfolding(crate::specs::Address::prefix_read))]
pub(crate) fn prefix_of(owner: &Name, count: usize) -> Result<Prefix, Inert>
    requires { count ≤ length owner.now }
    ensures { result ≡ prefix_read (take count owner.now) }
{
    if count == 0 {
        return Err(Inert::Address);
    }
    let Some(first) = owner.labels().next_label() else {
        return Err(Inert::Address);
    };
    let Some(addr) = address_of(owner, count - 1) else {
        return Err(Inert::Address);
    };
    let Some(len) = length_of(first) else {
        return Err(Inert::Address);
    };
    match Prefix::new(addr, len) {
        Ok(prefix) => Ok(prefix),
        Err(PrefixFault::Length) => Err(Inert::Length),
        Err(PrefixFault::HostBits) => Err(Inert::HostBits),
    }
}

// The labels behind the first.
fn behind_first(owner: &Name) -> Labels<'_>
    ensures { result ≡ drop 1 owner.now }
{
    let mut labels = owner.labels();
    labels.skip(1);
    labels
}

// The address that the labels behind the first write, so many.
#[tactic(auto, unfolding(crate::specs::Address::address_read))]
fn address_of(owner: &Name, count: usize) -> Option<Addr>
    requires { count ≤ length (drop 1 owner.now) }
    ensures { result ≡ address_read (take count (drop 1 owner.now)) }
{
    let zz = zz_count(&mut behind_first(owner), count);
    let mut labels = behind_first(owner);
    match (zz, count) {
        (0, 4) => address_4(&mut labels),
        (0, 8) => address_6(&mut labels, count, 0),
        (1, _) if count <= 8 => shortened(&mut labels, count),
        _ => None,
    }
}

// The address of IP version 6 that the first labels write, so many, of which one is `zz`.
fn shortened(labels: &mut Labels<'_>, count: usize) -> Option<Addr>
    requires within { count ≤ length labels.old }
    requires few { count ≤ 8 }
    requires one { count_by zz_label (take count labels.old) ≡ 1 }
    ensures { result ≡ address_read (take count labels.old) }
{
    address_6(labels, count, 9 - count)
}

// How many of the first labels, so many, are `zz`.
fn zz_count(labels: &mut Labels<'_>, count: usize) -> usize
    ensures { result ≡ count_by zz_label (take count labels.old) }
{
    let mut zz = 0;
    for _i in 0..count {
        let Some(label) = labels.next_label() else {
            return zz;
        };
        zz += usize::from(is_zz(label));
    }
    zz
}

// An address of IP version 4: four bytes, the lowest first.
fn address_4(labels: &mut Labels<'_>) -> Option<Addr>
    requires { 4 ≤ length labels.old }
    ensures { result ≡ v4_of (bytes_read (take 4 labels.old)) }
{
    let first = next_byte(labels)?;
    let second = next_byte(labels)?;
    let third = next_byte(labels)?;
    let fourth = next_byte(labels)?;
    Some(Addr::V4(first + 256 * (second + 256 * (third + 256 * fourth))))
}

// The byte that the next label writes.
fn next_byte(labels: &mut Labels<'_>) -> Option<u32>
    ensures value { result ≡ first_byte labels.old }
    ensures fits { IfSome result (λ byte. byte ≤ 255) }
    ensures rest { labels.new ≡ drop 1 labels.old }
{
    match labels.next_label() {
        Some(label) => byte_of(label),
        None => None,
    }
}

// An address of IP version 6: eight words, the lowest first, where `zz` stands for so many.
fn address_6(labels: &mut Labels<'_>, count: usize, missing: usize) -> Option<Addr>
    requires within { count ≤ length labels.old }
    requires eight { word_count missing (take count labels.old) ≡ 8 }
    ensures { result ≡ v6_of (words_read missing (take count labels.old)) }
{
    let words = words_of(labels, count, missing)?;
    Some(Addr::V6(number(&words)))
}

// The words that the first labels write, so many.
fn words_of(labels: &mut Labels<'_>, count: usize, missing: usize) -> Option<[u16; 8]>
    requires within { count ≤ length labels.old }
    requires eight { word_count missing (take count labels.old) ≡ 8 }
    ensures { result ≡ words_read missing (take count labels.old) }
{
    let mut words = [0; 8];
    let mut place = 0;
    for _i in 0..count {
        let label = labels.next_label()?;
        if is_zz(label) {
            place += missing;
        } else {
            words[place] = word_of(label)?;
            place += 1;
        }
    }
    Some(words)
}

// The number of eight words, the lowest first.
fn number(words: &[u16; 8]) -> u128
    ensures { result ≡ from_lowest 65536 words.now }
{
    let low = half(words[0], words[1], words[2], words[3]);
    let high = half(words[4], words[5], words[6], words[7]);
    u128::from(low) + 0x1_0000_0000_0000_0000 * u128::from(high)
}

fn half(first: u16, second: u16, third: u16, fourth: u16) -> u64
    ensures { result ≡ first + 65536 * (second + 65536 * (third + 65536 * fourth)) }
{
    u64::from(first)
        + 65536 * (u64::from(second) + 65536 * (u64::from(third) + 65536 * u64::from(fourth)))
}
