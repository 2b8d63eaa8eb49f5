//! Prefixes of addresses as text: labels with dots between them, without leading zeros and in lower case.

ghost use Rattle.std.specs.Prelude.{◌≡◌, [], ◌∷◌, ◌++◌, map, reverse, string_bytes, IfOk, OnOk};
ghost use Rattle.std.specs.Fmt.{decimal};
ghost use Rattle.dns_name.specs.Text.{text_of};
ghost use Rattle.ip_prefix.specs.Prefix.{IsPrefix};
ghost use Rattle.trigger_codec.specs.Canonical.{hexadecimal, lowest_digits, word_labels, address_labels, prefix_labels};
ghost use Rattle.trigger_codec.specs.Dotted.{dotted};

use crate::runs::{longest_run, words_of};
use ip_prefix::{Addr, Prefix};
use std::alloc::{AllocError, Global};
use std::fmt::Write;

/// The labels of the prefix and the label behind them, with dots between them.
pub(crate) fn text_of_prefix(
    alloc: Global,
    prefix: &Prefix,
    marker: &str,
) -> Result<String, AllocError>
    ensures text { IfOk result (λ text.
        string_bytes text ≡ text_of (prefix_labels prefix.now ++ marker.now ∷ [])) }
    ensures is_prefix { IsPrefix prefix.now }
{
    let mut text = format!(in alloc; "{}", prefix.length())?;
    write_address(&mut text, prefix.addr())?;
    write!(text, ".{marker}")?;
    Ok(text)
}

// Puts the labels of the address at the end, with a dot before each.
#[tactic(auto, unfolding(crate::specs::Canonical::address_labels))]
fn write_address(text: &mut String, addr: Addr) -> Result<(), AllocError>
    ensures { OnOk result
        (string_bytes text.new ≡ string_bytes text.old ++ dotted (address_labels addr)) }
{
    match addr {
        Addr::V4(number) => write_bytes(text, number),
        Addr::V6(number) => write_words(text, &words_of(number)),
    }
}

// Puts the four bytes of an address of IP version 4 at the end, the lowest first.
fn write_bytes(text: &mut String, number: u32) -> Result<(), AllocError>
    ensures { OnOk result (string_bytes text.new
        ≡ string_bytes text.old ++ dotted (map decimal (lowest_digits 4 256 number))) }
{
    let second = number / 256;
    let third = second / 256;
    let fourth = third / 256;
    write!(text, ".{}.{}", number % 256, second % 256)?;
    write!(text, ".{}.{}", third % 256, fourth % 256)?;
    Ok(())
}

// Puts the words of an address of IP version 6, which come with the highest first, at the end, the lowest
// first, with `zz` for their longest run of zeros.
fn write_words(text: &mut String, words: &[u16; 8]) -> Result<(), AllocError>
    ensures { OnOk result (string_bytes text.new
        ≡ string_bytes text.old ++ dotted (reverse (word_labels words.now))) }
{
    let run = longest_run(words);
    if run.long < 2 {
        return write_each(text, words);
    }
    write_each(text, &words[run.place + run.long..])?;
    write!(text, ".zz")?;
    write_each(text, &words[..run.place])
}

// Puts each word at the end, the last first.
fn write_each(text: &mut String, words: &[u16]) -> Result<(), AllocError>
    ensures { OnOk result (string_bytes text.new
        ≡ string_bytes text.old ++ dotted (reverse (map hexadecimal words.now))) }
{
    let mut left = words.len();
    while left > 0 {
        left -= 1;
        let word = words[left];
        write!(text, ".{word:x}")?;
    }
    Ok(())
}
