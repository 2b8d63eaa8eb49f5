//! The words of an address of IP version 6, and their longest run of zeros.

ghost use Rattle.std.specs.Prelude.{◌≡◌, ◌+◌, ◌≤◌, ◌/◌, ◌%◌, length, reverse, drop};
ghost use Rattle.trigger_codec.specs.Seen.{run_seen};
ghost use Rattle.trigger_codec.specs.Canonical.{lowest_digits, zeros_first as zeros, longer_run as longer_of, longest_run as longest_in};

/// A run of words that are zero: the place of the first of them, and how many they are.
#[derive(Clone, Copy)]
pub(crate) struct Run {
    pub(crate) place: usize,
    pub(crate) long: usize,
}

/// The words of an address, the highest first.
pub(crate) fn words_of(number: u128) -> [u16; 8]
    ensures { result ≡ reverse (lowest_digits 8 65536 number) }
{
    let (rest, eighth) = last_word(number);
    let (rest, seventh) = last_word(rest);
    let (rest, sixth) = last_word(rest);
    let (rest, fifth) = last_word(rest);
    let (rest, fourth) = last_word(rest);
    let (rest, third) = last_word(rest);
    let (rest, second) = last_word(rest);
    let (_rest, first) = last_word(rest);
    [first, second, third, fourth, fifth, sixth, seventh, eighth]
}

// The words before the last, as a number, and the last.
fn last_word(number: u128) -> (u128, u16)
    ensures rest { result.0 ≡ number / 65536 }
    ensures last { result.1 ≡ number % 65536 }
{
    (number / 65536, (number % 65536) as u16)
}

/// The longest run of zeros, the first where two are equal.
pub(crate) fn longest_run(words: &[u16; 8]) -> Run
    ensures longest { run_seen result ≡ longest_in 0 words.now }
    ensures within { result.place + result.long ≤ length words.now }
{
    let mut run = run_at(words, 0);
    for place in 1..8 {
        run = longer(run, run_at(words, place));
    }
    run
}

// The longer of two runs, the first where they are equal.
fn longer(first: Run, other: Run) -> Run
    ensures { run_seen result ≡ longer_of (run_seen first) (run_seen other) }
{
    if first.long < other.long {
        other
    } else {
        first
    }
}

// The run of zeros at a place.
fn run_at(words: &[u16], place: usize) -> Run
    requires { place ≤ length words.now }
    ensures { run_seen result ≡ record { place = place; long = zeros (drop place words.now) } }
{
    Run {
        place,
        long: zeros_first(&words[place..]),
    }
}

// How many zeros the words begin with.
fn zeros_first(words: &[u16]) -> usize
    ensures { result ≡ zeros words.now }
{
    let mut zeros = 0;
    for word in words {
        if *word != 0 {
            return zeros;
        }
        zeros += 1;
    }
    zeros
}
