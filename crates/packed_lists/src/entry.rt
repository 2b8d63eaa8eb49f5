//! Where a row lies in the octets of its block.

ghost use Rattle.std.specs.Prelude.{◌≡◌, ℕ, ◌+◌, ◌<◌, ◌≤◌, length, map, get_or};

/// A row without its octets, and where these lie in its block: the owner's first, then those of the data.
#[derive(Clone, Copy)]
pub(crate) struct Entry {
    pub(crate) number: u32,
    pub(crate) ttl: u32,
    pub(crate) start: u16,
    pub(crate) rtype: u16,
    pub(crate) owner_len: u16,
    pub(crate) data_len: u16,
}

/// How many of the entries, whose numbers rise, have this number or a smaller one.
pub(crate) fn count_at_most(entries: &[Entry], number: u32) -> usize
    ensures within { result ≤ length entries.now }
    ensures below { (k : ℕ) → k + 1 ≡ result →
        get_or (map (λ e. e.number) entries.now) k 0 ≤ number }
    ensures above { result < length entries.now →
        number < get_or (map (λ e. e.number) entries.now) result 0 }
{
    let mut low = 0;
    let mut high = entries.len();
    while low < high {
        let middle = low + (high - low) / 2;
        if entries[middle].number <= number {
            low = middle + 1;
        } else {
            high = middle;
        }
    }
    low
}
