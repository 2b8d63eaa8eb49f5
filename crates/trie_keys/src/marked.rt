//! A value with its mark.

/// A value that stands in a trie, with its mark.
#[derive(Clone, Copy, Drop)]
pub struct Marked<N, M> {
    /// The value.
    pub value: N,
    /// Its mark.
    pub mark: M,
}
