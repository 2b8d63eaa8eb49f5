//! What became of the jobs of a run.

ghost use Rattle.std.specs.Prelude.{◌≡◌, ◌+◌};

/// What became of the jobs of a run, which alone makes it. Each job stands in `jobs`, and in one of the others. Where `jobs` stands
/// at 2^64 - 1, no number rises any more.
#[derive(Clone, Copy, Debug, PartialEq, Eq)]
#[non_exhaustive]
pub struct Report {
    pub jobs: u64,
    pub replies: u64,
    pub silent: u64,
    pub memory: u64,
    pub failed: u64,
    pub ghost sum: { jobs ≡ replies + silent + memory + failed },
}
