//! The list of what was published, which exists in the proofs alone, and the beginnings of it that threads have seen.

ghost use Rattle.std.specs.Prelude.{◌≡◌, ◌<◌, ◌^◌, ◌++◌, ◌∷◌, [], length, IsTrue, IfSome, ◌↔◌, ◌≤◌};
ghost use mathlib.Core.List.{IsPrefix};

use logbook::{Gain, Offer, Plain, Play, Rule, Seen, Start, Word};
use policy_snapshot::Entry;
use std::marker::{Brand, Model, PhantomData};

/// The rule of the book.
pub struct Law;

impl Rule<Entry, u64> for Law {
    ghost use Rattle.std.specs.Prelude.{[]};
    ghost use base.Fml.{ftrue};
    ghost use Rattle.policy_publish.specs.Rules.{IsKept};

    ghost holds = { λ cells log. IsKept cells log };

    ghost first = { [] };

    ghost hinted = { λ n log. Unit {0} };

    ghost shows = { λ log. [] };

    ghost keeps = { λ names log. ftrue };

    ghost moves = { λ ask before after answer. Unit {0} };
}

/// What a step gives its caller beside the answer.
pub struct Nothing;

impl Gain<Entry, u64> for Nothing {
    ghost use base.Fml.{ftrue};

    ghost after = { λ names about answer. ftrue };
}

/// A step that adds an entry.
pub struct Add;

impl Play<Entry, u64> for Add {
    ghost use Rattle.policy_publish.specs.Rules.{Adds};

    ghost then = { Adds };
}

impl Plain<Entry, Entry, u64> for Add {
    ghost use Rattle.std.specs.Prelude.{None};

    ghost ask = { λ entry. entry };

    ghost state = { λ entry. None };
}

/// Which store it is: the book of its publications, the settings of its zones, the networks whose clients may ask, and how many
/// readers it has. Each call of a program picks it.
pub trait StoreName {
    ghost use Rattle.policy_publish.specs.Stores.{Store};

    ghost store: { Store };
}

impl StoreName for Brand {
    ghost use Rattle.std.specs.Prelude.{[]};

    ghost store = { record {
      book = record { number = 0; log_name = 0; cells_name = 0 };
      settings = [];
      allowed = [];
      readers = 1;
    } };
}

/// Entries that stand in a book from its beginning on, as far as they were seen. It keeps none of them, only their number.
#[derive(Drop)]
pub struct Line {
    count: u64,
    seen: Seen<Entry, u64, Law>,
}

impl Model for Line {
    ghost use Rattle.std.specs.Prelude.{◌≡◌, length};
    ghost use Rattle.policy_publish.specs.Stores.{Listed};

    ghost Value = { Listed };

    ghost view = { λ f. record { book = f.seen.book; entries = f.seen.log } };

    ghost invariant = { λ f. f.count ≡ length f.seen.log };
}

/// A transfer that is to be added to the log of accepted ones. It is only counted here: its records may be moved elsewhere before it is
/// added, and the log has it in contracts alone.
#[derive(Drop)]
pub struct Addition {
    count: u64,
    seen: Seen<Entry, u64, Law>,
    offer: Offer<Entry, u64, Law, Nothing>,
}

impl Model for Addition {
    ghost use Rattle.std.specs.Prelude.{◌≡◌, length, None};
    ghost use Rattle.policy_publish.specs.Stores.{Added};

    ghost Value = { Added };

    ghost view = { λ a. record { book = a.seen.book; entries = a.seen.log; entry = a.offer.ask } };

    ghost invariant = { λ a. (a.count ≡ length a.seen.log) × (a.offer.names ≡ a.seen.names) ×
        (a.offer.state ≡ None) };
}

/// The right to add to a book. Contracts see it as the book.
#[derive(Drop)]
pub struct LogWriter {
    head: Word<Entry, u64, Law>,
}

impl Model for LogWriter {
    ghost use Rattle.std.specs.Prelude.{◌≡◌};
    ghost use Rattle.logbook.specs.Pages.{Book};
    ghost use Rattle.policy_publish.specs.Rules.{head_of};

    ghost Value = { Book };

    ghost view = { λ q. q.head.book };

    ghost invariant = { λ q. q.head ≡ head_of q.head.book };
}

/// A new book, with the line that has seen nothing.
pub(crate) fn open_book() -> (LogWriter, Line)
    ensures { (result.0 ≡ result.1.book) × (result.1.entries ≡ []) }
{
    let (seen, mut first, _second) = Seen::open(Start::alone(), 0, 0);
    let log_writer = LogWriter {
        head: Word::tracked(0, &mut first),
    };
    (log_writer, Line { count: 0, seen })
}

impl Line {
    /// How many entries it has.
    pub fn len(&self) -> u64
        ensures { result ≡ length self.now.entries }
    {
        self.count
    }

    /// A copy.
    pub fn again(&self) -> Line
        ensures { result ≡ self.now }
    {
        Line {
            count: self.count,
            seen: self.seen.again(),
        }
    }

    /// Whether the other begins with this one. Of two lines of one book, one always begins the other.
    pub fn begins(&self, other: &Line) -> bool
        requires { other.now.book ≡ self.now.book }
        ensures begins { IsTrue result → IsPrefix self.now.entries other.now.entries }
        ensures fewer { IsTrue result ↔ (length self.now.entries ≤ length other.now.entries) }
    {
        let mut both = self.seen.again();
        both.learn(&other.seen);
        self.count <= other.count
    }

    /// The longer of two lines, which the other begins.
    pub fn longer(&self, other: &Line) -> Line
        requires { other.now.book ≡ self.now.book }
        ensures book { result.book ≡ self.now.book }
        ensures this { IsPrefix self.now.entries result.entries }
        ensures that { IsPrefix other.now.entries result.entries }
    {
        let mut both = self.seen.again();
        both.learn(&other.seen);
        if self.count < other.count {
            other.again()
        } else {
            self.again()
        }
    }

    /// This entry, to be added behind the line.
    pub fn addition(&self, entry: &Entry) -> Addition
        ensures line { (result.book ≡ self.now.book) × (result.entries ≡ self.now.entries) }
        ensures entry { result.entry ≡ entry.now }
    {
        let seen = self.seen.again();
        let offer = seen.plain::<Nothing, Entry, Add>(entry);
        Addition {
            count: self.count,
            seen,
            offer,
        }
    }
}

impl LogWriter {
    /// The line with its entry behind it. `None` where the book has more than the line.
    pub fn add(&self, addition: Addition) -> Option<Line>
        requires book { addition.book ≡ self.now }
        requires room { length addition.entries < 2 ^ 62 }
        ensures { IfSome result (λ f. (f.book ≡ addition.book) ×
            (f.entries ≡ addition.entries ++ addition.entry ∷ [])) }
    {
        let Addition {
            count,
            mut seen,
            mut offer,
        } = addition;
        let mut pen = seen.no_pen();
        let found = self
            .head
            .compare_exchange::<Add, Nothing>(count, count + 1, &mut seen, &mut offer, &mut pen);
        if found == count {
            Some(Line {
                count: count + 1,
                seen,
            })
        } else {
            None
        }
    }
}

/// A line of the store that N names. Contracts see it as its entries.
#[derive(Drop)]
pub struct Front<N: StoreName> {
    line: Line,
    of: PhantomData<N>,
}

impl<N: StoreName> Model for Front<N> {
    ghost use Rattle.std.specs.Prelude.{◌≡◌, List};
    ghost use Rattle.policy_snapshot.specs.declared.entry.Entry.{Entry};

    ghost Value = { List Entry };

    ghost view = { λ f. f.line.entries };

    ghost invariant = { λ f. f.line.book ≡ N.store.book };
}

impl<N: StoreName> Front<N> {
    pub(crate) fn over(line: Line) -> Front<N>
        requires { line.book ≡ N.store.book }
        ensures { result ≡ line.entries }
    {
        Front {
            line,
            of: PhantomData,
        }
    }

    /// How many entries it has.
    pub fn len(&self) -> u64
        ensures { result ≡ length self.now }
    {
        self.line.len()
    }

    /// A copy.
    pub fn again(&self) -> Front<N>
        ensures { result ≡ self.now }
    {
        Front {
            line: self.line.again(),
            of: PhantomData,
        }
    }

    /// Whether the other begins with this one.
    pub fn begins(&self, other: &Front<N>) -> bool
        ensures begins { IsTrue result → IsPrefix self.now other.now }
        ensures fewer { IsTrue result ↔ (length self.now ≤ length other.now) }
    {
        self.line.begins(&other.line)
    }

    /// The longer of two, which the other begins.
    pub fn longer(&self, other: &Front<N>) -> Front<N>
        ensures this { IsPrefix self.now result }
        ensures that { IsPrefix other.now result }
    {
        Front {
            line: self.line.longer(&other.line),
            of: PhantomData,
        }
    }
}
