//! Laws of the cache. Each function is its clauses, and does nothing.

ghost use Rattle.std.specs.Prelude.{◌≡◌, ◌↔◌, ℕ, List, [], Contains, Some, true};
ghost use Rattle.dns_message.specs.declared.question.Question.{Question};
ghost use Rattle.dns_message.specs.Spelling.{IsQuestion};
ghost use Rattle.upstream_link.specs.Fact.{same_question};
ghost use Rattle.upstream_link.specs.Vouched.{PlainLearned, live};
ghost use Rattle.answer_cache.specs.Key.{key_of};
ghost use Rattle.answer_cache.specs.Recent.{AreApart, HaveSameEntries, live_entry, is_about, after_keep, after_look_up};

/// Two questions have one key exactly where their names are alike, and their types and classes the same.
pub fn questions_of_one_key_are_alike()
    ensures { (a b : Question) → IsQuestion a → IsQuestion b →
        (key_of a ≡ key_of b) ↔ (same_question a b ≡ true) }
{}

/// What a look-up finds is an entry of the cache about the question, and live. A look-up keeps all entries, and the same look-up
/// then finds the same.
pub fn a_look_up_moves_an_entry_alone()
    ensures found { (question : Question) (now : ℕ) (entries : List PlainLearned)
        (entry : PlainLearned) →
        live_entry question now entries ≡ Some entry →
        Contains entries entry × (is_about question entry ≡ true) × (live now entry ≡ true) }
    ensures kept { (question : Question) (entries : List PlainLearned) →
        HaveSameEntries (after_look_up question entries) entries }
    ensures again { (question : Question) (now : ℕ) (entries : List PlainLearned) →
        live_entry question now (after_look_up question entries) ≡ live_entry question now entries }
{}

/// No two entries of a cache are about one question: an empty cache has none, and a look-up and what is put in keep it so.
/// A look-up finds the one about its question, if it is live.
pub fn a_cache_has_one_entry_about_a_question()
    ensures none { AreApart [] }
    ensures look_up { (question : Question) (entries : List PlainLearned) → AreApart entries →
        AreApart (after_look_up question entries) }
    ensures keep { (limit : ℕ) (entry : PlainLearned) (entries : List PlainLearned) →
        AreApart entries → AreApart (after_keep limit entry entries) }
    ensures only { (question : Question) (now : ℕ) (entries : List PlainLearned)
        (entry : PlainLearned) → AreApart entries → Contains entries entry →
        is_about question entry ≡ true → live now entry ≡ true →
        live_entry question now entries ≡ Some entry }
{}
