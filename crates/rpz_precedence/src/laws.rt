//! Laws of precedence. Each function is its clauses, and does nothing.

ghost use Rattle.std.specs.Prelude.{◌≡◌, ℕ, List, Bool, true, false, IsTrue, Option};
ghost use Rattle.std.specs.Ordering.{is_lt};
ghost use Rattle.dns_name.specs.Labels.{Name};
ghost use Rattle.dns_name.specs.Alike.{PlainPattern, matches};
ghost use Rattle.ip_prefix.specs.Prefix.{PlainPrefix, prefix_order};
ghost use Rattle.qname_index.specs.Best.{pattern_order};
ghost use Rattle.trigger_codec.specs.Bases.{IsTrigger};
ghost use Rattle.trigger_codec.specs.declared.trigger.Trigger.TheVariants as triggers;
ghost use Rattle.rpz_precedence.specs.Best.{AreHits, IsBest, PlainHit, best};
ghost use Rattle.rpz_precedence.specs.Rank.{PlainRank, precedes, rank_at};

use dns_name::laws::{names_of_equal_octets_are_equal, names_that_are_alike};

/// Of two ranks one precedes the other, or they are one, where the patterns are of names in lower case. No rank precedes
/// itself, and what precedes a rank precedes all that this one precedes. What doesn't precede a rank doesn't precede one that
/// this rank doesn't follow.
pub fn the_order_of_ranks_is_total()
    ensures total { (a b : PlainRank) → IsTrigger a.trigger → IsTrigger b.trigger →
        precedes a b ≡ false → precedes b a ≡ false → a ≡ b }
    ensures transitive { (a b c : PlainRank) → precedes a b ≡ true → precedes b c ≡ true →
        precedes a c ≡ true }
    ensures not_itself { (a : PlainRank) → precedes a a ≡ false }
    ensures not_before { (a b c : PlainRank) → precedes b a ≡ false → precedes c b ≡ false →
        precedes c a ≡ false }
{
    names_of_equal_octets_are_equal();
}

/// The best hit is one that no other precedes, and there is one wherever anything is hit. It is the only one where no two
/// hits are at one rank.
pub fn the_best_hit_is_the_one_that_nothing_precedes()
    ensures is { (hits : List PlainHit) → IsBest hits (best hits) }
    ensures only { (hits : List PlainHit) (found : Option PlainHit) → AreHits hits →
        IsBest hits found → found ≡ best hits }
{
    the_order_of_ranks_is_total();
}

/// The entries of an index of one kind of trigger, at one position and in one zone, are in order of precedence, so that the
/// first entry that is hit precedes the others. An index of patterns of names of servers isn't, since several servers may be
/// hit, and of their patterns the longest goes first; of the patterns that are about one server, the index has that first
/// which precedes the others.
pub fn an_index_is_in_order_of_precedence()
    ensures client_ip { (position zone : ℕ) (p q : PlainPrefix) →
        precedes (rank_at position zone (triggers.ClientIp p))
        (rank_at position zone (triggers.ClientIp q))
        ≡ is_lt (prefix_order p q) }
    ensures qname { (position zone : ℕ) (p q : PlainPattern) →
        precedes (rank_at position zone (triggers.Qname p))
        (rank_at position zone (triggers.Qname q))
        ≡ is_lt (pattern_order p q) }
    ensures response_ip { (position zone : ℕ) (p q : PlainPrefix) →
        precedes (rank_at position zone (triggers.ResponseIp p))
        (rank_at position zone (triggers.ResponseIp q))
        ≡ is_lt (prefix_order p q) }
    ensures ns_dname { (position zone : ℕ) (p q : PlainPattern) (server : Name) →
        IsTrue (matches p server) → IsTrue (matches q server) → is_lt (pattern_order q p) ≡ false →
        precedes (rank_at position zone (triggers.NsDname q))
        (rank_at position zone (triggers.NsDname p))
        ≡ false }
    ensures ns_ip { (position zone : ℕ) (p q : PlainPrefix) →
        precedes (rank_at position zone (triggers.NsIp p)) (rank_at position zone (triggers.NsIp q))
        ≡ is_lt (prefix_order p q) }
{
    names_that_are_alike();
}
