//! Laws about the keys of patterns.

ghost use Rattle.std.specs.Prelude.{◌≡◌};
ghost use Rattle.dns_name.specs.Alike.{PlainPattern};
ghost use Rattle.qname_index.specs.Index.{IsKey};
ghost use Rattle.qname_index.specs.Patterns.{pattern_in};
ghost use Rattle.qname_index.specs.Ranked.{IsPatternKey, pattern_key};

/// The pattern that is read from the key of a pattern is that pattern, and where its base is a name in lower case, the key is one of
/// those of which a trie is made.
pub fn keys_are_of_patterns()
    ensures back { (pattern : PlainPattern) → pattern_in (pattern_key pattern) ≡ pattern }
    ensures key { (pattern : PlainPattern) → IsKey pattern → IsPatternKey (pattern_key pattern) }
{}
