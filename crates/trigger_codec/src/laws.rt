//! Laws of triggers. Each function is its clauses, and does nothing.

ghost use Rattle.std.specs.Prelude.{◌≡◌, ◌⊎◌, ℕ, List, Ok};
ghost use Rattle.dns_name.specs.Labels.{Name};
ghost use Rattle.trigger_codec.specs.Canonical.{canonical_owner, word_labels};
ghost use Rattle.trigger_codec.specs.Decode as decode;
ghost use Rattle.trigger_codec.specs.Runs.{HasZz, HasNoZz};
ghost use Rattle.trigger_codec.specs.declared.trigger.Trigger.{Trigger};

use dns_name::laws::names_that_are_alike;

/// The canonical owner of a trigger that was read, from whatever owner, names this trigger in the zone.
pub fn a_trigger_is_read_back()
    ensures { (owner origin : Name) (t : Trigger) (name : Name) →
        decode.trigger owner origin ≡ Ok t → canonical_owner t origin ≡ Ok name →
        decode.trigger name origin ≡ Ok t }
{
    names_that_are_alike();
}

/// The words of an address of IP version 6, the highest first, are each written, but for the longest run of
/// two or more zero words, which `zz` stands for: the first of those that are equally long.
pub fn zz_stands_for_the_first_longest_run()
    ensures { (words : List ℕ) →
        HasZz words (word_labels words) ⊎ HasNoZz words (word_labels words) }
{}
