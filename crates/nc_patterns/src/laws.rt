//! Laws of the definitions. None of these functions does anything.
ghost use Rattle.std.specs.Prelude.{ℕ, List, Bool};
ghost use Rattle.nc_patterns.specs.Classes.{Member, IsReadAsClass};
ghost use Rattle.nc_patterns.specs.Laws.{SpellPattern, AreTranslated, AreFaulty, AreJudged, StandsForItself, TokensMean};

/// The tokens of a pattern spell it, from its first character to its last.
pub fn tokens_spell_pattern()
    ensures { (pattern : List ℕ) → SpellPattern pattern }
{}

/// Patterns and their translations.
pub fn patterns_are_translated()
    ensures { AreTranslated }
{}

/// Patterns that are not read, and the places of their first faults.
pub fn faults_have_places()
    ensures { AreFaulty }
{}

/// Patterns, and texts that they admit or not.
pub fn texts_are_judged()
    ensures { AreJudged }
{}

/// A character that stands for itself is the same to the crate `regex`, whatever follows it, outside
/// classes and within them.
pub fn characters_stand_for_themselves()
    ensures { (c : ℕ) → StandsForItself c }
{}

/// What other tokens are to the crate `regex`, as they are written.
pub fn tokens_mean()
    ensures { TokensMean }
{}

/// A class without categories is to the crate `regex` the characters of its members, or all others,
/// whatever follows it.
pub fn classes_mean()
    ensures { (negated : Bool) (m : Member) (ms : List Member) (t : List ℕ) →
        IsReadAsClass negated m ms t }
{}
