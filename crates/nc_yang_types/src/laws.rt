//! Laws: what follows of the definitions that the contracts cite.
ghost use Rattle.nc_yang_types.specs.Laws.{BitsAreApart, BitsAscend, NarrowedGives, OwnGives, RestrictionsNarrow};

/// A range or a length admits no number that its base does not (RFC 7950 9.2.4, 9.4.4).
pub fn restrictions_narrow()
    ensures { RestrictionsNarrow }
{}

/// A built-in type that needs no other name has an entry where it breaks no rule.
pub fn own_gives()
    ensures { OwnGives }
{}

/// A type over another has an entry where it breaks no rule.
pub fn narrowed_gives()
    ensures { NarrowedGives }
{}

/// Bits stand in the order of their positions, each position once (RFC 7950 9.7.4.2).
pub fn bits_ascend()
    ensures { BitsAscend }
{}

/// The names of the bits of a type that breaks no rule are apart (RFC 7950 9.7.4).
pub fn bits_are_apart()
    ensures { BitsAreApart }
{}
