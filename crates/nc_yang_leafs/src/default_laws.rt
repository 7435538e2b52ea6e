//! What follows from the definitions.
ghost use Rattle.nc_yang_leafs.specs.DefaultLaws.{DefaultsAreCanonical, DefaultsAreFixed};
ghost use Rattle.nc_yang_leafs.specs.DefaultLaws.{DefaultsKeepRules, LeafHasOneDefault, OutcomeIsCanonical};

/// Where all data nodes have their defaults, none of these breaks a rule.
pub fn defaults_keep_rules()
    ensures { DefaultsKeepRules }
{}

/// A leaf has one default at most (RFC 7950 7.6.4).
pub fn leaf_has_one_default()
    ensures { LeafHasOneDefault }
{}

/// Each default is the canonical text of a value of its type (RFC 7950 7.6.4, 7.7.4, 9.1).
pub fn defaults_are_canonical()
    ensures { DefaultsAreCanonical }
{}

/// So it is in the schema that has them: canonical texts do not depend on defaults.
pub fn outcome_is_canonical()
    ensures { OutcomeIsCanonical }
{}

/// The defaults of a data node are fixed by its statement and those of its type.
pub fn defaults_are_fixed()
    ensures { DefaultsAreFixed }
{}
