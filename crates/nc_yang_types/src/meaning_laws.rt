//! Laws: what follows of the definitions that the contracts cite.
ghost use Rattle.nc_yang_types.specs.MeaningLaws.{MeaningKeepsRules, OneDefault, OneMeaning};

/// A `type` statement means one thing at most.
pub fn one_meaning()
    ensures { OneMeaning }
{}

/// A `type` statement that means something breaks no rule.
pub fn meaning_keeps_rules()
    ensures { MeaningKeepsRules }
{}

/// A type brings one default at most (RFC 7950 7.3.4).
pub fn one_default()
    ensures { OneDefault }
{}
