//! Laws: what follows of the definitions that the contracts cite.
ghost use Rattle.nc_yang.specs.Laws.{DataTypesMean, DefaultsAreCanonical, ModulesAreProper, NeverBoth, OneSchema};
ghost use Rattle.nc_yang.specs.Laws.{PlannedTypesMean, RulesRefuseNothing, SameConfigurations};
ghost use Rattle.nc_yang.specs.Laws.{SameViolations, SchemasAreProper, TypesMean};

/// In modules that keep all rules each `type` statement that is looked at means something, and so does each
/// member of a union, down to the last (RFC 7950 7.3, 7.4, 9.12).
pub fn types_mean()
    ensures { TypesMean }
{}

/// In modules that keep all rules each data node of a plan that is a leaf or a leaf-list has a `type`
/// statement, and this means something, with all members of a union (RFC 7950 7.6.3, 7.7.3).
pub fn planned_types_mean()
    ensures { PlannedTypesMean }
{}

/// The same of each data node of a schema that is a leaf or a leaf-list (RFC 7950 7.6.3, 7.7.3).
pub fn data_types_mean()
    ensures { DataTypesMean }
{}

/// Modules that keep all rules have identifiers for names and have namespaces, and no two have one of either
/// (RFC 7950 5.1, 5.3, 7.1).
pub fn modules_are_proper()
    ensures { ModulesAreProper }
{}

/// The schema that modules define is a proper one: its names, namespaces, parents, keys, cases, unique leafs,
/// types and defaults are as those of a schema have to be (RFC 7950 5.1, 5.3, 6.2, 7.5 to 7.9, 9).
pub fn schemas_are_proper()
    ensures { SchemasAreProper }
{}

/// Each default in the schema that modules define is the canonical text of a value of its leaf or leaf-list
/// (RFC 7950 7.6.4, 7.7.4, 9.1).
pub fn defaults_are_canonical()
    ensures { DefaultsAreCanonical }
{}

/// Modules that break a rule have no schema.
pub fn never_both()
    ensures { NeverBoth }
{}

/// A broken rule never has the reason PatternRefused, so this comes only where a maker refused a pattern.
pub fn rules_refuse_nothing()
    ensures { RulesRefuseNothing }
{}

/// Modules have one schema with the features that lines name: the same modules, choices, data nodes, defaults,
/// values and references. Its types may be numbered in several ways.
pub fn one_schema()
    ensures { OneSchema }
{}

/// What is a configuration of the schema that modules define is one of each schema that they define, whatever
/// the numbers of its types (RFC 7950 7.5 to 7.9, 9.1).
pub fn same_configurations()
    ensures { SameConfigurations }
{}

/// Such a configuration breaks the same constraints of both schemas, in the same order: what has to stand in
/// it, and where its references lead (RFC 7950 8.1).
pub fn same_violations()
    ensures { SameViolations }
{}
