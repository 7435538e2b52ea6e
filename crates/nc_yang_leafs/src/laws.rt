//! What follows from the definitions.
ghost use Rattle.nc_yang_leafs.specs.Laws.{TypesAreProper};

/// Where leafs and leaf-lists have the types that their `type` statements mean, each has a type of the table,
/// the types of the table name types, data nodes and identities of the schema, and a leafref turns down at a
/// node above its leaf.
pub fn types_are_proper()
    ensures { TypesAreProper }
{}
