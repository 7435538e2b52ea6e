//! What follows from the definitions in `specs/`, each as the contract of a function that does
//! nothing. A call of one makes its law known to the caller.
ghost use Rattle.nc_schema.specs.Laws.{OrderIsStrict, OrderIsTotal, TextNamesOnePath, EmptyIsDataTree, RowsRise, RowsAreOneList, EmptyIsValid, SizeIsLength, BodySpellsOne};

/// Document order is irreflexive and transitive.
pub fn order_is_strict()
    ensures { OrderIsStrict }
{}

/// Of two paths on which the system orders each node, one is before the other, or they are one.
pub fn order_is_total()
    ensures { OrderIsTotal }
{}

/// The text of a path names that path alone, where each key lacks one of the two kinds of quotation
/// mark.
pub fn text_names_one_path()
    ensures { TextNamesOnePath }
{}

/// Without a row there is a data tree.
pub fn empty_is_data_tree()
    ensures { EmptyIsDataTree }
{}

/// Where the system orders every node, each row of a data tree is before all later ones.
pub fn rows_rise()
    ensures { RowsRise }
{}

/// Where the system orders every node, two data trees of the same rows are one list.
pub fn rows_are_one_list()
    ensures { RowsAreOneList }
{}

/// Where nothing has to stand in the schema, a configuration without rows is valid.
pub fn empty_is_valid()
    ensures { EmptyIsValid }
{}

/// The size of a record is the length of its body.
pub fn record_size_is_length()
    ensures { SizeIsLength }
{}

/// A body within the limit spells at most one configuration.
pub fn body_spells_one()
    ensures { BodySpellsOne }
{}
