//! What follows from the definitions in `specs/`, each as the contract of a function that does
//! nothing. A call of one makes its law known to the caller.
ghost use Rattle.nc_protocol.specs.Laws.{ChildIsElement, BelowIsBelow, PlacesAreInOrder, EditKeepsTree, EditKeepsConfiguration, EditLeaves, EditsKeepTree, RowsStandInOrder, RowsStandWhole, PayloadFits, PayloadKeepsConfiguration, InlineIsConfiguration, SelectedIsDataTree, SelectedStandsInRows, EmptyFilterSelectsNothing, SelectionNodeSelectsSubtree, EditAsks, EntryLands};
ghost use Rattle.nc_protocol.specs.RequestLaws.{DecodedIsProper, CauseHasItsNames, ReplyRepeatsRequest};

/// The edits of a child element, as a part of what it stands in, are those of the element.
pub fn child_is_element()
    ensures { ChildIsElement }
{}

/// The edits of a payload fit the schema, and bring canonical values.
pub fn payload_fits()
    ensures { PayloadFits }
{}

/// The edits of a payload leave a configuration, where they are made in one.
pub fn payload_keeps_configuration()
    ensures { PayloadKeepsConfiguration }
{}

/// The rows of an inline configuration are a configuration.
pub fn inline_is_configuration()
    ensures { InlineIsConfiguration }
{}

/// An edit that fits the schema leaves a data tree, where it is made in one.
pub fn edit_keeps_tree()
    ensures { EditKeepsTree }
{}

/// An edit that fits the schema and brings canonical values leaves a configuration, where it is made
/// in one.
pub fn edit_keeps_configuration()
    ensures { EditKeepsConfiguration }
{}

/// At and below its node an edit that fits the schema leaves the rows that its action gives, and
/// elsewhere those that are there, but for the rows of other cases.
pub fn edit_leaves()
    ensures { EditLeaves }
{}

/// What an edit that fits the schema and is made asked for: the right to create, update or delete each row
/// that it changed.
pub fn edit_asks()
    ensures { EditAsks }
{}

/// Where an edit puts an entry that the user orders: the entries of its list stand as its place says.
pub fn entry_lands()
    ensures { EntryLands }
{}

/// Several edits that fit the schema leave a data tree, under every error-option.
pub fn edits_keep_tree()
    ensures { EditsKeepTree }
{}

/// The test for a node at or below another is what it says.
pub fn below_is_below()
    ensures { BelowIsBelow }
{}

/// Where the system orders each node on a path, rows are placed in document order.
pub fn places_are_in_order()
    ensures { PlacesAreInOrder }
{}

/// The rows of a data tree stand in document order, which is the user's where the user orders entries.
pub fn rows_stand_in_order()
    ensures { RowsStandInOrder }
{}

/// In a data tree no row lacks an entry or a container above it, and no two rows are of two cases of a
/// choice.
pub fn rows_stand_whole()
    ensures { RowsStandWhole }
{}

/// The rows that a filter keeps are rows of the configuration, in their order.
pub fn selected_stands_in_rows()
    ensures { SelectedStandsInRows }
{}

/// A filter without an element selects nothing (RFC 6241 6.4.2).
pub fn empty_filter_selects_nothing()
    ensures { EmptyFilterSelectsNothing }
{}

/// A selection node at the top selects all rows at and below the nodes of its name (RFC 6241 6.2.4).
pub fn selection_node_selects_subtree()
    ensures { SelectionNodeSelectsSubtree }
{}

/// What a filter keeps of a data tree is a data tree.
pub fn selected_is_data_tree()
    ensures { SelectedIsDataTree }
{}

/// What a message asks for is a proper request.
pub fn decoded_is_proper()
    ensures { DecodedIsProper }
{}

/// The cause for which a proper request asks for nothing has the names that its reply needs.
pub fn cause_has_its_names()
    ensures { CauseHasItsNames }
{}

/// A reply is an `rpc-reply` with the attributes of the `rpc`, and `data` holds the selected rows alone.
pub fn reply_repeats_request()
    ensures { ReplyRepeatsRequest }
{}
