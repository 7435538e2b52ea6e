//! What follows from how rows are printed, each as the contract of a function that does nothing.
ghost use Rattle.nc_print.specs.Laws.{PrintedIsNamed, PrintedValueIsRead, LeafIsReadBack, LeafListIsReadBack, ContainerIsReadBack, PrintedHoldsNoText, NothingBelowItsEnd, ListEntryIsReadBack, PrintedKeysAreRead, CanonicalIsReadAsItself, PrintedIsMerges, MergesLeaveRows, PrintedRowsAreReadBack};

/// The element of a data node is read as that data node (RFC 7950 6.2.1).
pub fn printed_is_named()
    ensures { PrintedIsNamed }
{}

/// The text of a printed value is read under the bindings of its element.
pub fn printed_value_is_read()
    ensures { PrintedValueIsRead }
{}

/// A printed leaf is read back as its row (RFC 7950 7.6.5), where its value is read back under the bindings
/// of its element.
pub fn leaf_is_read_back()
    ensures { LeafIsReadBack }
{}

/// A printed leaf-list entry is read back as its row (RFC 7950 7.7.8), where its value is read back so.
pub fn leaf_list_is_read_back()
    ensures { LeafListIsReadBack }
{}

/// A printed container is read back as itself (RFC 7950 7.5.7), with what is read back of the elements in it.
pub fn container_is_read_back()
    ensures { ContainerIsReadBack }
{}

/// What is printed is elements alone, without text between them.
pub fn printed_holds_no_text()
    ensures { PrintedHoldsNoText }
{}

/// A row has no elements below the node where its path ends.
pub fn nothing_below_its_end()
    ensures { NothingBelowItsEnd }
{}

/// A printed list entry is read back as itself (RFC 7950 7.8.5), with what is read back of the elements in
/// it.
pub fn list_entry_is_read_back()
    ensures { ListEntryIsReadBack }
{}

/// Keys that are printed first in a list entry are read as they are (RFC 7950 7.8.5).
pub fn printed_keys_are_read()
    ensures { PrintedKeysAreRead }
{}

/// The canonical text of a value is the canonical text of itself, under the bindings of its element (RFC 7950
/// 9.1).
pub fn canonical_is_read_as_itself()
    ensures { CanonicalIsReadAsItself }
{}

/// What is printed of a data tree is read, without a fault, as one merge for each row and for each container
/// without presence that has a row below it (RFC 7950 7.5.7, 7.6.5, 7.7.8 and 7.8.5).
pub fn printed_is_merges()
    ensures { PrintedIsMerges }
{}

/// The merges of a data tree, made one after another where nothing is, leave its rows in their order.
pub fn merges_leave_rows()
    ensures { MergesLeaveRows }
{}

/// Reading what is printed of a configuration as an inline configuration gives its rows (RFC 6241 7.3).
pub fn printed_rows_are_read_back()
    ensures { PrintedRowsAreReadBack }
{}
