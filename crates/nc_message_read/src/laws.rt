//! Laws of messages, without code.
ghost use Rattle.nc_message_read.specs.Laws.{OneTree, NoTreeAtFault, WrittenIsRead};

/// A message has one tree.
pub fn one_tree()
    ensures { OneTree }
{}

/// A message with a fault has no tree.
pub fn no_tree_at_fault()
    ensures { NoTreeAtFault }
{}

/// What is written of a tree is read back.
pub fn written_is_read()
    ensures { WrittenIsRead }
{}
