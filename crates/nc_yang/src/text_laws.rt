//! What follows from how texts are read, each as the contract of a function that does nothing.
ghost use Rattle.nc_yang.specs.TextLaws.{ReadOneWay, ReadOrFaulty};

/// Texts that are read to their statements have no fault that keeps them from it, and no other statements.
pub fn read_one_way()
    ensures whole { ReadOrFaulty }
    ensures one { ReadOneWay }
{}
