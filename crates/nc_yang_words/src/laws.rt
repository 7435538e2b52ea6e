//! Laws of what a text spells: a function here takes nothing and does nothing, and its contract is
//! the law.
ghost use Rattle.nc_yang_words.specs.Parts.{TextIsInParts};
ghost use Rattle.nc_yang_words.specs.Laws.{SpellsOrFails, NeverBoth, OneTree, OneFault, LinesAreCounted, EndIsCounted};

/// A text spells a tree or has a fault at a line, and never both: one tree, or a fault at one line. So
/// `statements` has one answer for each text, want of memory aside.
pub fn one_reading()
    ensures some { SpellsOrFails }
    ensures never_both { NeverBoth }
    ensures one_tree { OneTree }
    ensures one_fault { OneFault }
{}

/// The line of a place in a text is 1 and the number of LF before it, so far as a line is counted. So
/// the fault of a text that ends too early is at the line that is 1 and the number of all its LF.
pub fn lines_are_counted()
    ensures lines { LinesAreCounted }
    ensures end { EndIsCounted }
{}

/// The characters of a text are its parts, one after another: white space, comments and tokens. The
/// tokens of the text are those of the parts, each at its place.
pub fn text_is_in_parts()
    ensures { TextIsInParts }
{}
