//! The text of a tree.
#![tactic(auto, using(nc_names::proofs::Extending::extends_self, nc_names::proofs::Extending::extends_more))]

ghost use Rattle.std.specs.Prelude.{◌≡◌, ◌++◌, OnOk, OnErr};
ghost use Rattle.nc_names.specs.Appending.{Appends};
ghost use Rattle.nc_message.specs.Marks.{empty_end};
ghost use Rattle.nc_message.specs.Unmarked.{HoldsNoMark};
ghost use Rattle.nc_message.specs.Written.{end_of, written_part, written_elem, written};

use crate::escape::write_chars;
use crate::start::push_start;
use crate::{Elem, Part, Tree, marks};
use nc_names::{Bytes, Memory, QName};

/// Appends the text of a message: with no declaration and no white space added, each element in
/// its default namespace, and the prefixes that its attributes or its text use declared on it. It
/// is XML of which the tree is the reading (XML 1.0, 2.1; Namespaces in XML 1.0, 3), where the
/// tree's names and characters are allowed.
pub fn write(tree: &Tree, out: &mut Bytes) -> Result<(), Memory>
    ensures ok { OnOk result (out.new ≡ out.old ++ written tree.now) }
    ensures err { OnErr result (out.new ≡ out.old) }
{
    let before = out.len();
    let result = write_elem("", &tree.root, out);
    if result.is_err() {
        out.truncate(before);
    }
    result
}

#[cycle(write)]
fn write_elem(above: &str, elem: &Elem, out: &mut Bytes) -> Result<(), Memory>
    ensures { Appends result out.old out.new (written_elem above.now elem.now) }
{
    push_start(above, elem, out)?;
    if elem.parts.is_empty() {
        return write_empty_end(out);
    }
    out.push(b'>')?;
    for part in elem.parts.as_slice() {
        write_part(elem.name.space.as_str(), part, out)?;
    }
    write_end(&elem.name, out)
}

#[cycle(write)]
fn write_part(space: &str, part: &Part, out: &mut Bytes) -> Result<(), Memory>
    ensures { Appends result out.old out.new (written_part space.now part.now) }
{
    match part {
        Part::Child(elem) => write_elem(space, elem.get(), out),
        Part::Chars(text) => write_chars(text.as_str(), out),
    }
}

/// Appends the end of a start tag of an element without content.
pub fn write_empty_end(out: &mut Bytes) -> Result<(), Memory>
    ensures { Appends result out.old out.new empty_end }
{
    out.push_slice(marks::empty_end())
}

/// Appends an end tag.
pub fn write_end(name: &QName, out: &mut Bytes) -> Result<(), Memory>
    ensures { Appends result out.old out.new (end_of name.now) }
{
    out.push_slice(marks::end_tag())?;
    out.push_slice(name.name.as_str().as_bytes())?;
    out.push(b'>')
}

/// A law: where its names have neither `<` nor `>`, as no name of XML has, the text of a message
/// never holds the end-of-message mark `]]>]]>` (RFC 6242 4.3).
pub fn written_holds_no_mark()
    ensures { HoldsNoMark }
{}
