//! Path texts in replies.
ghost use Rattle.std.specs.Prelude.{◌≡◌, ◌++◌, Bool, IfOk};
ghost use Rattle.nc_schema.specs.PathTexts.{path_text_of};
ghost use Rattle.nc_protocol.specs.Reply as reply;

use crate::built::text_parts;
use nc_message::{Elem, Part};
use nc_names::{Boxed, Many, Memory, Path, QName, Text};
use nc_print::path_bounds;
use nc_schema::Schema;
use std::alloc::Global;

// The text of a path.
fn path_text(alloc: Global, schema: &Schema, path: &Path) -> Result<Text, Memory>
    ensures { IfOk result (λ it. it ≡ path_text_of schema.now path.now) }
{
    let mut text = Text::new(alloc);
    schema.path_text(path, &mut text)?;
    Ok(text)
}

/// An element round the text of a path.
pub(crate) fn path_part(
    alloc: Global,
    schema: &Schema,
    name: QName,
    path: &Path,
) -> Result<Part, Memory>
    ensures { IfOk result (λ it. it ≡ reply.path_part schema.now name path.now) }
{
    let text = path_text(alloc, schema, path)?;
    let elem = Elem {
        name,
        bounds: path_bounds(alloc, schema, path)?,
        attrs: Many::new(alloc),
        parts: text_parts(alloc, text.as_str())?,
    };
    Ok(Part::Child(Boxed::new(alloc, elem)?))
}
