//! The statements `module` of texts, and their namespaces.
ghost use Rattle.std.specs.Prelude.{◌≡◌, List, slice_get, map, IfOk};
ghost use Rattle.std.specs.Option.{option_copied};
ghost use Rattle.nc_yang_words.specs.declared.statement.Statement.{Statement as TheStatement};
ghost use Rattle.nc_yang_scopes.specs.Prefixes.{namespace_at, namespace_in};

use nc_names::{Copies, Many, Memory, Text};
use nc_yang_scopes::Scopes;
use nc_yang_statements::{Keyword, name, part};
use nc_yang_words::Statement;
use std::alloc::Global;

/// The statement `module` of a text, or `None` past the last text.
pub(crate) fn root_of<'a>(scopes: &Scopes<'a>, text: usize) -> Option<&'a Statement>
    ensures { option_copied result ≡ slice_get scopes.now.texts text }
{
    scopes.statement(scopes.root(text)?)
}

/// The namespace of a module.
pub(crate) fn namespace_in(root: &Statement) -> &str
    ensures { result.now ≡ namespace_in root.now }
{
    match part(root.below.as_slice(), Keyword::Namespace) {
        Some(found) => name(found),
        None => "",
    }
}

/// The namespace of the module of a text, by those of all. It copies no bytes of a text that is shared.
pub(crate) fn space_at(alloc: Global, spaces: &[Text], text: usize) -> Result<Text, Memory>
    ensures { IfOk result (λ it. (texts : List TheStatement) → spaces.now ≡ map namespace_in texts →
        it ≡ namespace_at texts text) }
{
    match spaces.get(text) {
        Some(space) => space.copy(),
        None => Ok(Text::new(alloc)),
    }
}

// The namespace of the module of a text.
fn namespace_of<'a>(alloc: Global, scopes: &Scopes<'a>, text: usize) -> Result<Text, Memory>
    ensures { IfOk result (λ it. it ≡ namespace_at scopes.now.texts text) }
{
    match root_of(scopes, text) {
        Some(root) => Text::from_text(alloc, namespace_in(root)),
        None => Ok(Text::new(alloc)),
    }
}

/// The namespaces of the modules of all texts (RFC 7950 7.1.3), each a text that many can share.
pub fn namespaces<'a>(alloc: Global, scopes: &Scopes<'a>) -> Result<Many<Text>, Memory>
    ensures { IfOk result (λ it. it ≡ map namespace_in scopes.now.texts) }
{
    let mut spaces = Many::new(alloc);
    for text in 0..scopes.texts() {
        spaces.push(namespace_of(alloc, scopes, text)?)?;
    }
    Ok(spaces)
}
