//! What prefixes stand for in the texts of modules.
ghost use Rattle.std.specs.Prelude.{◌≡◌, ◌++◌, ◌∷◌, [], List, map, IfOk, OnOk};
ghost use Rattle.nc_yang_words.specs.declared.statement.Statement.{Statement as TheStatement};
ghost use Rattle.nc_yang_scopes.specs.Prefixes as words;

use crate::texts::{root_of, space_at};
use nc_names::{Bound, Many, Memory, Text};
use nc_yang_scopes::Scopes;
use nc_yang_statements::{Keyword, is_same_keyword, kind, name, part};
use nc_yang_words::Statement;
use std::alloc::Global;

// Puts the prefix that a module or an import says at the end; it stands for the namespace of a text.
fn push_prefix(
    alloc: Global,
    spaces: &[Text],
    text: usize,
    statement: &Statement,
    found: &mut Many<Bound>,
) -> Result<(), Memory>
    ensures { OnOk result ((texts : List TheStatement) → spaces.now ≡ map words.namespace_in texts →
        found.new ≡ found.old ++ words.prefix_bound texts text statement.now) }
{
    if let Some(prefix) = part(statement.below.as_slice(), Keyword::Prefix) {
        found.push(Bound {
            prefix: Text::from_text(alloc, name(prefix))?,
            space: space_at(alloc, spaces, text)?,
        })?;
    }
    Ok(())
}

// Puts the prefix of a statement at the end, if it is an import whose module is there.
fn push_import<'a>(
    alloc: Global,
    scopes: &Scopes<'a>,
    spaces: &[Text],
    statement: &'a Statement,
    found: &mut Many<Bound>,
) -> Result<(), Memory>
    requires { spaces.now ≡ map words.namespace_in scopes.now.texts }
    ensures { OnOk result (found.new ≡ found.old ++ words.import_bounds scopes.now.texts
        (statement.now ∷ [])) }
{
    if !is_same_keyword(Keyword::Import, kind(statement)) {
        return Ok(());
    }
    match scopes.text_of(name(statement)) {
        Some(text) => push_prefix(alloc, spaces, text, statement, found),
        None => Ok(()),
    }
}

// Puts the prefixes of imports at the end.
fn push_imports<'a>(
    alloc: Global,
    scopes: &Scopes<'a>,
    spaces: &[Text],
    among: &'a [Statement],
    found: &mut Many<Bound>,
) -> Result<(), Memory>
    requires { spaces.now ≡ map words.namespace_in scopes.now.texts }
    ensures { OnOk result (found.new ≡ found.old ++ words.import_bounds scopes.now.texts among.now) }
{
    for statement in among {
        push_import(alloc, scopes, spaces, statement, found)?;
    }
    Ok(())
}

/// The prefixes of a text, with the namespaces for which they stand: no prefix and that of its own module,
/// then those of its imports (RFC 7950 7.1.4, 7.1.5). The namespaces of all texts are given; where they are
/// shared texts, no bytes of them are copied.
pub fn prefixes<'a>(
    alloc: Global,
    scopes: &Scopes<'a>,
    spaces: &[Text],
    text: usize,
) -> Result<Many<Bound>, Memory>
    requires { spaces.now ≡ map words.namespace_in scopes.now.texts }
    ensures { IfOk result (λ it. it ≡ words.prefixes_in scopes.now.texts text) }
{
    let mut found = Many::new(alloc);
    found.push(Bound {
        prefix: Text::new(alloc),
        space: space_at(alloc, spaces, text)?,
    })?;
    if let Some(root) = root_of(scopes, text) {
        push_prefix(alloc, spaces, text, root, &mut found)?;
        push_imports(alloc, scopes, spaces, root.below.as_slice(), &mut found)?;
    }
    Ok(found)
}

/// The prefixes of each text, with the namespaces for which they stand. The namespaces of all texts are
/// given.
pub fn all_prefixes<'a>(
    alloc: Global,
    scopes: &Scopes<'a>,
    spaces: &[Text],
) -> Result<Many<Many<Bound>>, Memory>
    requires { spaces.now ≡ map words.namespace_in scopes.now.texts }
    ensures { IfOk result (words.ArePrefixes scopes.now.texts) }
{
    let mut all = Many::new(alloc);
    for text in 0..scopes.texts() {
        all.push(prefixes(alloc, scopes, spaces, text)?)?;
    }
    Ok(all)
}
