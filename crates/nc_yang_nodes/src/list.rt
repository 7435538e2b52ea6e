//! The identities of texts by their numbers.
ghost use Rattle.std.specs.Prelude.{◌<◌, length, IfOk};
ghost use Rattle.nc_yang_scopes.specs.Numbers.{AreNumbers};
ghost use Rattle.nc_yang_nodes.specs.Identities as words;

use nc_names::{Many, Memory};
use nc_yang_scopes::{Scopes, parts_of};
use nc_yang_statements::Keyword;
use std::alloc::Global;

// The identities that the module of a text defines.
fn defined_in(alloc: Global, scopes: &Scopes, text: usize) -> Result<Many<usize>, Memory>
    requires { text < length scopes.now.texts }
    ensures { IfOk result (λ it. AreNumbers scopes.now.located it (words.defined_in scopes.now.texts text)) }
{
    match scopes.root(text) {
        Some(root) => parts_of(alloc, scopes, root, Keyword::Identity),
        None => Ok(Many::new(alloc)),
    }
}

/// Those of all modules, in the order of the texts.
pub(crate) fn identities(alloc: Global, scopes: &Scopes) -> Result<Many<usize>, Memory>
    ensures { IfOk result (λ it. AreNumbers scopes.now.located it (words.identities scopes.now.texts)) }
{
    let mut list = Many::new(alloc);
    for text in 0..scopes.texts() {
        let more = defined_in(alloc, scopes, text)?;
        list.append(more)?;
    }
    Ok(list)
}
