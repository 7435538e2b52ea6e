//! The modules of texts.
ghost use Rattle.std.specs.Prelude.{◌≡◌, ◌++◌, ◌+◌, ◌<◌, ◌^◌, ◌∷◌, [], Some, length, slice_get, IfOk, OnOk};
ghost use Rattle.nc_schema.specs.Children.{HasRoom};
ghost use Rattle.nc_yang_words.specs.declared.statement.Statement.{Statement as TheStatement};
ghost use Rattle.nc_yang_nodes.specs.FeaturesOn.{is_on};
ghost use Rattle.nc_yang_data.specs.Modules as modules;

use crate::module::module_of;
use crate::texts::root_of;
use nc_names::Memory;
use nc_schema::Schema;
use nc_yang_nodes::Features;
use nc_yang_scopes::Scopes;
use std::alloc::Global;

// Adds the module of a text.
fn add_module<'a>(
    alloc: Global,
    scopes: &Scopes<'a>,
    features: &Features<'a>,
    text: usize,
    schema: &mut Schema,
) -> Result<(), Memory>
    requires { HasRoom schema.old.modules }
    ensures { OnOk result ((root : TheStatement) → slice_get scopes.now.texts text ≡ Some root → schema.new
        ≡ record schema.old {
          modules
              = schema.old.modules ++ modules.module_of (is_on features.now) text root ∷ [];
        }) }
{
    if let Some(root) = root_of(scopes, text) {
        schema.add_module(module_of(alloc, features, text, root)?)?;
    }
    Ok(())
}

/// Adds the modules of all texts, each with what it says of itself: its name, its namespace, its latest
/// revision and the features of it that are on (RFC 7950 7.1, 7.1.9, 7.20.1).
pub fn add_modules<'a>(
    alloc: Global,
    scopes: &Scopes<'a>,
    features: &Features<'a>,
    schema: &mut Schema,
) -> Result<(), Memory>
    requires { length schema.old.modules + length scopes.now.texts < 2 ^ 32 }
    ensures { OnOk result (schema.new ≡ record schema.old {
      modules
          = schema.old.modules ++ modules.modules_from (is_on features.now) 0 scopes.now.texts;
    }) }
{
    for text in 0..scopes.texts() {
        add_module(alloc, scopes, features, text, schema)?;
    }
    Ok(())
}
