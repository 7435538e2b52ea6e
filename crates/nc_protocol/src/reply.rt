//! The reply to a request, of which the rows of a configuration need not be elements yet.
ghost use Rattle.std.specs.Prelude.{◌≡◌};
ghost use Rattle.std.specs.Option.{option_copied};
ghost use Rattle.nc_protocol.specs.Printed.{printed};
ghost use Rattle.nc_protocol.specs.Reply.{shown_in, with_data};

use nc_message::Tree;
use nc_schema::Schema;
use nc_tree::Config;
use std::alloc::Global;
use std::marker::Model;
use std::sync::Arc;

/// Rows of a configuration, to be shown as the elements of `data`.
#[derive(Drop)]
pub struct Shown {
    /// The schema that they are rows of.
    pub schema: Arc<Schema, Global>,
    /// The rows, in document order.
    pub rows: Config,
}

/// An `rpc-reply` (RFC 6241 4.2), seen as its tree. Where it shows rows they are kept as rows, and become
/// text where the reply is written.
#[derive(Drop)]
pub struct Reply {
    tree: Tree,
    shown: Option<Shown>,
}

impl Model for Reply {
    ghost use Rattle.std.specs.Coded.{codes};
    ghost use Rattle.nc_message.specs.contracts.tree.Part as part;
    ghost use Rattle.nc_message.specs.declared.tree.Tree.{Tree};
    ghost use Rattle.nc_protocol.specs.Reply.{shown_in};

    ghost Value = { Tree };

    ghost coded = { Prim.hlevel (codes, part.the_row.coded) };

    ghost view = { λ r. shown_in r.tree r.shown };
}

impl Reply {
    /// The reply that is this tree.
    pub fn plain(tree: Tree) -> Reply
        ensures { result ≡ tree }
    {
        Reply { tree, shown: None }
    }

    /// The reply that is this tree but for what stands in it, which is `data` with these rows (RFC 6241 7.1,
    /// 7.7).
    pub fn shown(tree: Tree, schema: Arc<Schema, Global>, rows: Config) -> Reply
        ensures { result ≡ with_data tree (printed schema.value rows) }
    {
        Reply {
            tree,
            shown: Some(Shown { schema, rows }),
        }
    }

    /// The tree, and the rows that are to stand in it, if it shows any.
    pub fn held(&self) -> (&Tree, Option<&Shown>)
        ensures { shown_in result.0.now (option_copied result.1) ≡ self.now }
    {
        (&self.tree, self.shown.as_ref())
    }
}
