//! A configuration, seen as the list of its rows.
ghost use Rattle.std.specs.Prelude.{◌≡◌, ◌↔◌, [], map, length, slice_get, IfOk, IfSome, IsTrue, OnOk, OnErr};
ghost use Rattle.std.specs.Option.{option_copied};
ghost use Rattle.nc_names.specs.Same.{is_same_rows};
ghost use Rattle.nc_schema.specs.Blocks.{row_at, with_block};
ghost use Rattle.nc_schema.specs.Standing.{block_at};
ghost use Rattle.nc_branches.specs.Branches.{replaced, without_block};
ghost use Rattle.nc_branches.specs.Tallies.{IsTallied};
ghost use Rattle.nc_tree.specs.Rows.{with_row};

use crate::block::{copied_rows, put_block, rows_of_node, shared_rows};
use crate::standing::orders_of;
use nc_branches::{Tree, is_by_user};
use nc_names::{Copies, Many, Memory, Path, Place, Row, Shared, Step};
use nc_schema::Schema;
use std::alloc::Global;
use std::marker::Model;

/// A configuration: contracts see the list of its rows. Copies share all but what changed.
#[derive(Drop)]
pub struct Config {
    alloc: Global,
    tree: Tree,
    /// The entries of lists and leaf-lists that have a row, where no entry has two: where that is known.
    known: Option<Tree>,
}

impl Model for Config {
    ghost use Rattle.std.specs.Prelude.{List};
    ghost use Rattle.nc_names.specs.declared.path.Row.{Row};

    ghost Value = { List Row };

    ghost view = { λ c. c.tree.rows };

    ghost use Rattle.std.specs.Prelude.{IfSome};
    ghost use Rattle.nc_branches.specs.Tallies.{IsTallied};

    ghost invariant = { λ c. IfSome c.known (λ known. IsTallied known.rows c.tree.rows) };
}

impl Config {
    /// The rows, as the tree that keeps them.
    pub(crate) fn tree(&self) -> &Tree
        ensures { result.now.rows ≡ self.now }
    {
        &self.tree
    }

    /// The entries that have a row, where that is known.
    pub(crate) fn known(&self) -> Option<&Tree>
        ensures { IfSome result (λ known. IsTallied known.now.rows self.now) }
    {
        match &self.known {
            Some(known) => Some(known),
            None => None,
        }
    }

    /// The allocator with which it grows.
    pub(crate) fn alloc(&self) -> Global {
        self.alloc
    }

    /// A configuration without rows. It takes no memory until it grows.
    pub fn empty(alloc: Global) -> Config
        ensures { result ≡ [] }
    {
        Config {
            alloc,
            tree: Tree::empty(),
            known: None,
        }
    }

    /// The configuration that has these rows.
    pub fn from_rows(rows: Many<Row>) -> Result<Config, Memory>
        ensures { IfOk result (λ it. it ≡ rows) }
    {
        let alloc = rows.alloc();
        Ok(Config {
            alloc,
            tree: Tree::from_rows(alloc, rows, 0)?,
            known: None,
        })
    }

    /// The list of the rows.
    pub fn into_rows(self) -> Result<Many<Row>, Memory>
        ensures { IfOk result (λ it. it ≡ self) }
    {
        copied_rows(self.alloc, &self.tree)
    }

    /// How many rows there are.
    pub fn len(&self) -> u64
        ensures { result ≡ length self.now }
    {
        self.tree.len()
    }

    /// Whether another configuration has the same rows in the same order. It takes no memory.
    pub fn is_same(&self, other: &Config) -> bool
        ensures same { IsTrue result ↔ (self.now ≡ other.now) }
        ensures word { result ≡ is_same_rows self.now other.now }
    {
        self.tree.is_same(&other.tree)
    }

    /// The row at a place, counted from 0 in document order, or `None` past the last.
    pub fn row(&self, place: u64) -> Option<&Row>
        ensures { option_copied result ≡ slice_get self.now place }
    {
        self.tree.row(place)
    }

    /// All rows in document order.
    pub fn rows(&self, alloc: Global) -> Result<Many<&Row>, Memory>
        ensures { IfOk result (λ it. map (λ row. row.now) it ≡ self.now) }
    {
        let mut rows = Many::new(alloc);
        self.tree.push_rows(&mut rows)?;
        Ok(rows)
    }

    /// All rows in document order, shared.
    pub fn shared(&self, alloc: Global) -> Result<Many<Shared<Row>>, Memory>
        ensures { IfOk result (λ it. it ≡ self.now) }
    {
        shared_rows(alloc, &self.tree)
    }

    /// The row at a path, where there is one.
    pub fn get(&self, path: &Path) -> Option<&Row>
        ensures { option_copied result ≡ row_at self.now path.now.steps }
    {
        self.row_at(path.steps.as_slice())
    }

    /// The row at some steps, where there is one.
    pub(crate) fn row_at(&self, steps: &[Step]) -> Option<&Row>
        ensures { option_copied result ≡ row_at self.now steps.now }
    {
        match &self.known {
            Some(known) => self.tree.get_known(known, steps),
            None => self.tree.get(steps),
        }
    }

    /// Puts a row: where its path stands the row gets the value, and else it goes to its place, an
    /// entry together with the rows of its keys (RFC 7950 7.7.9, 7.8.6). Rows of other cases go
    /// (RFC 7950 7.9). Where memory ends nothing is changed.
    #[tactic(auto, using(crate::proofs::Rows::put_there, crate::proofs::Rows::put_new))]
    pub fn put(&mut self, schema: &Schema, row: Row, place: &Place) -> Result<(), Memory>
        ensures ok { OnOk result (self.new ≡ with_row schema.now self.old row place.now) }
        ensures err { OnErr result (self.new ≡ self.old) }
    {
        if self.has(&row.path) {
            return self.replace(row);
        }
        let block = rows_of_node(self.alloc, schema, &row.path, &row.value)?;
        self.set_block(schema, &row.path, place, block)
    }

    /// Puts a row in the place of the first one at its path.
    fn replace(&mut self, row: Row) -> Result<(), Memory>
        ensures ok { OnOk result (self.new ≡ replaced self.old row) }
        ensures err { OnErr result (self.new ≡ self.old) }
    {
        let row = Shared::new(self.alloc, row)?;
        *self = self.with_row(&row)?;
        Ok(())
    }

    /// The configuration with a row in the place of the first one at its path.
    #[tactic(auto, using(nc_branches::proofs::Tallying::tallied_replaced))]
    fn with_row(&self, row: &Shared<Row>) -> Result<Config, Memory>
        ensures { IfOk result (λ it. it ≡ replaced self.now row.now) }
    {
        match &self.known {
            Some(known) => Ok(Config {
                alloc: self.alloc,
                tree: self.tree.replaced_known(self.alloc, known, row)?,
                known: Some(known.copy()?),
            }),
            None => Ok(Config {
                alloc: self.alloc,
                tree: self.tree.replaced(self.alloc, row)?,
                known: None,
            }),
        }
    }

    /// Puts rows in the place of all that stand at or below a path. Rows of other cases go (RFC 7950
    /// 7.9). Where memory ends nothing is changed.
    pub fn set_block(
        &mut self,
        schema: &Schema,
        path: &Path,
        place: &Place,
        block: Many<Row>,
    ) -> Result<(), Memory>
        ensures ok { OnOk result (self.new ≡ with_block schema.now self.old path.now place.now block) }
        ensures err { OnErr result (self.new ≡ self.old) }
    {
        let depth = path.steps.len().saturating_sub(1);
        let block = Tree::from_rows(self.alloc, block, depth)?;
        let ready = self.ready(schema, path.steps.as_slice())?;
        *self = ready.with_tree(schema, path, place, &block)?;
        Ok(())
    }

    /// The same with all rows of another configuration, which are shared.
    pub fn set_part(
        &mut self,
        schema: &Schema,
        path: &Path,
        place: &Place,
        part: &Config,
    ) -> Result<(), Memory>
        ensures ok { OnOk result (self.new ≡ with_block schema.now self.old path.now place.now part.now) }
        ensures err { OnErr result (self.new ≡ self.old) }
    {
        let ready = self.ready(schema, path.steps.as_slice())?;
        *self = ready.with_tree(schema, path, place, &part.tree)?;
        Ok(())
    }

    /// The rows at a path and below it, as a configuration that shares them.
    pub fn part(&self, path: &Path) -> Result<Config, Memory>
        ensures { IfOk result (λ it. it ≡ block_at self.now path.now.steps) }
    {
        let steps = path.steps.as_slice();
        let tree = match &self.known {
            Some(known) => self.tree.part_known(self.alloc, known, steps)?,
            None => self.tree.part(self.alloc, steps)?,
        };
        Ok(Config {
            alloc: self.alloc,
            tree,
            known: None,
        })
    }

    /// Drops every row at or below a path, and answers how many there were. Where memory ends nothing
    /// is changed.
    #[tactic(auto, using(crate::proofs::Rows::dropped))]
    pub fn remove(&mut self, path: &Path) -> Result<u64, Memory>
        ensures rows { OnOk result (self.new ≡ without_block self.old path.now.steps) }
        ensures count { IfOk result (λ n. n ≡ length (block_at self.old path.now.steps)) }
        ensures err { OnErr result (self.new ≡ self.old) }
    {
        let before = self.len();
        let rest = self.without(path.steps.as_slice())?;
        let dropped = before - rest.len();
        *self = rest;
        Ok(dropped)
    }

    /// The configuration without the rows at some steps and below them.
    #[tactic(auto, using(nc_branches::proofs::Tallying::tallied_without))]
    fn without(&self, steps: &[Step]) -> Result<Config, Memory>
        ensures { IfOk result (λ it. it ≡ without_block self.now steps.now) }
    {
        match &self.known {
            Some(known) => Ok(Config {
                alloc: self.alloc,
                tree: self.tree.without_known(self.alloc, known, steps)?,
                known: Some(known.without(self.alloc, steps)?),
            }),
            None => Ok(Config {
                alloc: self.alloc,
                tree: self.tree.without(self.alloc, steps)?,
                known: None,
            }),
        }
    }
}

/// Whether the user orders a list or leaf-list in a path (RFC 7950 7.7.7).
fn is_ordered(schema: &Schema, steps: &[Step]) -> bool {
    steps.iter().any(|step| is_by_user(schema, step.node))
}

impl Config {
    /// The configuration with the rows of a tree in the place of all that stand at and below a path: where it
    /// is seen where they go by the entries that are known, and else by a list of all entries beside each
    /// step.
    fn with_tree(
        &self,
        schema: &Schema,
        path: &Path,
        place: &Place,
        block: &Tree,
    ) -> Result<Config, Memory>
        ensures { IfOk result (λ it. it ≡ with_block schema.now self.now path.now place.now block.now.rows) }
    {
        match &self.known {
            None => self.listed(schema, path, place, block),
            Some(known) => {
                let laid = laid_in(self.alloc, schema, &self.tree, known, path, place, block)?;
                match laid {
                    Some(config) => Ok(config),
                    None => self.listed(schema, path, place, block),
                }
            }
        }
    }

    /// The same by lists.
    #[tactic(auto, using(crate::proofs::OrdersLemmas::known_listed))]
    fn listed(
        &self,
        schema: &Schema,
        path: &Path,
        place: &Place,
        block: &Tree,
    ) -> Result<Config, Memory>
        ensures { IfOk result (λ it. it ≡ with_block schema.now self.now path.now place.now block.now.rows) }
    {
        let tree = with_tree(self.alloc, &self.tree, schema, path, place, block)?;
        let known = match &self.known {
            None => None,
            Some(known) => known.known_after(self.alloc, path.steps.as_slice(), block)?,
        };
        Ok(Config {
            alloc: self.alloc,
            tree,
            known,
        })
    }

    /// The same rows. It is known which entries have a row where the user orders a list in a path.
    fn ready(&self, schema: &Schema, steps: &[Step]) -> Result<Config, Memory>
        ensures { IfOk result (λ it. it ≡ self.now) }
    {
        if self.known.is_some() || !is_ordered(schema, steps) {
            return self.copy();
        }
        let tree = self.tree.with_labels(self.alloc)?;
        let known = tree.known(self.alloc)?;
        Ok(Config {
            alloc: self.alloc,
            tree,
            known,
        })
    }
}

/// The same in a tree of which it is known which entries have a row.
fn laid_in(
    alloc: Global,
    schema: &Schema,
    tree: &Tree,
    known: &Tree,
    path: &Path,
    place: &Place,
    block: &Tree,
) -> Result<Option<Config>, Memory>
    requires { IsTallied known.now.rows tree.now.rows }
    ensures { IfOk result (λ it. IfSome it (λ config. config
        ≡ with_block schema.now tree.now.rows path.now place.now block.now.rows)) }
{
    match tree.lay(alloc, schema, known, path, place, block)? {
        None => Ok(None),
        Some(laid) => Ok(Some(Config {
            alloc,
            tree: laid.tree,
            known: Some(laid.known),
        })),
    }
}

/// Other rows at and below a path: in the tree, where it is known on which side of its siblings each
/// step of the path stands, and else in a list of all rows.
fn with_tree(
    alloc: Global,
    tree: &Tree,
    schema: &Schema,
    path: &Path,
    place: &Place,
    block: &Tree,
) -> Result<Tree, Memory>
    ensures { IfOk result (λ it. it.rows ≡ with_block schema.now tree.now.rows path.now place.now
        block.now.rows) }
{
    let orders = orders_of(alloc, schema, tree, place, &path.steps)?;
    let steps = path.steps.as_slice();
    if let Some(set) = tree.set(alloc, schema, orders.as_slice(), steps, block)? {
        return Ok(set);
    }
    let rows = put_block(alloc, schema, tree, path, place, block)?;
    Tree::from_shared(alloc, rows.as_slice(), 0)
}

impl Copies for Config {
    fn copy(&self) -> Result<Config, Memory> {
        Ok(Config {
            alloc: self.alloc,
            tree: self.tree.copy()?,
            known: self.known.copy()?,
        })
    }
}
