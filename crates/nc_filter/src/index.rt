//! Rows by the instance in which they stand.
ghost use Rattle.std.specs.Prelude.{◌≡◌, ◌∷◌, ◌++◌, [], List, IfOk, map};
ghost use Rattle.std.specs.Option.{option_copied, option_map_or};
ghost use Rattle.nc_names.specs.declared.path.Row.{Row};
ghost use Rattle.nc_schema.specs.Blocks as blocks;
ghost use Rattle.nc_filter.specs.inner.Levels.{children};
ghost use Rattle.nc_filter.specs.inner.Tables.{IsIndex, in_table, without};

use nc_names::{Many, Memory, Row, Step};
use std::alloc::Global;
use std::collections::BTreeMap;

/// The steps but the last.
pub(crate) fn above_last(steps: &[Step]) -> &[Step]
    ensures { result.now ≡ blocks.above_last steps.now }
{
    &steps[..steps.len().saturating_sub(1)]
}

/// Rows by the steps to the root, container or entry in which they stand.
#[derive(Drop)]
pub(crate) struct Index<'a> {
    table: BTreeMap<&'a [Step], Many<&'a Row>>,
}

// Takes the rows of an instance out of the table.
fn taken<'a>(
    alloc: Global,
    table: &mut BTreeMap<&'a [Step], Many<&'a Row>>,
    key: &'a [Step],
) -> Many<&'a Row>
    ensures found { result ≡ in_table table.old key.entry }
    ensures others { without key.entry table.old table.new }
{
    match table.remove(&key) {
        Some(inside) => inside,
        None => Many::new(alloc),
    }
}

fn added<'a>(
    alloc: Global,
    table: BTreeMap<&'a [Step], Many<&'a Row>>,
    row: &'a Row,
) -> Result<BTreeMap<&'a [Step], Many<&'a Row>>, Memory>
    ensures { IfOk result (λ it. (rows : List Row) → IsIndex table.entry rows →
        IsIndex it (rows ++ row.now ∷ [])) }
{
    let mut table = table;
    let key = above_last(row.path.steps.as_slice());
    let mut inside = taken(alloc, &mut table, key);
    inside.push(row)?;
    table.insert(key, inside)?;
    Ok(table)
}

impl<'a> Index<'a> {
    /// The rows of a configuration by their instances.
    pub(crate) fn new(alloc: Global, rows: &[&'a Row]) -> Result<Index<'a>, Memory>
        ensures { IfOk result (λ it. IsIndex it.table (map (λ row. row.now) rows.now)) }
    {
        let mut table = BTreeMap::new(alloc);
        for row in rows {
            table = added(alloc, table, *row)?;
        }
        Ok(Index { table })
    }

    /// The rows directly in an instance; `None` where there is none.
    pub(crate) fn children(&self, above: &'a [Step]) -> Option<&Many<&'a Row>>
        ensures { (rows : List Row) → IsIndex self.now.table rows →
            map (λ row. row.now) (option_map_or (λ inside. inside) (option_copied result) [])
            ≡ children rows above.now }
    {
        self.table.get(&above)
    }
}
