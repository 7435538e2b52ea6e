//! Numbers that are found by a block and a word.
ghost use Rattle.std.specs.Prelude.{◌≡◌, ℕ, List, None, IfOk};
ghost use Rattle.nc_yang_scopes.specs.Tables.{KeepsOneMore, number_at};

use nc_names::Memory;
use std::alloc::Global;
use std::collections::BTreeMap;

/// The number of each pair of a block and a word; of several the first that came.
#[derive(Drop)]
pub struct Table<'a> {
    pub(crate) numbers: BTreeMap<(usize, &'a str), usize>,
}

impl<'a> Table<'a> {
    /// No numbers. It takes no memory.
    pub fn new(alloc: Global) -> Table<'a>
        ensures { (block : ℕ) (word : List ℕ) → number_at result block word ≡ None }
    {
        Table {
            numbers: BTreeMap::new(alloc),
        }
    }

    /// With a number more, unless there is one for that word in that block.
    pub fn with(self, block: usize, word: &'a str, number: usize) -> Result<Table<'a>, Memory>
        ensures { IfOk result (KeepsOneMore self.entry block word.now number) }
    {
        let mut table = self;
        let key = (block, word);
        if table.numbers.contains_key(&key) {
            return Ok(table);
        }
        table.numbers.insert(key, number)?;
        Ok(table)
    }

    /// The number of a word in a block.
    pub fn get(&self, block: usize, word: &'a str) -> Option<usize>
        ensures { result ≡ number_at self.now block word.now }
    {
        self.numbers.get(&(block, word)).copied()
    }
}
