//! What stands below a node: the entries of a list, and whether a child exists.
ghost use Rattle.std.specs.Prelude.{◌≡◌, [], true, OnOk, ◌++◌};
ghost use Rattle.std.specs.Option.{option_copied};
ghost use Rattle.nc_schema.specs.Standing as meant;
ghost use Rattle.nc_branches.specs.Beneath.{keys_of};
ghost use Rattle.nc_branches.specs.inner.Shoots.{own_rows, rows_of};

use crate::look::Where;
use crate::siblings::is_same_step;
use crate::tree::{Tree, Twig};
use nc_names::{Many, Memory, Step, Text};

/// The keys of the one step, where it is to that data node.
fn only_keys(steps: &[Step], number: u32) -> Option<&Many<Text>>
    ensures { option_copied result ≡ meant.keys_in [] number steps.now }
{
    let Some((step, more)) = steps.split_first() else {
        return None;
    };
    if more.is_empty() && step.node == number {
        return Some(&step.keys);
    }
    None
}

/// The keys in a path to an entry of that list or leaf-list, where the path is that of one.
fn keys_in<'a>(above: &[Step], number: u32, steps: &'a [Step]) -> Option<&'a Many<Text>>
    ensures { option_copied result ≡ meant.keys_in above.now number steps.now }
{
    let mut rest = steps;
    for over in above {
        let Some((step, more)) = rest.split_first() else {
            return None;
        };
        if !is_same_step(over, step) {
            return None;
        }
        rest = more;
    }
    only_keys(rest, number)
}

impl Twig {
    /// Whether it is seen at once that no row of the node is of an entry below another node.
    #[tactic(auto, using(crate::proofs::EntryLemmas::entries_apart, crate::proofs::EntryLemmas::entries_long))]
    fn has_no_entry(&self, above: &[Step], number: u32) -> bool
        ensures none { result ≡ true → meant.entries (rows_of self.now) above.now number ≡ [] }
    {
        let _under = &self.below;
        if self.is_apart(above) {
            return true;
        }
        let path = self.row.get().path.steps.as_slice();
        path.len() > above.len() && path.len() - above.len() > 1
    }

    /// Whether it is seen at once that no row below the node is.
    #[tactic(auto, using(crate::proofs::EntryLemmas::entries_deep))]
    fn has_none_below(&self, above: &[Step], number: u32) -> bool
        ensures none { result ≡ true → meant.entries self.now.below.rows above.now number ≡ [] }
    {
        let least = self.below.shortest();
        least > above.len() && least - above.len() > 1
    }

    /// Adds the keys of the node itself, where it is an entry of the list.
    #[tactic(auto, using(crate::proofs::EntryLemmas::own_bare, crate::proofs::EntryLemmas::own_none, crate::proofs::EntryLemmas::own_some))]
    fn push_own<'a>(
        &'a self,
        above: &[Step],
        number: u32,
        out: &mut Many<&'a Many<Text>>,
    ) -> Result<(), Memory>
        ensures ok { OnOk result (keys_of out.new
            ≡ keys_of out.old ++ meant.entries (own_rows self.now.stands self.now.row) above.now number) }
    {
        if !self.stands {
            return Ok(());
        }
        if let Some(keys) = keys_in(above, number, self.row.get().path.steps.as_slice()) {
            out.push(keys)?;
        }
        Ok(())
    }

    /// Adds the keys of the entries of a list, or the values of a leaf-list, below a node.
    #[cycle(push_entries)]
    #[tactic(auto, using(crate::proofs::EntryLemmas::twig_none, crate::proofs::EntryLemmas::twig_own, crate::proofs::EntryLemmas::twig_both))]
    fn push_entries<'a>(
        &'a self,
        above: &[Step],
        number: u32,
        out: &mut Many<&'a Many<Text>>,
    ) -> Result<(), Memory>
        ensures ok { OnOk result (keys_of out.new
            ≡ keys_of out.old ++ meant.entries (rows_of self.now) above.now number) }
    {
        if self.has_no_entry(above, number) {
            return Ok(());
        }
        self.push_own(above, number, out)?;
        if self.has_none_below(above, number) {
            return Ok(());
        }
        self.below.push_entries(above, number, out)
    }
}

impl Tree {
    /// Adds the keys of the entries of a list, or the values of a leaf-list, below a node.
    #[cycle(push_entries)]
    #[tactic(auto, using(crate::proofs::EntryLemmas::entries_left, crate::proofs::EntryLemmas::entries_here, crate::proofs::EntryLemmas::entries_right, crate::proofs::EntryLemmas::entries_anywhere))]
    pub fn push_entries<'a>(
        &'a self,
        above: &[Step],
        number: u32,
        out: &mut Many<&'a Many<Text>>,
    ) -> Result<(), Memory>
        ensures ok { OnOk result (keys_of out.new
            ≡ keys_of out.old ++ meant.entries self.now.rows above.now number) }
    {
        let Some(fork) = self.fork() else {
            return Ok(());
        };
        match fork.find(above) {
            Where::OnTheLeft => fork.left.push_entries(above, number, out),
            Where::Here => fork.twig.push_entries(above, number, out),
            Where::OnTheRight => fork.right.push_entries(above, number, out),
            Where::Anywhere => {
                fork.left.push_entries(above, number, out)?;
                fork.twig.push_entries(above, number, out)?;
                fork.right.push_entries(above, number, out)?;
                Ok(())
            }
        }
    }
}
