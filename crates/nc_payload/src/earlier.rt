//! The steps of the elements of one parent, so far.
ghost use Rattle.std.specs.Prelude.{◌≡◌, ◌∷◌, ◌++◌, [], true, option_to_list, IfOk};
ghost use Rattle.std.specs.List.{list_any};
ghost use Rattle.nc_names.specs.Same as same;
ghost use Rattle.nc_schema.specs.Standing as standing;

use crate::indexed::{Indexed, is_among, is_of_other_case};
use nc_names::{Many, Memory, Step};
use nc_schema::{Node, Schema};
use std::alloc::Global;
use std::marker::Model;

// So many steps are gone over: an entry seldom has more children, and an index takes memory of its own.
const FEW: usize = 8;

/// Steps in the order in which they came: the first few, and an index of those after them. Contracts see
/// their list.
#[derive(Drop)]
pub(crate) struct Earlier {
    few: Many<Step>,
    more: Indexed,
}

impl Model for Earlier {
    ghost use Rattle.std.specs.Prelude.{List, ◌++◌};
    ghost use Rattle.nc_names.specs.declared.path.Step.{Step};

    ghost Value = { List Step };

    ghost view = { λ e. e.few ++ e.more };
}

// Whether a further step is one of the first few.
fn is_one_of_few(few: &Many<Step>, more: &Indexed) -> bool
    ensures { result ≡ true → more.now ≡ [] }
{
    if few.len() >= FEW {
        return false;
    }
    more.is_empty()
}

fn has_other_case_among(few: &Many<Step>, schema: &Schema, node: &Node) -> bool
    ensures { result ≡ list_any
        (λ other. standing.cases_differ node.now.cases (standing.cases_of schema.now other.node)) few.now }
{
    if node.cases.is_empty() {
        return false;
    }
    few.as_slice()
        .iter()
        .any(|other| is_of_other_case(schema, node, other.node))
}

impl Earlier {
    /// No steps; whether each further one is looked up, or those without keys. It takes no memory.
    pub(crate) fn new(alloc: Global, each: bool) -> Earlier
        ensures { result ≡ [] }
    {
        Earlier {
            few: Many::new(alloc),
            more: Indexed::new(alloc, each),
        }
    }

    /// The steps with one more, the last.
    #[tactic(auto, using(crate::proofs::EarlierLemmas::few_more, crate::proofs::EarlierLemmas::many_more))]
    pub(crate) fn with(self, step: Step) -> Result<Earlier, Memory>
        ensures { IfOk result (λ it. it ≡ self ++ step ∷ []) }
    {
        let Earlier { few, more } = self;
        if is_one_of_few(&few, &more) {
            let mut few = few;
            few.push(step)?;
            return Ok(Earlier { few, more });
        }
        let more = more.with(step)?;
        Ok(Earlier { few, more })
    }

    /// The steps with one more, if there is one.
    pub(crate) fn with_any(self, step: Option<Step>) -> Result<Earlier, Memory>
        ensures { IfOk result (λ it. it ≡ self ++ option_to_list step) }
    {
        match step {
            Some(step) => self.with(step),
            None => Ok(self),
        }
    }

    /// Whether a step is among them.
    #[tactic(auto, using(crate::proofs::EarlierLemmas::among_both))]
    pub(crate) fn has(&self, step: &Step) -> bool
        ensures { result ≡ list_any (λ other. same.is_same_step other step.now) self.now }
    {
        let early = is_among(&self.few, step);
        let late = self.more.has(step);
        early || late
    }

    /// Whether one of them leads to a node of another case than a node beside it.
    #[tactic(auto, using(crate::proofs::EarlierLemmas::case_of_both))]
    pub(crate) fn has_other_case(&self, schema: &Schema, node: &Node) -> bool
        ensures { result ≡ list_any
            (λ other. standing.cases_differ node.now.cases (standing.cases_of schema.now other.node))
            self.now }
    {
        let early = has_other_case_among(&self.few, schema, node);
        let late = self.more.has_other_case(schema, node);
        early || late
    }
}
