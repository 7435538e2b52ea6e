//! The namespace bindings in force in an element, shared by the elements that declare nothing
//! (Namespaces in XML 1.0, 3 and 6).
ghost use Rattle.std.specs.Prelude.{◌≡◌, ◌↔◌, List, ◌∷◌, ◌++◌, [], Bool, true, false, None, Some, IfOk, IsTrue, MatchOption, ◌&&◌};
ghost use Rattle.std.specs.Option.{option_copied};
ghost use Rattle.std.specs.Cmp.Lexicographic.{pointwise};
ghost use Rattle.nc_names.specs.declared.name.Bound.{Bound};
ghost use Rattle.nc_names.specs.Bindings.{space_of};
ghost use Rattle.nc_message.specs.Bindings.{Declared, declares, inside, is_empty, is_same_bound};
ghost use Rattle.nc_message.specs.inner.Levels.{IsTable, in_force, is_replaced, later};
ghost use Rattle.nc_names.specs.Same.{is_same_text};

use nc_names::{Binds, Bound, Copies, Many, Memory, Shared, Text};
use std::alloc::Global;
use std::collections::BTreeMap;
use std::marker::Model;

/// What one start tag declares: namespaces by their prefixes, and whether it takes the default
/// namespace away. All declarations but the first stand in a table too: most tags have one.
#[derive(Debug, Drop)]
pub struct Level {
    bounds: Many<Bound>,
    spaces: BTreeMap<Text, Text>,
    undeclares: bool,
}

impl Model for Level {
    ghost use Rattle.nc_message.specs.Bindings.{Declared};
    ghost use Rattle.nc_message.specs.inner.Levels.{IsTable, later};

    ghost Value = { Declared };

    ghost view = { λ l. record { own = l.bounds; undeclares = l.undeclares } };

    ghost invariant = { λ l. IsTable l.spaces (later l.bounds) };
}

impl Level {
    /// What a tag without declarations declares. It takes no memory.
    pub fn new(alloc: Global) -> Level
        ensures own { result.own ≡ [] }
        ensures undeclares { result.undeclares ≡ false }
    {
        Level {
            bounds: Many::new(alloc),
            spaces: BTreeMap::new(alloc),
            undeclares: false,
        }
    }

    /// The namespace of a prefix that is declared here.
    #[tactic(auto, using(crate::proofs::Looking::at_first, crate::proofs::Looking::at_later))]
    fn own(&self, prefix: &Text) -> Option<&Text>
        ensures { option_copied result ≡ space_of prefix.now self.now.own }
    {
        let Some((first, _more)) = self.bounds.as_slice().split_first() else {
            return None;
        };
        if is_same(prefix, &first.prefix) {
            return Some(&first.space);
        }
        self.spaces.get(prefix)
    }

    /// What the tag says of a prefix: its namespace, or that it has none. `None` where it does not
    /// speak of it.
    fn look(&self, prefix: &Text) -> Option<Option<&Text>>
        ensures { MatchOption result
            ((outer : List Bound) → space_of prefix.now (inside outer self.now) ≡ space_of prefix.now outer)
            (λ found. (outer : List Bound) → space_of prefix.now (inside outer self.now)
            ≡ option_copied found) }
    {
        let own = self.own(prefix);
        if own.is_some() {
            return Some(own);
        }
        if self.takes_away(prefix) {
            return Some(None);
        }
        None
    }

    // Whether the tag takes away what the prefix is bound to outside.
    fn takes_away(&self, prefix: &Text) -> bool
        ensures { result ≡ (self.now.undeclares && is_empty prefix.now) }
    {
        self.undeclares && prefix.is_empty()
    }

    /// Whether the tag says what a prefix is bound to, or that it is not.
    pub fn declares(&self, prefix: &Text) -> bool
        ensures { result ≡ declares self.now prefix.now }
    {
        self.own(prefix).is_some() || self.takes_away(prefix)
    }

    /// Takes the default namespace away (Namespaces in XML 1.0, 6.2).
    pub fn undeclare(&mut self)
        ensures own { self.new.own ≡ self.old.own }
        ensures undeclares { self.new.undeclares ≡ true }
    {
        self.undeclares = true;
    }

    // Whether the tag declares nothing.
    fn is_empty(&self) -> bool
        ensures own { result ≡ true → self.now.own ≡ [] }
        ensures undeclares { result ≡ true → self.now.undeclares ≡ false }
    {
        self.bounds.is_empty() && !self.undeclares
    }

    /// Declares a prefix. Of two declarations of one prefix the first holds.
    pub fn declare(self, prefix: Text, space: Text) -> Result<Level, Memory>
        ensures own { IfOk result (λ it. it.own
            ≡ self.own ++ record { prefix = prefix; space = space } ∷ []) }
        ensures undeclares { IfOk result (λ it. it.undeclares ≡ self.undeclares) }
    {
        let Level {
            mut bounds,
            spaces,
            undeclares,
        } = self;
        let spaces = with_later(spaces, bounds.is_empty(), prefix.copy()?, space.copy()?)?;
        bounds.push(Bound { prefix, space })?;
        Ok(Level {
            bounds,
            spaces,
            undeclares,
        })
    }
}

/// All bindings in force, the outermost tag's first; where a tag replaces a binding, it stands at that
/// tag's place. To copy them copies no binding.
#[derive(Debug, Drop)]
pub struct Bounds {
    levels: Option<Shared<Many<Shared<Level>>>>,
}

impl Model for Bounds {
    ghost use Rattle.std.specs.Prelude.{List, []};
    ghost use Rattle.std.specs.Option.{option_map_or};
    ghost use Rattle.nc_names.specs.declared.name.Bound.{Bound};
    ghost use Rattle.nc_message.specs.inner.Levels.{in_force};

    ghost Value = { List Bound };

    ghost view = { λ b. option_map_or in_force b.levels [] };
}

impl Bounds {
    /// No bindings. It takes no memory.
    pub fn new() -> Bounds
        ensures { result ≡ [] }
    {
        Bounds { levels: None }
    }

    /// These bindings. Of two of one prefix the first holds.
    pub fn from_many(alloc: Global, bounds: &Many<Bound>) -> Result<Bounds, Memory>
        ensures { IfOk result (λ it. it ≡ bounds.now) }
    {
        let mut level = Level::new(alloc);
        for bound in bounds.as_slice() {
            level = level.declare(bound.prefix.copy()?, bound.space.copy()?)?;
        }
        Bounds::new().inside(alloc, level)
    }

    // What the tags around declare, the outermost first.
    fn levels(&self) -> &[Shared<Level>]
        ensures { in_force result.now ≡ self.now }
    {
        match &self.levels {
            Some(levels) => levels.get().as_slice(),
            None => &[],
        }
    }

    // What the tags around declare, and one more.
    fn levels_with(
        &self,
        alloc: Global,
        level: Shared<Level>,
    ) -> Result<Many<Shared<Level>>, Memory>
        ensures { IfOk result (λ it. in_force it ≡ inside self.now level) }
    {
        match &self.levels {
            Some(levels) => levels.get().copied_with(level),
            None => Many::new(alloc).copied_with(level),
        }
    }

    // The bindings in an element below, whose start tag declares `level`.
    fn inside(&self, alloc: Global, level: Level) -> Result<Bounds, Memory>
        ensures { IfOk result (λ it. it ≡ inside self.now level) }
    {
        let levels = self.levels_with(alloc, Shared::new(alloc, level)?)?;
        Ok(Bounds {
            levels: Some(Shared::new(alloc, levels)?),
        })
    }

    /// The bindings in an element below, whose start tag declares `level`. They are shared where it
    /// declares nothing; else the tags above are shared.
    pub fn below(&self, alloc: Global, level: Level) -> Result<Bounds, Memory>
        ensures { IfOk result (λ it. it ≡ inside self.now level) }
    {
        if level.is_empty() {
            return self.copy();
        }
        self.inside(alloc, level)
    }

    /// What a prefix is bound to. It takes one look at a table for each tag around that declares
    /// something.
    pub fn find(&self, prefix: &Text) -> Option<&Text>
        ensures { option_copied result ≡ space_of prefix.now self.now }
    {
        let levels = self.levels();
        let mut left = levels.len();
        while left > 0 {
            left -= 1;
            if let Some(found) = levels[left].get().look(prefix) {
                return found;
            }
        }
        None
    }

    /// The bindings in their order, one after another.
    pub fn iter(&self) -> Bindings<'_>
        ensures { result ≡ self.now }
    {
        Bindings {
            own: &[],
            later: self.levels(),
        }
    }

    /// A list of the bindings.
    pub fn to_many(&self, alloc: Global) -> Result<Many<Bound>, Memory>
        ensures { IfOk result (λ it. it ≡ self.now) }
    {
        let mut bounds = Many::new(alloc);
        let mut rest = self.iter();
        while let Some(bound) = rest.next() {
            bounds.push(bound.copy()?)?;
        }
        Ok(bounds)
    }
}

impl Binds for Bounds {
    ghost bound = { λ bounds. bounds };

    fn space_of(&self, prefix: &Text) -> Option<&Text> {
        self.find(prefix)
    }

    fn to_many(&self, alloc: Global) -> Result<Many<Bound>, Memory> {
        Bounds::to_many(self, alloc)
    }
}

impl Copies for Bounds {
    fn copy(&self) -> Result<Bounds, Memory> {
        Ok(Bounds {
            levels: self.levels.copy()?,
        })
    }
}

impl PartialEq for Bounds {
    ghost use Rattle.nc_message.specs.Bindings.{is_same_bound};
    ghost use Rattle.std.specs.Cmp.Rules.{comparing};
    ghost use Rattle.std.proofs.Common.{rules};

    ghost eq = { pointwise is_same_bound };

    ghost laws = { Prim.search (comparing, rules) };

    fn eq(&self, other: &Bounds) -> bool {
        are_same(self.iter(), other.iter())
    }
}

impl Eq for Bounds {
    ghost use Rattle.std.specs.Cmp.Rules.{comparing};
    ghost use Rattle.std.proofs.Common.{rules};

    ghost laws = { Prim.search (comparing, rules) };
}

/// Bindings in their order.
#[derive(Drop)]
pub struct Bindings<'a> {
    own: &'a [Bound],
    later: &'a [Shared<Level>],
}

impl<'a> Model for Bindings<'a> {
    ghost use Rattle.std.specs.Prelude.{List};
    ghost use Rattle.nc_names.specs.declared.name.Bound.{Bound};
    ghost use Rattle.nc_message.specs.inner.Levels.{left_of};

    ghost Value = { List Bound };

    ghost view = { λ b. left_of b.own.now b.later.now };
}

impl<'a> Bindings<'a> {
    /// The next binding, or `None` where none is left.
    pub fn next(&mut self) -> Option<&'a Bound>
        ensures { MatchOption result
            ((self.old ≡ []) × (self.new ≡ []))
            (λ bound. self.old ≡ bound.now ∷ self.new) }
    {
        let mut own = self.own;
        let mut later = self.later;
        loop {
            if let Some((bound, more)) = own.split_first() {
                own = more;
                if !is_replaced_in(later, &bound.prefix) {
                    self.own = own;
                    self.later = later;
                    return Some(bound);
                }
            } else if let Some((level, more)) = later.split_first() {
                own = level.get().bounds.as_slice();
                later = more;
            } else {
                self.own = own;
                self.later = later;
                return None;
            }
        }
    }
}

// Whether a tag further in speaks of a prefix.
fn is_replaced_in(later: &[Shared<Level>], prefix: &Text) -> bool
    ensures { result ≡ is_replaced later.now prefix.now }
{
    for level in later {
        if level.get().declares(prefix) {
            return true;
        }
    }
    false
}

// Whether both have the same bindings in the same order.
fn are_same(mine: Bindings<'_>, theirs: Bindings<'_>) -> bool
    ensures { result ≡ pointwise is_same_bound mine.entry theirs.entry }
{
    let mut mine = mine;
    let mut theirs = theirs;
    while let Some(bound) = mine.next() {
        let Some(other) = theirs.next() else {
            return false;
        };
        if bound != other {
            return false;
        }
    }
    theirs.next().is_none()
}

// Whether two prefixes are the same.
fn is_same(one: &Text, other: &Text) -> bool
    ensures { result ≡ is_same_text one.now other.now }
{
    one == other
}

// The table of all declarations but the first, with one declaration more, which may be the first.
#[tactic(auto, using(crate::proofs::Looking::later_first, crate::proofs::Looking::later_more))]
fn with_later(
    spaces: BTreeMap<Text, Text>,
    is_first: bool,
    prefix: Text,
    space: Text,
) -> Result<BTreeMap<Text, Text>, Memory>
    ensures { IfOk result (λ it. (own : List Bound) → (IsTrue is_first ↔ (own ≡ [])) →
        IsTable spaces (later own) → IsTable it (later (own ++ record { prefix = prefix; space = space } ∷ []))) }
{
    if is_first {
        return Ok(spaces);
    }
    with_space(spaces, prefix, space)
}

// The table with a prefix's namespace, where it has none yet.
fn with_space(
    spaces: BTreeMap<Text, Text>,
    prefix: Text,
    space: Text,
) -> Result<BTreeMap<Text, Text>, Memory>
    ensures { IfOk result (λ it. (own : List Bound) → IsTable spaces own
        → IsTable it (own ++ record { prefix = prefix; space = space } ∷ [])) }
{
    let mut spaces = spaces;
    if spaces.contains_key(&prefix) {
        return Ok(spaces);
    }
    spaces.insert(prefix, space)?;
    Ok(spaces)
}
