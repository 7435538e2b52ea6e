//! The bindings in force in an element that is open, and beside them the marks of the namespaces that are
//! bound to prefixes, where the message declares long ones (Namespaces in XML 1.0, 6).
ghost use Rattle.std.specs.Prelude.{◌≡◌, ◌++◌, ◌∷◌, [], true, false, IfOk};
ghost use Rattle.nc_message.specs.Bindings as bindings;
ghost use Rattle.nc_message.specs.Resolved.{differ_from};
ghost use Rattle.nc_message_read.specs.inner.Marks.{AreNamed, prefixed};

use crate::apart::are_apart;
use crate::marked::Marked;
use crate::marks::Marks;
use nc_message::{Attr, Bounds, Level};
use nc_names::{Bound, Copies, Many, Memory, Shared, Text};
use std::alloc::Global;
use std::marker::Model;

/// What a start tag declares so far.
#[derive(Drop)]
pub(crate) struct Said {
    level: Level,
    own: Many<Bound>,
}

impl Model for Said {
    ghost use Rattle.std.specs.Prelude.{◌≡◌};
    ghost use Rattle.nc_message.specs.Bindings.{Declared};
    ghost use Rattle.nc_message_read.specs.inner.Marks.{prefixed};

    ghost Value = { Declared };

    ghost view = { λ s. s.level };

    ghost invariant = { λ s. s.own ≡ prefixed s.level.own };
}

impl Said {
    /// No declaration so far.
    pub(crate) fn new(alloc: Global) -> Said
        ensures own { result.own ≡ [] }
        ensures undeclares { result.undeclares ≡ false }
    {
        Said {
            level: Level::new(alloc),
            own: Many::new(alloc),
        }
    }

    /// Whether the tag says what a prefix is bound to, or that it is not.
    pub(crate) fn declares(&self, prefix: &Text) -> bool
        ensures { result ≡ bindings.declares self.now prefix.now }
    {
        self.level.declares(prefix)
    }

    /// Takes the default namespace away.
    pub(crate) fn undeclare(self) -> Said
        ensures own { result.own ≡ self.own }
        ensures undeclares { result.undeclares ≡ true }
    {
        let Said { mut level, own } = self;
        level.undeclare();
        Said { level, own }
    }

    /// Declares a prefix.
    #[tactic(auto, using(crate::proofs::Marking::prefixed_more))]
    pub(crate) fn declare(self, prefix: Text, space: Text) -> Result<Said, Memory>
        ensures own { IfOk result (λ it. it.own
            ≡ self.own ++ record { prefix = prefix; space = space } ∷ []) }
        ensures undeclares { IfOk result (λ it. it.undeclares ≡ self.undeclares) }
    {
        let Said { level, own } = self;
        let own = with_prefixed(own, &prefix, &space)?;
        let level = level.declare(prefix, space)?;
        Ok(Said { level, own })
    }
}

// A list with a binding more, but for that of the default namespace.
fn with_prefixed(own: Many<Bound>, prefix: &Text, space: &Text) -> Result<Many<Bound>, Memory>
    ensures { IfOk result (λ it. it
        ≡ own ++ prefixed (record { prefix = prefix.now; space = space.now } ∷ [])) }
{
    let mut own = own;
    if !prefix.is_empty() {
        own.push(Bound {
            prefix: prefix.copy()?,
            space: space.copy()?,
        })?;
    }
    Ok(own)
}

/// The bindings in force in an element, and those of their prefixes to marks where the message declares long
/// namespaces. To copy them copies no binding.
#[derive(Drop)]
pub(crate) struct Scope {
    bounds: Bounds,
    marked: Option<Marked>,
}

impl Model for Scope {
    ghost use Rattle.std.specs.Prelude.{IfSome, List};
    ghost use Rattle.nc_names.specs.declared.name.Bound.{Bound};
    ghost use Rattle.nc_message_read.specs.inner.Marks.{IsBeside};

    ghost Value = { List Bound };

    ghost view = { λ s. s.bounds };

    ghost invariant = { λ s. IfSome s.marked (IsBeside s.bounds) };
}

impl Scope {
    /// No bindings, in a message whose long namespaces have these numbers, if it declares any.
    pub(crate) fn new(marks: Option<Shared<Marks>>) -> Scope
        ensures { result ≡ [] }
    {
        let bounds = Bounds::new();
        match marks {
            Some(marks) => Scope {
                bounds,
                marked: Some(Marked::new(marks)),
            },
            None => Scope {
                bounds,
                marked: None,
            },
        }
    }

    /// The same bindings.
    pub(crate) fn copy(&self) -> Result<Scope, Memory>
        ensures { IfOk result (λ it. it ≡ self.now) }
    {
        Ok(Scope {
            bounds: self.bounds.copy()?,
            marked: self.marked.copy()?,
        })
    }

    /// The bindings.
    pub(crate) fn bounds(&self) -> &Bounds
        ensures { result.now ≡ self.now }
    {
        &self.bounds
    }

    /// The bindings alone.
    pub(crate) fn into_bounds(self) -> Bounds
        ensures { result ≡ self }
    {
        self.bounds
    }

    /// The bindings in an element below, whose start tag declares `said`.
    pub(crate) fn below(&self, alloc: Global, said: Said) -> Result<Scope, Memory>
        ensures { IfOk result (λ it. it ≡ bindings.inside self.now said) }
    {
        let Said { level, own } = said;
        let bounds = self.bounds.below(alloc, level)?;
        match &self.marked {
            Some(marked) => Ok(Scope {
                bounds,
                marked: Some(marked.below(alloc, own.as_slice())?),
            }),
            None => Ok(Scope {
                bounds,
                marked: None,
            }),
        }
    }

    /// Whether no attribute has the name of one before it.
    pub(crate) fn differ(&self, alloc: Global, attrs: &[Attr]) -> Result<bool, Memory>
        requires { AreNamed self.now attrs.now }
        ensures { IfOk result (λ it. it ≡ differ_from [] attrs.now) }
    {
        are_apart(alloc, &self.marked, attrs)
    }
}
