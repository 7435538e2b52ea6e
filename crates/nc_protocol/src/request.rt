//! A request, and why one is refused.
ghost use Rattle.std.specs.Prelude.{◌≡◌, IfOk, [], ◌∷◌};
ghost use Rattle.nc_protocol.specs.Asking.{plain_cause};
ghost use Rattle.nc_protocol.specs.Attributes.{cause_in, path_of};
ghost use Rattle.nc_protocol.specs.Edited.{cause_at};

use crate::{Asked, Operation};
use nc_message::Attr;
use nc_names::{CauseKind, Copies, Many, Memory, Path, Step, Text};
use std::alloc::Global;

/// Why a request is refused: what becomes of one `rpc-error` (RFC 6241 4.3).
#[derive(PartialEq, Eq, Debug, Drop)]
pub struct Cause {
    /// Its kind, which has an error-type, an error-tag and an error-app-tag.
    pub kind: CauseKind,
    /// The node that it is about (`error-path`), if it is about one.
    pub path: Option<Path>,
    /// The names that `error-info` needs, such as `bad-element`.
    pub names: Many<Text>,
}

impl Cause {
    /// A cause that is about no data node and needs no name.
    pub fn plain(alloc: Global, kind: CauseKind) -> Cause
        ensures { result ≡ plain_cause kind [] }
    {
        Cause {
            kind,
            path: None,
            names: Many::new(alloc),
        }
    }

    /// A cause that is about no data node, with one name.
    pub fn naming(alloc: Global, kind: CauseKind, name: &str) -> Result<Cause, Memory>
        ensures { IfOk result (λ it. it ≡ plain_cause kind (name.now ∷ [])) }
    {
        let mut cause = Cause::plain(alloc, kind);
        cause.names.push(Text::from_text(alloc, name)?)?;
        Ok(cause)
    }

    /// A cause that is about the node at a path.
    pub fn at(kind: CauseKind, path: Path, names: Many<Text>) -> Cause
        ensures { result ≡ cause_at kind path names }
    {
        Cause {
            kind,
            path: Some(path),
            names,
        }
    }

    /// A cause that is about the node to which the steps lead, or about none at the top.
    pub fn inside(kind: CauseKind, steps: Many<Step>, names: Many<Text>) -> Cause
        ensures { result ≡ cause_in kind steps names }
    {
        Cause {
            kind,
            path: path_of(steps),
            names,
        }
    }
}

// The path of a node; at the top there is none.
fn path_of(steps: Many<Step>) -> Option<Path>
    ensures { result ≡ path_of steps }
{
    if steps.is_empty() {
        return None;
    }
    Some(Path { steps })
}

impl Copies for Cause {
    fn copy(&self) -> Result<Cause, Memory> {
        Ok(Cause {
            kind: self.kind,
            path: self.path.copy()?,
            names: self.names.copy()?,
        })
    }
}

/// An `rpc` (RFC 6241 4.1).
#[derive(PartialEq, Eq, Drop)]
pub struct Request {
    /// The attributes of the `rpc`, which its reply repeats.
    pub attributes: Many<Attr>,
    /// The operation, where the message has one that this server knows.
    pub operation: Option<Operation>,
    /// The operation with its parameters, or why there is none.
    pub asked: Result<Asked, Cause>,
}
