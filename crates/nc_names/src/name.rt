//! Qualified names of XML and YANG, prefix bindings, and what a module is known by.
ghost use Rattle.std.specs.Prelude.{◌≡◌, ◌↔◌, IsTrue, IfOk};
ghost use Rattle.nc_names.specs.Same.{is_same_name};

use crate::{Copies, Many, Memory, Text};

/// A qualified name: a namespace and a local name (Namespaces in XML 1.0, 2.1; RFC 7950 5.3). An
/// empty `space` is no namespace. Names are ordered by the namespace, then by the local name.
#[derive(PartialEq, Eq, PartialOrd, Ord, Debug, Drop)]
pub struct QName {
    /// The namespace.
    pub space: Text,
    /// The local name.
    pub name: Text,
}

impl Copies for QName {
    fn copy(&self) -> Result<QName, Memory> {
        Ok(QName {
            space: self.space.copy()?,
            name: self.name.copy()?,
        })
    }
}

/// Whether two names are the same: the same namespace and the same local name.
pub fn same_name(a: &QName, b: &QName) -> bool
    ensures same { IsTrue result ↔ (a.now ≡ b.now) }
    ensures word { result ≡ is_same_name a.now b.now }
{
    a == b
}

/// A prefix that stands for a namespace (Namespaces in XML 1.0, 3). An empty prefix is the default
/// namespace.
#[derive(PartialEq, Eq, Debug, Drop)]
pub struct Bound {
    /// The prefix, without a colon.
    pub prefix: Text,
    /// The namespace; an empty one takes the default namespace back.
    pub space: Text,
}

impl Copies for Bound {
    fn copy(&self) -> Result<Bound, Memory> {
        Ok(Bound {
            prefix: self.prefix.copy()?,
            space: self.space.copy()?,
        })
    }
}

/// What the hello says of a module (RFC 6020 5.6.4): its name, its namespace, its revision date, or
/// an empty text where it has none, and the names of its features that are on.
#[derive(PartialEq, Eq, Drop)]
pub struct Module {
    /// The name of the module.
    pub name: Text,
    /// Its namespace.
    pub space: Text,
    /// The date of its revision, as YYYY-MM-DD, or an empty text.
    pub revision: Text,
    /// The names of its features that are on.
    pub features: Many<Text>,
}
