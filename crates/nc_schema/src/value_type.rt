//! Types of values (RFC 7950 9).
use nc_names::{Copies, Many, Memory, QName, Text};

/// The numbers from one to another, both included (RFC 7950 9.2.4, 9.4.4).
#[derive(Clone, Copy, PartialEq, Eq)]
pub struct Between {
    /// The lowest of them.
    pub least: i128,
    /// The highest of them.
    pub most: i128,
}

impl Copies for Between {
    fn copy(&self) -> Result<Between, Memory> {
        Ok(*self)
    }
}

/// The type of a leaf's or leaf-list's values (RFC 7950 9.2 to 9.13). Types are named by their
/// number in the schema, data nodes by theirs.
#[derive(PartialEq, Eq, Drop)]
pub enum ValueType {
    /// An integer in one of the ranges (RFC 7950 9.2).
    Whole {
        among: Many<Between>,
    },
    /// A `decimal64` with so many fraction digits. The ranges count in units of its last digit
    /// (RFC 7950 9.3).
    Decimal {
        digits: u32,
        among: Many<Between>,
    },
    /// A string whose length in characters is in one of the ranges (RFC 7950 9.4) and which each of
    /// the patterns admits, that are named by their numbers in the schema (RFC 7950 9.4.5). Where
    /// `starless` it may not begin with `*` (group names, RFC 8341 3.5.2).
    Chars {
        lengths: Many<Between>,
        starless: bool,
        patterns: Many<u32>,
    },
    /// `true` or `false` (RFC 7950 9.5).
    Boolean,
    /// One of the names (RFC 7950 9.6).
    Enumeration {
        names: Many<Text>,
    },
    /// Some of the names, which stand in the order of their positions (RFC 7950 9.7).
    Bits {
        names: Many<Text>,
    },
    /// Bytes in base64 whose number is in one of the ranges (RFC 7950 9.8).
    Binary {
        lengths: Many<Between>,
    },
    /// No value but the leaf's existence (RFC 7950 9.11).
    Empty,
    /// A value of one of these types, the first that admits it (RFC 7950 9.12).
    Union {
        members: Many<u32>,
    },
    /// One of these identities, which are all that are derived from the base (RFC 7950 9.10).
    Identity {
        among: Many<QName>,
    },
    /// A value of the leaf or leaf-list `target` (RFC 7950 9.9). `above` is the node above the leaf
    /// at which the path turns down, or `None` where the path is absolute or its steps up reach the
    /// top. `required` is `require-instance`.
    Leafref {
        target: u32,
        above: Option<u32>,
        required: bool,
    },
    /// A path to a node of the data tree (RFC 7950 9.13). `required` is `require-instance`.
    Instance {
        required: bool,
    },
    /// A path to a node of the data tree, in which keys may be left out (RFC 8341 3.5.2,
    /// `node-instance-identifier`).
    NodeInstance,
}

impl Copies for ValueType {
    fn copy(&self) -> Result<ValueType, Memory> {
        match self {
            ValueType::Whole { among } => Ok(ValueType::Whole {
                among: among.copy()?,
            }),
            ValueType::Decimal { digits, among } => Ok(ValueType::Decimal {
                digits: *digits,
                among: among.copy()?,
            }),
            ValueType::Chars {
                lengths,
                starless,
                patterns,
            } => Ok(ValueType::Chars {
                lengths: lengths.copy()?,
                starless: *starless,
                patterns: patterns.copy()?,
            }),
            ValueType::Boolean => Ok(ValueType::Boolean),
            ValueType::Enumeration { names } => Ok(ValueType::Enumeration {
                names: names.copy()?,
            }),
            ValueType::Bits { names } => Ok(ValueType::Bits {
                names: names.copy()?,
            }),
            ValueType::Binary { lengths } => Ok(ValueType::Binary {
                lengths: lengths.copy()?,
            }),
            ValueType::Empty => Ok(ValueType::Empty),
            ValueType::Union { members } => Ok(ValueType::Union {
                members: members.copy()?,
            }),
            ValueType::Identity { among } => Ok(ValueType::Identity {
                among: among.copy()?,
            }),
            ValueType::Leafref {
                target,
                above,
                required,
            } => Ok(ValueType::Leafref {
                target: *target,
                above: *above,
                required: *required,
            }),
            ValueType::Instance { required } => Ok(ValueType::Instance {
                required: *required,
            }),
            ValueType::NodeInstance => Ok(ValueType::NodeInstance),
        }
    }
}
