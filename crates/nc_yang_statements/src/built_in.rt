//! The built-in types (RFC 7950 4.2.4, 9).
ghost use Rattle.std.specs.Prelude.{◌≡◌};
ghost use Rattle.nc_names.specs.Same.{is_same_text};
ghost use Rattle.nc_yang_statements.specs.BuiltIns as types;

/// A built-in type.
#[derive(Clone, Copy)]
pub enum BuiltIn {
    /// `binary` (RFC 7950 9.8).
    Binary,
    /// `bits` (RFC 7950 9.7).
    Bits,
    /// `boolean` (RFC 7950 9.5).
    Boolean,
    /// `decimal64` (RFC 7950 9.3).
    Decimal64,
    /// `empty` (RFC 7950 9.11).
    Empty,
    /// `enumeration` (RFC 7950 9.6).
    Enumeration,
    /// `identityref` (RFC 7950 9.10).
    IdentityRef,
    /// `instance-identifier` (RFC 7950 9.13).
    InstanceIdentifier,
    /// `int8` (RFC 7950 9.2).
    Int8,
    /// `int16` (RFC 7950 9.2).
    Int16,
    /// `int32` (RFC 7950 9.2).
    Int32,
    /// `int64` (RFC 7950 9.2).
    Int64,
    /// `leafref` (RFC 7950 9.9).
    LeafRef,
    /// `string` (RFC 7950 9.4).
    Chars,
    /// `uint8` (RFC 7950 9.2).
    Uint8,
    /// `uint16` (RFC 7950 9.2).
    Uint16,
    /// `uint32` (RFC 7950 9.2).
    Uint32,
    /// `uint64` (RFC 7950 9.2).
    Uint64,
    /// `union` (RFC 7950 9.12).
    Union,
}

/// The name of a built-in type (RFC 7950 4.2.4).
#[tactic(auto, unfolding(crate::specs::BuiltIns::built_in_word))]
pub fn built_in_word(built_in: BuiltIn) -> &'static str
    ensures { result.now ≡ types.built_in_word built_in }
{
    match built_in {
        BuiltIn::Binary => "binary",
        BuiltIn::Bits => "bits",
        BuiltIn::Boolean => "boolean",
        BuiltIn::Decimal64 => "decimal64",
        BuiltIn::Empty => "empty",
        BuiltIn::Enumeration => "enumeration",
        BuiltIn::IdentityRef => "identityref",
        BuiltIn::InstanceIdentifier => "instance-identifier",
        BuiltIn::Int8 => "int8",
        BuiltIn::Int16 => "int16",
        BuiltIn::Int32 => "int32",
        BuiltIn::Int64 => "int64",
        BuiltIn::LeafRef => "leafref",
        BuiltIn::Chars => "string",
        BuiltIn::Uint8 => "uint8",
        BuiltIn::Uint16 => "uint16",
        BuiltIn::Uint32 => "uint32",
        BuiltIn::Uint64 => "uint64",
        BuiltIn::Union => "union",
    }
}

/// The built-in types (RFC 7950 4.2.4).
#[tactic(auto, unfolding(crate::specs::BuiltIns::built_ins))]
pub fn built_ins() -> &'static [BuiltIn]
    ensures { result.now ≡ types.built_ins }
{
    &[
        BuiltIn::Binary,
        BuiltIn::Bits,
        BuiltIn::Boolean,
        BuiltIn::Decimal64,
        BuiltIn::Empty,
        BuiltIn::Enumeration,
        BuiltIn::IdentityRef,
        BuiltIn::InstanceIdentifier,
        BuiltIn::Int8,
        BuiltIn::Int16,
        BuiltIn::Int32,
        BuiltIn::Int64,
        BuiltIn::LeafRef,
        BuiltIn::Chars,
        BuiltIn::Uint8,
        BuiltIn::Uint16,
        BuiltIn::Uint32,
        BuiltIn::Uint64,
        BuiltIn::Union,
    ]
}

// Whether this is the name of the type.
fn is_word_of(built_in: BuiltIn, word: &str) -> bool
    ensures { result ≡ is_same_text (types.built_in_word built_in) word.now }
{
    built_in_word(built_in) == word
}

/// The built-in type of a name, if it is one (RFC 7950 4.2.4).
#[tactic(auto, unfolding(crate::specs::BuiltIns::built_in_of))]
pub fn built_in_of(word: &str) -> Option<BuiltIn>
    ensures { result ≡ types.built_in_of word.now }
{
    for built_in in built_ins() {
        if is_word_of(*built_in, word) {
            return Some(*built_in);
        }
    }
    None
}
