//! The numbers of the built-in types (RFC 7950 9.2, 9.3.4, 9.4.4).
ghost use Rattle.std.specs.Prelude.{◌≡◌, IfOk};
ghost use Rattle.nc_yang_types.specs.Entries as entries;

use nc_names::{Many, Memory};
use nc_schema::Between;
use nc_yang_statements::BuiltIn;
use std::alloc::Global;

// The numbers from one to another.
fn between(alloc: Global, least: i128, most: i128) -> Result<Many<Between>, Memory>
    ensures { IfOk result (λ it. it ≡ entries.between least most) }
{
    let mut among = Many::new(alloc);
    among.push(Between { least, most })?;
    Ok(among)
}

/// The numbers of an integer type.
pub(crate) fn integers(alloc: Global, built_in: BuiltIn) -> Result<Many<Between>, Memory>
    ensures { IfOk result (λ it. it ≡ entries.integers built_in) }
{
    match built_in {
        BuiltIn::Int8 => between(alloc, -128, 127),
        BuiltIn::Int16 => between(alloc, -32_768, 32_767),
        BuiltIn::Int32 => between(alloc, -2_147_483_648, 2_147_483_647),
        BuiltIn::Int64 => between(alloc, -9_223_372_036_854_775_808, 9_223_372_036_854_775_807),
        BuiltIn::Uint8 => between(alloc, 0, 255),
        BuiltIn::Uint16 => between(alloc, 0, 65_535),
        BuiltIn::Uint32 => between(alloc, 0, 4_294_967_295),
        BuiltIn::Uint64 => between(alloc, 0, 18_446_744_073_709_551_615),
        _ => Ok(Many::new(alloc)),
    }
}

/// The numbers of `decimal64`, in units of its last digit.
pub(crate) fn decimals(alloc: Global) -> Result<Many<Between>, Memory>
    ensures { IfOk result (λ it. it ≡ entries.decimals) }
{
    between(alloc, -9_223_372_036_854_775_808, 9_223_372_036_854_775_807)
}

/// Lengths.
pub(crate) fn lengths(alloc: Global) -> Result<Many<Between>, Memory>
    ensures { IfOk result (λ it. it ≡ entries.lengths) }
{
    between(alloc, 0, 18_446_744_073_709_551_615)
}
