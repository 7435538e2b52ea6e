//! Values of types that stand alone: for them no prefix counts, and no other type is asked.
ghost use Rattle.std.specs.Prelude.{◌≡◌, true, Some, None, IfOk, IfErr, length};
ghost use Rattle.nc_schema.specs.Tables.{NamesPatterns};
ghost use Rattle.nc_types.specs.inner.Faults.{OnNotInType};
ghost use Rattle.nc_types.specs.inner.Readings as readings;

use crate::bits::bits_text;
use crate::decimal::decimal_text;
use crate::fault::TypeFault;
use crate::number::whole_text;
use crate::simple::{binary_text, boolean_text, empty_text, one_of, string_text};
use nc_names::{Text, trimmed};
use nc_schema::{Schema, ValueType};
use std::alloc::Global;

/// The canonical text of a value of such a type.
pub(crate) fn plain_text(
    alloc: Global,
    schema: &Schema,
    found: &ValueType,
    text: &str,
) -> Result<Text, TypeFault>
    requires plain { readings.is_plain found.now ≡ true }
    requires patterns { NamesPatterns (length schema.now.patterns) found.now }
    ensures ok { IfOk result (λ it. readings.plain_text schema.now found.now text.now ≡ Some it) }
    ensures refused { IfErr result (λ fault. OnNotInType fault (readings.plain_text schema.now found.now
        text.now ≡ None)) }
{
    let word = trimmed(text);
    match found {
        ValueType::Whole { among } => whole_text(alloc, among.as_slice(), word),
        ValueType::Decimal { digits, among } => decimal_text(
            alloc,
            *digits,
            among.as_slice(),
            word,
        ),
        ValueType::Chars {
            lengths,
            starless,
            patterns,
        } => {
            string_text(
                alloc,
                schema,
                lengths.as_slice(),
                *starless,
                patterns.as_slice(),
                text,
            )
        }
        ValueType::Boolean => boolean_text(alloc, word),
        ValueType::Enumeration { names } => one_of(alloc, names.as_slice(), word),
        ValueType::Bits { names } => bits_text(alloc, names.as_slice(), word),
        ValueType::Binary { lengths } => binary_text(alloc, lengths.as_slice(), word),
        ValueType::Empty => empty_text(alloc, word),
        ValueType::Union { .. }
        | ValueType::Identity { .. }
        | ValueType::Leafref { .. }
        | ValueType::Instance { .. }
        | ValueType::NodeInstance => unreachable!(),
    }
}
