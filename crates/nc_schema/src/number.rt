//! The numbers of texts (RFC 7950 9.2.1).
ghost use Rattle.std.specs.Prelude.{◌≡◌};
ghost use Rattle.nc_schema.specs.NumberTexts.{number_of};

/// The number of an optional sign and decimal digits; `None` where the text is none, or where the number
/// does not fit 128 bits (RFC 7950 9.2.1).
pub fn read_number(text: &str) -> Option<i128>
    ensures { result ≡ number_of text.now }
{
    i128::from_str_radix(text, 10).ok()
}
