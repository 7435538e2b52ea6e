//! Zeros at the end of digits.
ghost use Rattle.std.specs.Prelude.{◌≡◌, ◌==◌, ◌≤◌, length, take, IsCharBoundary};
ghost use Rattle.nc_names.specs.Ends as ends;
ghost use Rattle.nc_schema.specs.NumberTexts.{zero_digit};

// Whether a zero stands before the place.
fn ends_zero(bytes: &[u8], end: usize) -> bool
    requires { end ≤ length bytes.now }
    ensures { result ≡ ends.last_passes (λ digit. digit == zero_digit) bytes.now end }
{
    if end == 0 {
        false
    } else {
        bytes[end - 1] == b'0'
    }
}

// Where the zeros at the end begin. A text may be cut there.
fn end_of_rest(bytes: &[u8]) -> usize
    ensures cut { IsCharBoundary bytes.now result }
    ensures before { take result bytes.now ≡ ends.without_last (λ digit. digit == zero_digit) bytes.now }
{
    let mut end = bytes.len();
    while ends_zero(bytes, end) {
        end -= 1;
    }
    end
}

/// The digits without the zeros at their end.
pub(crate) fn without_zeros(text: &str) -> &str
    ensures { result.now ≡ ends.without_last (λ digit. digit == zero_digit) text.now }
{
    text.split_at(end_of_rest(text.as_bytes())).0
}
