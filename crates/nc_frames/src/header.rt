//! The header of a chunk, and the end of the chunks, byte by byte (RFC 6242 4.2).
ghost use Rattle.std.specs.Prelude.{◌≡◌};
ghost use Rattle.nc_frames.specs.inner.Steps.{header_step, hash_step, size_step};

use nc_names::MESSAGE_LIMIT;

// The largest size of a chunk.
const LARGEST_SIZE: u64 = 4_294_967_295;

/// How much of a chunk's header, or of the end of the chunks, has come.
#[derive(Clone, Copy, Debug, PartialEq, Eq)]
pub(crate) enum Header {
    /// Nothing.
    Start,
    /// LF.
    Line,
    /// LF and `#`.
    Hash,
    /// LF, `#`, and digits that spell this number.
    Size(u32),
    /// LF, `#` and `#`.
    Close,
}

/// Where a byte leads to.
#[derive(Clone, Copy, Debug, PartialEq, Eq)]
pub(crate) enum Step {
    /// Further into the header.
    On(Header),
    /// To the octets of a chunk, this many.
    Octets(u32),
    /// Nowhere in this message.
    Stop(Stop),
}

/// Why a byte leads nowhere in its message.
#[derive(Clone, Copy, Debug, PartialEq, Eq)]
pub(crate) enum Stop {
    /// It ends the message.
    End,
    /// No chunked stream has it there.
    Bad,
    /// It ends a size with which the message is longer than `MESSAGE_LIMIT`.
    TooBig,
}

impl Header {
    /// Where the next byte leads to, where `length` octets of the message have come.
    pub(crate) fn step(self, length: usize, byte: u8) -> Step
        ensures { result ≡ header_step self length byte }
    {
        match self {
            Header::Start => {
                if byte == b'\n' {
                    Step::On(Header::Line)
                } else {
                    Step::Stop(Stop::Bad)
                }
            }
            Header::Line => {
                if byte == b'#' {
                    Step::On(Header::Hash)
                } else {
                    Step::Stop(Stop::Bad)
                }
            }
            Header::Hash => first_digit(length, byte),
            Header::Size(size) => next_digit(size, length, byte),
            Header::Close => {
                if byte == b'\n' {
                    Step::Stop(Stop::End)
                } else {
                    Step::Stop(Stop::Bad)
                }
            }
        }
    }
}

// The byte after `LF #`: the first digit of a size, or the second `#` after the last chunk.
fn first_digit(length: usize, byte: u8) -> Step
    ensures { result ≡ hash_step length byte }
{
    if byte == b'#' && length > 0 {
        Step::On(Header::Close)
    } else if byte > b'0' && byte <= b'9' {
        Step::On(Header::Size(u32::from(byte - b'0')))
    } else {
        Step::Stop(Stop::Bad)
    }
}

// The byte after the digits of a size: another digit, or the LF that ends it.
fn next_digit(size: u32, length: usize, byte: u8) -> Step
    ensures { result ≡ size_step size length byte }
{
    if byte == b'\n' {
        if (size as usize) > MESSAGE_LIMIT.saturating_sub(length) {
            Step::Stop(Stop::TooBig)
        } else {
            Step::Octets(size)
        }
    } else if byte >= b'0' && byte <= b'9' {
        let longer = u64::from(size) * 10 + u64::from(byte - b'0');
        if longer > LARGEST_SIZE {
            Step::Stop(Stop::Bad)
        } else {
            Step::On(Header::Size(longer as u32))
        }
    } else {
        Step::Stop(Stop::Bad)
    }
}
