//! What the framings promise of whole streams.
ghost use Rattle.nc_frames.specs.Laws.{GivesAllThatIsFed, GivesTheStream, GivesTheSession, IsFramedAsDefined, HasOneReading, HasOneAnswer, IsBounded, BadFrameIsFirst, WritesOneMessage};

/// In whatever pieces a stream is fed, and whenever `next` is called between, the bytes of the messages
/// that were given, and those that are not given, are the bytes that were fed.
pub fn gives_all_that_is_fed()
    ensures { GivesAllThatIsFed }
{}

/// Where `next` answers `None` or a fault, the messages that were given are all those of the bytes that were
/// fed, and what follows them is unfinished or has that fault (RFC 6242 4.2 and 4.3).
pub fn gives_the_stream()
    ensures { GivesTheStream }
{}

/// The same of a session from its first byte: the hello with its mark, and then messages with marks, or in
/// chunks after a `switch` (RFC 6242 4.1).
pub fn gives_the_session()
    ensures { GivesTheSession }
{}

/// What is left after the last message of a stream without a fault is no whole message.
pub fn is_framed_as_defined()
    ensures { IsFramedAsDefined }
{}

/// A stream has one list of messages, and one fault or none.
pub fn has_one_reading()
    ensures { HasOneReading }
{}

/// At most one of the answers of `next` fits the bytes that are not given.
pub fn has_one_answer()
    ensures { HasOneAnswer }
{}

/// Bytes that give no message and show no fault are few: with the hello that stands before them at most
/// 25,165,842.
pub fn is_bounded()
    ensures { IsBounded }
{}

/// The byte of a bad frame is the first that no chunked stream has there (RFC 6242 4.2).
pub fn bad_frame_is_first()
    ensures { BadFrameIsFirst }
{}

/// What `write_chunks` appends is framed as exactly that message, and what `write_eom` appends too, where
/// the body with the mark has the mark only at its end.
pub fn writes_one_message()
    ensures { WritesOneMessage }
{}
