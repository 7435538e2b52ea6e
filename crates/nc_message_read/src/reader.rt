//! The bytes of a message that are left to be read, and what stands first in them.
ghost use Rattle.std.specs.Prelude.{◌≡◌, ◌||◌, true, false, ◌≤◌, ◌<◌, ◌+◌, ℕ, suc, List, [], ◌∷◌, length, take, drop, None, Some, IfOk, OnSome, OnOk, MatchOption, nat_eq, ◌++◌};
ghost use Rattle.std.specs.List.{starts_with};
ghost use Rattle.std.specs.Str.{is_utf8};
ghost use Rattle.nc_names.specs.Ends as ends;
ghost use Rattle.nc_names.specs.Signs as signs;
ghost use Rattle.nc_message.specs.Names as names;
ghost use Rattle.nc_message.specs.Pieces as pieces;
ghost use Rattle.nc_message_read.specs.inner.Tokens.{token_of};

use crate::declared::{begins_declaration, declares_version, is_target};
use crate::scan;
use crate::written::{Attribute, Name, Span, Tag, Token, Word};
use nc_names::{Many, Memory, is_white, tail};
use std::alloc::Global;

/// The bytes that are left to be read. After a call that answers `None` nothing further is read.
#[derive(Drop)]
pub(crate) struct Reader<'a> {
    pub(crate) alloc: Global,
    pub(crate) rest: &'a [u8],
}

impl<'a> Reader<'a> {
    /// Takes bytes from the front.
    pub(crate) fn cut(&mut self, count: usize) -> &'a [u8]
        requires { count ≤ length self.old.rest.now }
        ensures front { result.now ≡ take count self.old.rest.now }
        ensures rest { self.new.rest.now ≡ drop count self.old.rest.now }
        ensures within { length self.new.rest.now ≤ length self.old.rest.now }
    {
        let (front, rest) = self.rest.split_at(count);
        self.rest = rest;
        front
    }

    /// Whether white space stands first.
    fn is_at_white(&self) -> bool
        ensures { result ≡ pieces.first_passes signs.is_white self.now.rest.now }
    {
        match self.rest.first() {
            Some(byte) => is_white(*byte),
            None => false,
        }
    }

    /// Whether a byte stands first with which a name may begin.
    fn is_at_name(&self) -> bool
        ensures { result ≡ pieces.first_passes names.begins_name self.now.rest.now }
    {
        match self.rest.first() {
            Some(byte) => scan::begins_name(*byte),
            None => false,
        }
    }

    /// Passes over white space.
    #[tactic(auto, using(nc_names::proofs::EndLemmas::past_is))]
    fn white(&mut self)
        ensures read { self.new.rest.now ≡ ends.after_white self.old.rest.now }
        ensures within { length self.new.rest.now ≤ length self.old.rest.now }
    {
        self.cut(scan::count_white(self.rest));
    }

    /// Passes over these bytes.
    fn bytes(&mut self, bytes: &[u8]) -> Option<()>
        ensures read { MatchOption result
            (pieces.after bytes.now self.old.rest.now ≡ None)
            (λ _. pieces.after bytes.now self.old.rest.now ≡ Some self.new.rest.now) }
        ensures within { MatchOption result
            (length self.new.rest.now ≤ length self.old.rest.now)
            (λ _. length self.new.rest.now + length bytes.now ≤ length self.old.rest.now) }
    {
        self.rest = self.rest.strip_prefix(bytes)?;
        Some(())
    }

    /// Reads a part of a name.
    #[tactic(auto, unfolding(nc_message::specs::Pieces::part))]
    fn part(&mut self) -> Option<Word<'a>>
        ensures read { MatchOption result
            (pieces.part self.old.rest.now ≡ None)
            (λ part. pieces.part self.old.rest.now ≡ Some (part, self.new.rest.now)) }
        ensures within { length self.new.rest.now ≤ length self.old.rest.now }
    {
        if !self.is_at_name() {
            return None;
        }
        let bytes = self.cut(scan::count_name(self.rest));
        Some(Word {
            chars: chars_of(bytes)?,
        })
    }

    /// Reads a name.
    #[tactic(auto, unfolding(nc_message::specs::Pieces::name))]
    fn name(&mut self) -> Option<Name<'a>>
        ensures read { MatchOption result
            (pieces.name self.old.rest.now ≡ None)
            (λ name. pieces.name self.old.rest.now ≡ Some (name, self.new.rest.now)) }
        ensures within { length self.new.rest.now ≤ length self.old.rest.now }
    {
        let first = self.part()?;
        if !self.rest.starts_with(b":") {
            return Some(Name {
                prefix: Word { chars: "" },
                local: first,
            });
        }
        self.cut(1);
        Some(Name {
            prefix: first,
            local: self.part()?,
        })
    }

    /// Reads what stands before a quotation mark, and the mark.
    #[tactic(auto, unfolding(nc_message::specs::Pieces::value))]
    fn value(&mut self, mark: u8) -> Option<Span<'a>>
        ensures read { MatchOption result
            (pieces.value mark self.old.rest.now ≡ None)
            (λ value. pieces.value mark self.old.rest.now ≡ Some (value, self.new.rest.now)) }
        ensures within { length self.new.rest.now ≤ length self.old.rest.now }
    {
        let bytes = self.cut(scan::count_value(mark, self.rest));
        self.bytes(&[mark])?;
        Some(Span { bytes })
    }

    /// Reads a quoted value (XML 1.0, 2.3).
    #[tactic(auto, unfolding(nc_message::specs::Pieces::quoted))]
    fn quoted(&mut self) -> Option<Span<'a>>
        ensures read { MatchOption result
            (pieces.quoted self.old.rest.now ≡ None)
            (λ value. pieces.quoted self.old.rest.now ≡ Some (value, self.new.rest.now)) }
        ensures within { length self.new.rest.now ≤ length self.old.rest.now }
    {
        let (first, rest) = self.rest.split_first()?;
        let mark = *first;
        if !scan::is_quote(mark) {
            return None;
        }
        self.rest = rest;
        self.value(mark)
    }

    /// Reads an attribute (XML 1.0, 3.1).
    #[tactic(auto, unfolding(nc_message::specs::Pieces::attribute))]
    fn attribute(&mut self) -> Option<Attribute<'a>>
        ensures read { MatchOption result
            (pieces.attribute self.old.rest.now ≡ None)
            (λ attr. pieces.attribute self.old.rest.now ≡ Some (attr, self.new.rest.now)) }
        ensures within { OnSome result (length self.new.rest.now < length self.old.rest.now) }
    {
        let name = self.name()?;
        self.white();
        self.bytes(b"=")?;
        self.white();
        let value = self.quoted()?;
        Some(Attribute { name, value })
    }

    /// Reads attributes, each after white space, and the white space after them.
    fn attributes(&mut self) -> Result<Option<Many<Attribute<'a>>>, Memory>
        ensures read { IfOk result (λ found. MatchOption found
            (pieces.attributes (suc (length self.old.rest.now)) self.old.rest.now ≡ None)
            (λ attrs. pieces.attributes (suc (length self.old.rest.now)) self.old.rest.now
            ≡ Some (attrs, self.new.rest.now))) }
        ensures within { IfOk result (λ found. OnSome found (length self.new.rest.now
            ≤ length self.old.rest.now)) }
    {
        let mut attrs = Many::new(self.alloc);
        loop {
            let parted = self.is_at_white();
            self.white();
            if !self.is_at_name() {
                return Ok(Some(attrs));
            }
            if !parted {
                return Ok(None);
            }
            let Some(attr) = self.attribute() else {
                return Ok(None);
            };
            attrs.push(attr)?;
        }
    }

    /// Reads the end of a start tag, and whether it closes its element too.
    #[tactic(auto, unfolding(nc_message::specs::Pieces::close))]
    fn close(&mut self) -> Option<bool>
        ensures read { MatchOption result
            (pieces.close self.old.rest.now ≡ None)
            (λ alone. pieces.close self.old.rest.now ≡ Some (alone, self.new.rest.now)) }
        ensures within { length self.new.rest.now ≤ length self.old.rest.now }
    {
        if self.rest.starts_with(b"/>") {
            self.cut(2);
            return Some(true);
        }
        self.bytes(b">")?;
        Some(false)
    }

    /// Reads a start tag.
    #[tactic(auto, unfolding(nc_message::specs::Pieces::start))]
    fn start(&mut self) -> Result<Option<Tag<'a>>, Memory>
        ensures read { IfOk result (λ found. MatchOption found
            (pieces.start self.old.rest.now ≡ None)
            (λ tag. pieces.start self.old.rest.now ≡ Some (tag, self.new.rest.now))) }
        ensures within { IfOk result (λ found. OnSome found (length self.new.rest.now
            < length self.old.rest.now)) }
    {
        if self.bytes(b"<").is_none() {
            return Ok(None);
        }
        let Some(name) = self.name() else {
            return Ok(None);
        };
        let Some(attributes) = self.attributes()? else {
            return Ok(None);
        };
        let Some(alone) = self.close() else {
            return Ok(None);
        };
        Ok(Some(Tag {
            name,
            attributes,
            alone,
        }))
    }

    /// Reads an end tag.
    #[tactic(auto, unfolding(nc_message::specs::Pieces::end))]
    fn end(&mut self) -> Option<Name<'a>>
        ensures read { MatchOption result
            (pieces.end self.old.rest.now ≡ None)
            (λ name. pieces.end self.old.rest.now ≡ Some (name, self.new.rest.now)) }
        ensures within { OnSome result (length self.new.rest.now < length self.old.rest.now) }
    {
        self.bytes(b"</")?;
        let name = self.name()?;
        self.white();
        self.bytes(b">")?;
        Some(name)
    }

    /// Reads what stands before the first place of a mark, and the mark.
    fn up_to(&mut self, mark: &[u8]) -> Option<Span<'a>>
        ensures read { MatchOption result
            (pieces.up_to mark.now self.old.rest.now ≡ None)
            (λ span. pieces.up_to mark.now self.old.rest.now ≡ Some (span, self.new.rest.now)) }
        ensures within { length self.new.rest.now ≤ length self.old.rest.now }
    {
        let count = count_before(mark, self.rest)?;
        let bytes = self.cut(count);
        self.bytes(mark)?;
        Some(Span { bytes })
    }

    /// Reads a CDATA section (XML 1.0, 2.7).
    #[tactic(auto, unfolding(nc_message::specs::Pieces::section))]
    fn section(&mut self) -> Option<Span<'a>>
        ensures read { MatchOption result
            (pieces.section self.old.rest.now ≡ None)
            (λ span. pieces.section self.old.rest.now ≡ Some (span, self.new.rest.now)) }
        ensures within { OnSome result (length self.new.rest.now < length self.old.rest.now) }
    {
        self.bytes(b"<![CDATA[")?;
        self.up_to(b"]]>")
    }

    /// Reads a comment (XML 1.0, 2.5).
    #[tactic(auto, unfolding(nc_message::specs::Pieces::comment))]
    fn comment(&mut self) -> Option<Span<'a>>
        ensures read { MatchOption result
            (pieces.comment self.old.rest.now ≡ None)
            (λ span. pieces.comment self.old.rest.now ≡ Some (span, self.new.rest.now)) }
        ensures within { OnSome result (length self.new.rest.now < length self.old.rest.now) }
    {
        self.bytes(b"<!--")?;
        let span = self.up_to(b"--")?;
        self.bytes(b">")?;
        Some(span)
    }

    // Reads a processing instruction (XML 1.0, 2.6).
    #[tactic(auto, unfolding(nc_message::specs::Pieces::instruction))]
    fn instruction(&mut self) -> Option<Span<'a>>
        ensures read { MatchOption result
            (pieces.instruction self.old.rest.now ≡ None)
            (λ span. pieces.instruction self.old.rest.now ≡ Some (span, self.new.rest.now)) }
        ensures within { OnSome result (length self.new.rest.now < length self.old.rest.now) }
    {
        self.bytes(b"<?")?;
        let content = self.rest;
        let name = self.name()?;
        let parted = self.ends_target();
        self.rest = content;
        let span = self.up_to(b"?>")?;
        if !is_target(&name) || !parted {
            return None;
        }
        Some(span)
    }

    // Whether the name of a processing instruction ends here.
    fn ends_target(&self) -> bool
        ensures { result ≡ (starts_with nat_eq self.now.rest.now (63 ∷ 62 ∷ [])
            || pieces.first_passes signs.is_white self.now.rest.now) }
    {
        self.rest.starts_with(b"?>") || self.is_at_white()
    }

    // Reads the declaration (XML 1.0, 2.8).
    #[tactic(auto, unfolding(nc_message::specs::Pieces::declaration))]
    fn declaration(&mut self) -> Result<Option<()>, Memory>
        ensures read { IfOk result (λ found. MatchOption found
            (pieces.declaration self.old.rest.now ≡ None)
            (λ _. pieces.declaration self.old.rest.now ≡ Some self.new.rest.now)) }
        ensures within { IfOk result (λ found. OnSome found (length self.new.rest.now
            < length self.old.rest.now)) }
    {
        if self.bytes(b"<?xml").is_none() {
            return Ok(None);
        }
        let Some(attributes) = self.attributes()? else {
            return Ok(None);
        };
        if self.bytes(b"?>").is_none() {
            return Ok(None);
        }
        if !declares_version(attributes.as_slice()) {
            return Ok(None);
        }
        Ok(Some(()))
    }

    // Reads the declaration or a processing instruction.
    #[tactic(auto, unfolding(nc_message::specs::Pieces::questioned))]
    fn questioned(&mut self) -> Result<Option<Token<'a>>, Memory>
        ensures read { IfOk result (λ found. MatchOption found
            (pieces.questioned self.old.rest.now ≡ None)
            (λ token. pieces.questioned self.old.rest.now ≡ Some (token_of token, self.new.rest.now))) }
        ensures within { IfOk result (λ found. OnSome found (length self.new.rest.now
            < length self.old.rest.now)) }
    {
        if begins_declaration(self.rest) {
            return match self.declaration()? {
                Some(()) => Ok(Some(Token::Declaration)),
                None => Ok(None),
            };
        }
        Ok(self.instruction().map(Token::Instruction))
    }

    /// Reads the first whole token, where there is one and something is left.
    #[tactic(auto, unfolding(nc_message::specs::Pieces::token))]
    pub(crate) fn token(&mut self) -> Result<Option<Token<'a>>, Memory>
        ensures read { IfOk result (λ found. MatchOption found
            (pieces.token self.old.rest.now ≡ None)
            (λ token. pieces.token self.old.rest.now ≡ Some (token_of token, self.new.rest.now))) }
        ensures within { IfOk result (λ found. OnSome found (0 < length self.old.rest.now
            → length self.new.rest.now < length self.old.rest.now)) }
    {
        if self.rest.starts_with(b"</") {
            return Ok(self.end().map(Token::End));
        }
        if self.rest.starts_with(b"<!--") {
            return Ok(self.comment().map(Token::Comment));
        }
        if self.rest.starts_with(b"<![") {
            return Ok(self.section().map(Token::Section));
        }
        if self.rest.starts_with(b"<?") {
            return self.questioned();
        }
        if self.rest.starts_with(b"<") {
            return Ok(self.start()?.map(Token::Start));
        }
        let bytes = self.cut(scan::count_run(self.rest));
        Ok(Some(Token::Run(Span { bytes })))
    }
}

/// How many bytes stand before the first place of a mark.
pub(crate) fn count_before(mark: &[u8], bytes: &[u8]) -> Option<usize>
    ensures { MatchOption result
        (pieces.up_to mark.now bytes.now ≡ None)
        (λ n. (n ≤ length bytes.now) × (pieces.up_to mark.now bytes.now
        ≡ Some (take n bytes.now, drop (length mark.now) (drop n bytes.now)))
        × (starts_with nat_eq (drop n bytes.now) mark.now ≡ true)) }
{
    for place in 0..bytes.len() {
        if tail(bytes, place).starts_with(mark) {
            return Some(place);
        }
    }
    None
}

/// The characters that these bytes are.
#[tactic(auto, using(crate::proofs::Utf8::utf8_yes, crate::proofs::Utf8::utf8_no))]
pub(crate) fn chars_of(bytes: &[u8]) -> Option<&str>
    ensures { MatchOption result (is_utf8 bytes.now ≡ false) (λ chars. (chars.now ≡ bytes.now)
        × (is_utf8 bytes.now ≡ true)) }
{
    match str::from_utf8(bytes) {
        Ok(chars) => Some(chars),
        Err(_) => None,
    }
}
