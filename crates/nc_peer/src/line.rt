//! A peer's line that is being read.
ghost use Rattle.std.specs.Prelude.{◌≡◌, ◌≢◌, ◌<◌, ◌≤◌, ◌+◌, ◌∷◌, ◌++◌, [], length, IfOk, OnOk, MatchBool, All};
ghost use Rattle.nc_peer.specs.Lines.{IsName, IsNameByte, bad_place, line_feed, peer_limit, space};
ghost use Rattle.nc_peer.specs.declared.fault.PeerFault.TheVariants.{BadPeer};
ghost use Rattle.nc_peer.specs.inner.Underway.{IsUnderway, Takes};

use crate::PeerFault;
use nc_names::{Bytes, Many, Memory, Text};
use std::alloc::Global;

// The most bytes of a line, without its line feed.
const PEER_LIMIT: usize = 1024;

/// The bytes so far, the names that are whole, and the beginning of the next.
#[derive(Drop)]
pub struct Line {
    pub bytes: Bytes,
    pub names: Many<Text>,
    pub word: Bytes,
}

// The place at which bytes stop to be a line.
fn place_of(bytes: &[u8]) -> u32
    requires some { 0 < length bytes.now }
    requires few { length bytes.now ≤ peer_limit + 1 }
    ensures { result ≡ bad_place bytes.now }
{
    let last = bytes.len() - 1;
    match str::from_utf8(bytes) {
        Ok(_) => last as u32,
        Err(fault) => fault.valid_up_to().min(last) as u32,
    }
}

// Adds a word to the names, if it is one, and says whether it is.
fn add_name(alloc: Global, word: &[u8], names: &mut Many<Text>) -> Result<bool, Memory>
    requires { All IsNameByte word.now }
    ensures { IfOk result (λ added. MatchBool added
        (IsName word.now × (names.new ≡ names.old ++ word.now ∷ []))
        (IsName word.now → ⊥)) }
{
    if word.is_empty() {
        return Ok(false);
    }
    match str::from_utf8(word) {
        Ok(text) => {
            names.push(Text::from_text(alloc, text)?)?;
            Ok(true)
        }
        Err(_) => Ok(false),
    }
}

impl Line {
    /// Before the first byte.
    pub fn new(alloc: Global) -> Line
        ensures bytes { result.bytes ≡ [] }
        ensures underway { IsUnderway result.bytes result.names result.word }
    {
        Line {
            bytes: Bytes::new(alloc),
            names: Many::new(alloc),
            word: Bytes::new(alloc),
        }
    }

    // The answer to bytes that begin no line.
    fn refused(&self) -> PeerFault
        requires some { 0 < length self.now.bytes }
        requires few { length self.now.bytes ≤ peer_limit + 1 }
        ensures { result ≡ BadPeer (bad_place self.now.bytes) }
    {
        PeerFault::BadPeer {
            at: place_of(self.bytes.as_slice()),
        }
    }

    // Takes the line feed.
    #[tactic(auto, using(crate::proofs::LineLemmas::line_ends, crate::proofs::LineLemmas::no_name_at_feed))]
    fn end_line(&mut self, alloc: Global) -> Result<bool, PeerFault>
        requires { IsUnderway self.old.bytes self.old.names self.old.word }
        ensures bytes { OnOk result (self.new.bytes ≡ self.old.bytes ++ line_feed ∷ []) }
        ensures takes { Takes (self.old.bytes ++ line_feed ∷ []) self.new.names self.new.word result }
    {
        let added = add_name(alloc, self.word.as_slice(), &mut self.names)?;
        self.bytes.push(b'\n')?;
        if !added {
            return Err(self.refused());
        }
        Ok(true)
    }

    // Takes a space.
    #[tactic(auto, using(crate::proofs::LineLemmas::name_ends, crate::proofs::LineLemmas::no_name_at_space))]
    fn end_name(&mut self, alloc: Global) -> Result<bool, PeerFault>
        requires underway { IsUnderway self.old.bytes self.old.names self.old.word }
        requires less { length self.old.bytes < peer_limit }
        ensures bytes { OnOk result (self.new.bytes ≡ self.old.bytes ++ space ∷ []) }
        ensures takes { Takes (self.old.bytes ++ space ∷ []) self.new.names self.new.word result }
    {
        let added = add_name(alloc, self.word.as_slice(), &mut self.names)?;
        self.bytes.push(b' ')?;
        if !added {
            return Err(self.refused());
        }
        self.word.clear();
        Ok(false)
    }

    // Takes a byte of a name.
    #[tactic(auto, using(crate::proofs::LineLemmas::name_grows))]
    fn grow(&mut self, byte: u8) -> Result<bool, PeerFault>
        requires underway { IsUnderway self.old.bytes self.old.names self.old.word }
        requires byte { IsNameByte byte }
        requires less { length self.old.bytes < peer_limit }
        ensures bytes { OnOk result (self.new.bytes ≡ self.old.bytes ++ byte ∷ []) }
        ensures takes { Takes (self.old.bytes ++ byte ∷ []) self.new.names self.new.word result }
    {
        self.bytes.push(byte)?;
        self.word.push(byte)?;
        Ok(false)
    }

    // Takes a byte past the last that a line has.
    #[tactic(auto, using(crate::proofs::LineLemmas::too_long))]
    fn overflow(&mut self, byte: u8) -> Result<bool, PeerFault>
        requires full { length self.old.bytes ≡ peer_limit }
        requires byte { byte ≢ line_feed }
        ensures bytes { OnOk result (self.new.bytes ≡ self.old.bytes ++ byte ∷ []) }
        ensures takes { Takes (self.old.bytes ++ byte ∷ []) self.new.names self.new.word result }
    {
        self.bytes.push(byte)?;
        Err(self.refused())
    }

    /// Takes one byte more, and says whether the line is whole.
    pub fn take(&mut self, alloc: Global, byte: u8) -> Result<bool, PeerFault>
        requires { IsUnderway self.old.bytes self.old.names self.old.word }
        ensures bytes { OnOk result (self.new.bytes ≡ self.old.bytes ++ byte ∷ []) }
        ensures takes { Takes (self.old.bytes ++ byte ∷ []) self.new.names self.new.word result }
    {
        if byte == b'\n' {
            return self.end_line(alloc);
        }
        if self.bytes.len() >= PEER_LIMIT {
            return self.overflow(byte);
        }
        if byte == b' ' {
            return self.end_name(alloc);
        }
        self.grow(byte)
    }

    /// The names.
    pub fn into_names(self) -> Many<Text>
        ensures { result ≡ self.names }
    {
        let Line {
            bytes: _,
            names,
            word: _,
        } = self;
        names
    }
}
