//! Reading a peer.
ghost use Rattle.std.specs.Prelude.{◌≡◌, ◌∷◌, ◌<◌, [], false, length, MatchResult, IfErr, OnOk};
ghost use Rattle.std.specs.Io.KnownBytes.{prepend_known};
ghost use Rattle.nc_peer.specs.Faults.{ReadsPeer, Stops, counts};
ghost use Rattle.nc_peer.specs.inner.Underway.{ReadsNames};

use crate::PeerFault;
use crate::line::Line;
use nc_names::{Many, Text};
use nc_outside::Source;
use nc_protocol::Peer;
use std::alloc::Global;

// Reads one byte.
fn next_byte<S: Source>(source: &mut S) -> Result<u8, PeerFault>
    ensures bytes { MatchResult result
        (λ b. S.left source.old ≡ prepend_known (b ∷ []) (S.left source.new))
        (λ _. S.left source.new ≡ S.left source.old) }
    ensures same { OnOk result (counts (S.ends source.new) (S.faults source.new)
        ≡ counts (S.ends source.old) (S.faults source.old)) }
    ensures stops { IfErr result (Stops (S.left source.new)
        (counts (S.ends source.old) (S.faults source.old))
        (counts (S.ends source.new) (S.faults source.new))) }
{
    let mut one = [0u8; 1];
    match source.read(&mut one) {
        Ok(0) => Err(PeerFault::InputEnded),
        Ok(_) => Ok(one[0]),
        Err(_) => Err(PeerFault::ReadFault),
    }
}

// Reads the names of a line.
fn read_names<S: Source>(alloc: Global, source: &mut S) -> Result<Many<Text>, PeerFault>
    ensures names { ReadsNames (S.left source.old) (S.left source.new)
        (counts (S.ends source.old) (S.faults source.old))
        (counts (S.ends source.new) (S.faults source.new)) result }
{
    let mut line = Line::new(alloc);
    loop {
        let byte = next_byte(source)?;
        match line.take(alloc, byte) {
            Ok(true) => return Ok(line.into_names()),
            Ok(false) => {}
            Err(fault) => return Err(fault),
        }
    }
}

// The peer of the names of a line.
fn peer_of(names: Many<Text>) -> Peer
    requires { 0 < length names }
    ensures names { result.user ∷ result.groups ≡ names }
    ensures plain { result.recovery ≡ false }
{
    let mut groups = names;
    let user = groups.remove(0);
    Peer {
        user,
        groups,
        recovery: false,
    }
}

/// Reads the line that names a peer, and no byte past its line feed, nor past the one that shows that there
/// is no such line: the user and the groups, separated by single spaces, at most 1,024 bytes of UTF-8 without
/// the line feed. The peer has no recovery. Memory is taken for one line alone. The end of input and a fault
/// of the source end the reading: neither was met where a peer is answered.
///
/// # Errors
///
/// `BadPeer` where no line begins with the bytes that were read; `InputEnded` and `ReadFault` of the
/// source; `Memory`.
pub fn read_peer<S: Source>(alloc: Global, source: &mut S) -> Result<Peer, PeerFault>
    ensures { ReadsPeer (S.left source.old) (S.left source.new)
        (counts (S.ends source.old) (S.faults source.old))
        (counts (S.ends source.new) (S.faults source.new)) result }
{
    let names = read_names(alloc, source)?;
    Ok(peer_of(names))
}
