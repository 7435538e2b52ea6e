//! The words of the command line.
ghost use Rattle.std.specs.Prelude.{◌≡◌, ◌≢◌, ◌≤◌, ◌∷◌, [], ℕ, List, map, string_bytes};
ghost use Rattle.std.specs.Prelude.{IfOk, MatchOption};
ghost use Rattle.std.specs.Fmt.{decimal};
ghost use Rattle.std.specs.List.{list_any};
ghost use Rattle.nc_words.specs.Words as meant;
ghost use Rattle.nc_protocol.specs.declared.peer.Peer.{Peer as PeerMeant};
ghost use Rattle.nc_words.specs.Asking.{AsksFor, AsksIn, IsNoFolder, IsNoLoad, IsNoStdio};

use nc_edge::read_address;
use nc_names::{Many, Memory, Text, parse_decimal};
use nc_protocol::Peer;
use std::alloc::Global;

/// One session on standard input and output, which the words `stdio [--recovery] DIR USER [GROUP]...` ask
/// for.
#[derive(Clone, Copy)]
pub struct Stdio<'a> {
    /// The path of the folder of the device.
    pub folder: &'a str,
    /// The name of the user of the session.
    pub user: &'a str,
    /// The words after it: the groups of the user, among which the flag may stand.
    pub others: &'a [String],
    /// Whether it is a recovery session (RFC 8341 3.3.3).
    pub recovery: bool,
}

/// The folder of a device, and what is done with it.
#[derive(Clone, Copy)]
pub struct InFolder<'a> {
    /// The path of the folder of the device.
    pub folder: &'a str,
    /// What is done.
    pub work: Work<'a>,
}

/// What is done with the folder of a device.
#[derive(Clone, Copy, PartialEq, Eq)]
pub enum Work<'a> {
    /// Its store is opened, and counts are written.
    Check,
    /// The script is done that the file of this name has.
    Script(&'a str),
    /// The connections of this address are served.
    Serve(&'a str),
}

/// What a command line asks for.
#[derive(Clone, Copy)]
pub enum Command<'a> {
    /// One session.
    Stdio(Stdio<'a>),
    /// Something else with the folder of a device.
    Folder(InFolder<'a>),
    /// A load test with so many edits, in memory.
    Load(u32),
}

impl<'a> Stdio<'a> {
    /// Who has the session.
    pub fn peer(&self, alloc: Global) -> Result<Peer, Memory>
        ensures { IfOk result (λ it. it ≡ record {
          user = self.now.user.now;
          groups = meant.arguments (map string_bytes self.now.others.now);
          recovery = self.now.recovery;
        }) }
    {
        Ok(Peer {
            user: Text::from_text(alloc, self.user)?,
            groups: groups_of(alloc, self.others)?,
            recovery: self.recovery,
        })
    }
}

// A word that is no flag, and the words after it.
#[derive(Clone, Copy)]
struct Argument<'a> {
    word: &'a str,
    after: &'a [String],
}

// Whether a word is the flag of a recovery session.
fn is_recovery(word: &str) -> bool
    ensures { result ≡ meant.is_recovery word.now }
{
    word == "--recovery"
}

fn begins_with_hyphen(word: &str) -> bool
    ensures { result ≡ meant.begins_with_hyphen word.now }
{
    match word.as_bytes().first() {
        Some(byte) => *byte == b'-',
        None => false,
    }
}

// Whether a word is another flag.
fn is_unknown_flag(word: &str) -> bool
    ensures { result ≡ meant.is_unknown_flag word.now }
{
    begins_with_hyphen(word) && !is_recovery(word)
}

fn has_unknown_flag(words: &[String]) -> bool
    ensures { result ≡ list_any meant.is_unknown_flag (map string_bytes words.now) }
{
    for word in words {
        if is_unknown_flag(word.as_str()) {
            return true;
        }
    }
    false
}

// How often the flag of a recovery session stands there.
fn count_recovery(words: &[String]) -> usize
    ensures count { result ≡ meant.count_recovery (map string_bytes words.now) }
{
    let mut count = 0;
    for word in words {
        if is_recovery(word.as_str()) {
            count += 1;
        }
    }
    count
}

// The groups that words name.
fn groups_of(alloc: Global, words: &[String]) -> Result<Many<Text>, Memory>
    ensures { IfOk result (λ it. it ≡ meant.arguments (map string_bytes words.now)) }
{
    let mut groups = Many::new(alloc);
    for word in words {
        if !is_recovery(word.as_str()) {
            groups.push(Text::from_text(alloc, word.as_str())?)?;
        }
    }
    Ok(groups)
}

// The first word that is no flag.
fn first_argument(words: &[String]) -> Option<Argument<'_>>
    ensures { MatchOption result
        (meant.arguments (map string_bytes words.now) ≡ [])
        (λ it. meant.arguments (map string_bytes words.now) ≡
        it.word.now ∷ meant.arguments (map string_bytes it.after.now)) }
{
    for (place, word) in words.iter().enumerate() {
        if !is_recovery(word.as_str()) {
            return Some(Argument {
                word: word.as_str(),
                after: &words[place + 1..],
            });
        }
    }
    None
}

// The folder, the user and the groups.
#[tactic(auto, using(crate::proofs::Arguments::twice, crate::proofs::Arguments::no_folder, crate::proofs::Arguments::no_user))]
fn read_arguments(words: &[String]) -> Option<Stdio<'_>>
    ensures { MatchOption result
        ((folder : List ℕ) (peer : PeerMeant) → ¬ meant.AreArguments (map string_bytes words.now) folder peer)
        (λ it. meant.AreArguments (map string_bytes words.now) it.folder.now (record {
          user = it.user.now;
          groups = meant.arguments (map string_bytes it.others.now);
          recovery = it.recovery;
        })) }
{
    let flags = count_recovery(words);
    if flags > 1 {
        return None;
    }
    let folder = first_argument(words)?;
    let user = first_argument(folder.after)?;
    Some(Stdio {
        folder: folder.word,
        user: user.word,
        others: user.after,
        recovery: flags == 1,
    })
}

// The words `stdio [--recovery] DIR USER [GROUP]...`.
#[tactic(auto, using(crate::proofs::Arguments::no_words, crate::proofs::Arguments::other_command, crate::proofs::Arguments::unknown_flag, crate::proofs::Arguments::no_arguments))]
fn read_stdio(words: &[String]) -> Option<Stdio<'_>>
    ensures { MatchOption result
        (IsNoStdio (map string_bytes words.now))
        (λ it. meant.IsStdio (map string_bytes words.now) it.folder.now (record {
          user = it.user.now;
          groups = meant.arguments (map string_bytes it.others.now);
          recovery = it.recovery;
        })) }
{
    let (command, behind) = words.split_first()?;
    if command.as_str() != "stdio" || has_unknown_flag(behind) {
        return None;
    }
    read_arguments(behind)
}

// The argument of a command of that name which has one.
fn one_argument<'a>(words: &'a [String], name: &str) -> Option<&'a str>
    ensures { MatchOption result
        ((first : List ℕ) → ¬ meant.IsCommand name.now (map string_bytes words.now) (first ∷ []))
        (λ first. meant.IsCommand name.now (map string_bytes words.now) (first.now ∷ [])) }
{
    let [command, first] = words else {
        return None;
    };
    if command.as_str() != name {
        return None;
    }
    if begins_with_hyphen(first.as_str()) {
        return None;
    }
    Some(first.as_str())
}

// The two arguments of a command.
#[derive(Clone, Copy)]
struct Two<'a> {
    first: &'a str,
    second: &'a str,
}

// The arguments of a command of that name which has two.
fn two_arguments<'a>(words: &'a [String], name: &str) -> Option<Two<'a>>
    ensures { MatchOption result
        ((first second : List ℕ) →
        ¬ meant.IsCommand name.now (map string_bytes words.now) (first ∷ second ∷ []))
        (λ it. meant.IsCommand name.now (map string_bytes words.now) (it.first.now ∷ it.second.now ∷ [])) }
{
    let [command, first, second] = words else {
        return None;
    };
    if command.as_str() != name {
        return None;
    }
    if begins_with_hyphen(first.as_str()) {
        return None;
    }
    if begins_with_hyphen(second.as_str()) {
        return None;
    }
    Some(Two {
        first: first.as_str(),
        second: second.as_str(),
    })
}

// The words `serve DIR ADDRESS`.
fn read_serve(words: &[String]) -> Option<Two<'_>>
    ensures { MatchOption result
        ((folder address : List ℕ) → ¬ meant.IsServe (map string_bytes words.now) folder address)
        (λ it. meant.IsServe (map string_bytes words.now) it.first.now it.second.now) }
{
    let it = two_arguments(words, "serve")?;
    match read_address(it.second) {
        Some(_) => Some(it),
        None => None,
    }
}

// How many edits a word asks for.
fn read_edits(word: &str) -> Option<u32>
    ensures { MatchOption result
        ((n : ℕ) → n ≢ 0 → n ≤ meant.most_edits → word.now ≢ decimal n)
        (λ n. (n ≢ 0) × (n ≤ meant.most_edits) × (word.now ≡ decimal n)) }
{
    let edits = parse_decimal(word, 10_000)?;
    if edits == 0 {
        return None;
    }
    Some(edits as u32)
}

// The words `check DIR`, `script DIR FILE` or `serve DIR ADDRESS`.
fn read_folder(words: &[String]) -> Option<InFolder<'_>>
    ensures { MatchOption result
        (IsNoFolder (map string_bytes words.now))
        (λ it. AsksIn (map string_bytes words.now) it.folder.now it.work) }
{
    if let Some(folder) = one_argument(words, "check") {
        let work = Work::Check;
        return Some(InFolder { folder, work });
    }
    if let Some(it) = two_arguments(words, "script") {
        return Some(InFolder {
            folder: it.first,
            work: Work::Script(it.second),
        });
    }
    let it = read_serve(words)?;
    Some(InFolder {
        folder: it.first,
        work: Work::Serve(it.second),
    })
}

// The words `load N`.
fn read_load(words: &[String]) -> Option<u32>
    ensures { MatchOption result
        (IsNoLoad (map string_bytes words.now))
        (λ edits. meant.IsLoad (map string_bytes words.now) edits) }
{
    read_edits(one_argument(words, "load")?)
}

/// Reads the words after the program's name. `None` means that they are no command line: the command is
/// another, it has too few arguments or too many, an address or a number is none, the flag of `stdio`
/// stands twice, or another word begins with a hyphen.
#[tactic(auto, using(crate::proofs::Arguments::nothing))]
pub fn read_words(words: &[String]) -> Option<Command<'_>>
    ensures { AsksFor (map string_bytes words.now) result }
{
    if let Some(stdio) = read_stdio(words) {
        return Some(Command::Stdio(stdio));
    }
    if let Some(it) = read_folder(words) {
        return Some(Command::Folder(it));
    }
    match read_load(words) {
        Some(edits) => Some(Command::Load(edits)),
        None => None,
    }
}
