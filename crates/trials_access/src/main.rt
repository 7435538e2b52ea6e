//! Decisions of nc_nacm over rows of running. Each line of the input puts a row of running, says who asks,
//! or asks a question, and is printed, a question with what is answered; empty lines and those that begin
//! with `#` are printed as they are. Nothing stands on this crate.
#![tactic(auto)]

mod asked;
mod given;
mod site;

use nc_nacm::Policy;
use nc_names::{Copies, Many, Memory, Text};
use nc_protocol::Peer;
use nc_schema::Schema;
use nc_tree::Config;
use std::alloc::Global;
use std::io::{self, ErrorKind};

/// What the questions are about.
#[derive(Drop)]
struct Asking {
    running: Config,
    peer: Peer,
}

fn texts(alloc: Global, words: &str) -> Result<Many<Text>, Memory> {
    let mut texts = Many::new(alloc);
    for word in words.split(' ') {
        if !word.is_empty() {
            texts.push(Text::from_text(alloc, word)?)?;
        }
    }
    Ok(texts)
}

/// The client of a session: its name and the groups that its transport names.
fn peer(alloc: Global, words: &str, recovery: bool) -> Result<Peer, Memory> {
    let (user, groups) = words.split_once(" ").unwrap_or((words, ""));
    Ok(Peer {
        user: Text::from_text(alloc, user)?,
        groups: texts(alloc, groups)?,
        recovery,
    })
}

/// What a line puts; none where it is a question.
fn put(
    alloc: Global,
    schema: &Schema,
    asking: &mut Asking,
    kind: &str,
    rest: &str,
) -> Result<Option<()>, Memory> {
    let running = &mut asking.running;
    match kind {
        "anew" => *running = Config::empty(alloc),
        "set" => given::set(alloc, schema, running, rest)?,
        "group" => given::group(alloc, schema, running, rest)?,
        "list" => given::list(alloc, schema, running, rest)?,
        "rule" => given::rule(alloc, schema, running, rest)?,
        "row" => given::row(alloc, schema, running, rest)?,
        "user" => asking.peer = peer(alloc, rest, false)?,
        "recovery" => asking.peer = peer(alloc, rest, true)?,
        _ => return Ok(None),
    }
    Ok(Some(()))
}

/// What is answered to a question.
fn answer(
    alloc: Global,
    schema: &Schema,
    asking: &Asking,
    kind: &str,
    rest: &str,
) -> Result<String, Memory> {
    let peer = &asking.peer;
    let policy = Policy::of(alloc, schema, &asking.running)?;
    match kind {
        "invoke" => asked::exec(alloc, &policy, peer, rest),
        "call" => asked::call(alloc, &policy, peer, rest),
        "open" => asked::open(alloc, &policy, peer),
        "count" => asked::count(alloc, schema, &policy, peer, &asking.running),
        "visible" => asked::visible(alloc, schema, &policy, peer, &asking.running),
        _ => asked::data(alloc, schema, &policy, peer, kind, rest),
    }
}

/// What is printed of a line.
fn shown(
    alloc: Global,
    schema: &Schema,
    asking: &mut Asking,
    line: &str,
) -> Result<String, Memory> {
    let (kind, rest) = line.split_once(" ").unwrap_or((line, ""));
    if line.is_empty() || line.starts_with('#') {
        return Ok(String::from_str(alloc, line)?);
    }
    if put(alloc, schema, asking, kind, rest)?.is_some() {
        return Ok(String::from_str(alloc, line)?);
    }
    let answer = answer(alloc, schema, asking, kind, rest)?;
    Ok(format!(in alloc; "{line} => {answer}")?)
}

fn no_memory(_: Memory) -> io::Error {
    io::Error::from(ErrorKind::OutOfMemory)
}

fn nobody(alloc: Global) -> Peer {
    Peer {
        user: Text::new(alloc),
        groups: Many::new(alloc),
        recovery: false,
    }
}

fn main(rt: HostRuntime) -> io::Result<()> {
    let alloc = rt.alloc();
    let mut schema = Schema::new(alloc);
    site::put_all(alloc, &mut schema).map_err(no_memory)?;
    let mut asking = Asking {
        running: Config::empty(alloc),
        peer: nobody(alloc),
    };
    for line in rt.lines(alloc) {
        let shown = shown(alloc, &schema, &mut asking, line?.as_str()).map_err(no_memory)?;
        println!(rt; "{shown}")?;
    }
    Ok(())
}
