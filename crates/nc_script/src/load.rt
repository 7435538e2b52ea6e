//! The script of a load test.
ghost use Rattle.std.specs.Prelude.{◌≡◌, ◌+◌, ◌++◌, ◌∷◌, [], ◌<◌, IfOk, OnOk};
ghost use Rattle.std.specs.Fmt.{decimal};
ghost use Rattle.std.specs.List.{All};
ghost use Rattle.nc_script.specs.Load as meant;
ghost use Rattle.nc_script.specs.Steps.{IsTimed};
ghost use Rattle.nc_script_text.specs.declared.step.ScriptStep.TheVariants.{Piece as StepPiece};

use crate::{ScriptStep, load_words as words};
use itoa::Buffer;
use nc_names::{Bytes, Many, Memory, Text};
use nc_protocol::Peer;
use std::alloc::Global;

fn push_text(text: &str, out: &mut Bytes) -> Result<(), Memory>
    ensures { OnOk result (out.new ≡ out.old ++ text.now) }
{
    out.push_slice(text.as_bytes())
}

fn push_number(number: u32, out: &mut Bytes) -> Result<(), Memory>
    ensures { OnOk result (out.new ≡ out.old ++ decimal number) }
{
    let mut digits = Buffer::new();
    push_text(digits.format(number), out)
}

// An edit that merges a port with its tag.
fn edit_text(alloc: Global, port: u32) -> Result<Bytes, Memory>
    requires { port < 1000 }
    ensures { IfOk result (λ it. it ≡ meant.edit_text port) }
{
    let mut out = Bytes::new(alloc);
    push_text(words::edit_head(), &mut out)?;
    push_number(port, &mut out)?;
    push_text(words::edit_middle(), &mut out)?;
    push_number(port + 1, &mut out)?;
    push_text(words::edit_tail(), &mut out)?;
    Ok(out)
}

fn text_of(alloc: Global, text: &str) -> Result<Bytes, Memory>
    ensures { IfOk result (λ it. it ≡ text.now) }
{
    Bytes::from_slice(alloc, text.as_bytes())
}

fn send(
    alloc: Global,
    connection: u32,
    text: &str,
    steps: &mut Many<ScriptStep>,
) -> Result<(), Memory>
    ensures { OnOk result (steps.new ≡ steps.old ++ StepPiece connection text.now ∷ []) }
{
    let bytes = text_of(alloc, text)?;
    steps.push(ScriptStep::Piece { connection, bytes })
}

fn load_peer(alloc: Global) -> Result<Peer, Memory>
    ensures { IfOk result (λ it. it ≡ meant.load_peer) }
{
    Ok(Peer {
        user: Text::from_text(alloc, words::load_user())?,
        groups: Many::new(alloc),
        recovery: true,
    })
}

// A connection begins, and greets.
fn greet(alloc: Global, connection: u32, steps: &mut Many<ScriptStep>) -> Result<(), Memory>
    ensures { OnOk result (steps.new ≡ steps.old ++ meant.greeting connection) }
{
    let peer = load_peer(alloc)?;
    steps.push(ScriptStep::Begin { connection, peer })?;
    send(alloc, connection, words::client_hello(), steps)
}

fn begin_all(alloc: Global) -> Result<Many<ScriptStep>, Memory>
    ensures { IfOk result (λ it. it ≡ meant.begin_steps) }
{
    let mut steps = Many::new(alloc);
    greet(alloc, 1, &mut steps)?;
    greet(alloc, 2, &mut steps)?;
    greet(alloc, 3, &mut steps)?;
    greet(alloc, 4, &mut steps)?;
    Ok(steps)
}

// One connection sends an edit, and after every tenth a commit.
fn take_turn(alloc: Global, turn: u32, steps: &mut Many<ScriptStep>) -> Result<(), Memory>
    ensures { OnOk result (steps.new ≡ steps.old ++ meant.load_turn turn) }
{
    let connection = 1 + turn % 4;
    let bytes = edit_text(alloc, turn % 1000)?;
    steps.push(ScriptStep::Piece { connection, bytes })?;
    if turn % 10 != 9 {
        return Ok(());
    }
    send(alloc, connection, words::commit_text(), steps)
}

fn close_all(alloc: Global, steps: &mut Many<ScriptStep>) -> Result<(), Memory>
    ensures { OnOk result (steps.new ≡ steps.old ++ meant.close_steps) }
{
    send(alloc, 1, words::commit_text(), steps)?;
    send(alloc, 1, words::close_text(), steps)?;
    send(alloc, 2, words::close_text(), steps)?;
    send(alloc, 3, words::close_text(), steps)?;
    send(alloc, 4, words::close_text(), steps)
}

/// The script of a load test with so many edits. Four recovery sessions begin, and merge ports of the module
/// `ex` into the candidate in turn, with a commit after every tenth edit. A last commit follows, and each
/// session is closed. The clock is not read.
#[tactic(auto, using(crate::proofs::Loads::load_timed))]
pub fn load_script(alloc: Global, edits: u32) -> Result<Many<ScriptStep>, Memory>
    ensures steps { IfOk result (λ it. it ≡ meant.load_steps edits) }
    ensures timed { IfOk result (All IsTimed) }
{
    let mut steps = begin_all(alloc)?;
    for turn in 0..edits {
        take_turn(alloc, turn, &mut steps)?;
    }
    close_all(alloc, &mut steps)?;
    Ok(steps)
}
