//! The text of a reply: rows that it shows are written one after another, and no elements are made of them.
#![tactic(auto, using(nc_names::proofs::Extending::extends_self, nc_names::proofs::Extending::extends_more))]

ghost use Rattle.std.specs.Prelude.{◌≡◌, ◌+◌, ◌^◌, ◌<◌, ◌∷◌, ◌++◌, [], map, None, IfOk, OnOk, OnErr};
ghost use Rattle.std.specs.Option.{option_copied};
ghost use Rattle.nc_names.specs.Appending.{Appends};
ghost use Rattle.nc_names.specs.Signs.{greater_than};
ghost use Rattle.nc_message.specs.Written.{start_tag, written, written_part};
ghost use Rattle.nc_protocol.specs.Content.{base_name};
ghost use Rattle.nc_protocol.specs.Printed.{printed};
ghost use Rattle.nc_protocol.specs.Reply.{base_part, with_data};
ghost use Rattle.nc_protocol.specs.Words.{data_word};
ghost use Rattle.nc_print.specs.inner.Texts.{Ends, opening, parts_text, run_text, some_text};

use crate::latest::Latest;
use crate::runs::{first, front, longest, own_value, run, tail};
use crate::value_types::value_bounds;
use nc_message::{Bounds, Tree, write, write_chars, write_empty_end, write_end, write_start};
use nc_names::{Bytes, Memory, QName, Row, Text};
use nc_protocol::{Reply, Shown, reply_words, request_words};
use nc_schema::{Node, Schema};
use nc_tree::Config;
use std::alloc::Global;

// A value that is written as text: one that is not empty.
fn some_text(value: Option<&Text>) -> Option<&Text>
    ensures { option_copied result ≡ some_text (option_copied value.entry) }
{
    match value {
        Some(text) if !text.is_empty() => Some(text),
        _ => None,
    }
}

// Appends the start tag of an element that binds no names.
fn write_plain(above: &str, name: &QName, out: &mut Bytes) -> Result<(), Memory>
    ensures { Appends result out.old out.new (start_tag above.now name.now [] [] ++ greater_than ∷ []) }
{
    write_start(above, name, &Bounds::new(), &[], out)?;
    out.push(b'>')
}

// Appends the start tag of a data node's element, and its text.
fn write_opening(
    schema: &Schema,
    above: &str,
    number: u32,
    node: &Node,
    text: Option<&Text>,
    latest: &mut Latest,
    out: &mut Bytes,
) -> Result<(), Memory>
    ensures { Appends result out.old out.new
        (opening above.now schema.now number node.now (option_copied text.entry)) }
{
    let Some(text) = text else {
        return write_plain(above, &node.name, out);
    };
    let bounds = value_bounds(out.alloc(), schema, number, text, latest)?;
    write_start(above, &node.name, &bounds, &[], out)?;
    out.push(b'>')?;
    write_chars(text.as_str(), out)
}

// Ends an element without text. Where nothing stands in it, it is written as an empty one.
fn end_plain(name: &QName, inside: usize, out: &mut Bytes) -> Result<(), Memory>
    ensures { Ends result out.old out.new name.now None inside }
{
    if out.len() == inside {
        out.truncate(inside.saturating_sub(1));
        return write_empty_end(out);
    }
    write_end(name, out)
}

// Ends an element.
fn write_ending(
    name: &QName,
    text: Option<&Text>,
    inside: usize,
    out: &mut Bytes,
) -> Result<(), Memory>
    ensures { Ends result out.old out.new name.now (option_copied text.entry) inside }
{
    match text {
        Some(_) => write_end(name, out),
        None => end_plain(name, inside, out),
    }
}

// Appends the element of rows that stand together, below one of the namespace `above`.
#[tactic(auto, using(nc_names::proofs::Extending::extends_self, nc_names::proofs::Extending::extends_more, nc_names::proofs::Extending::extends_twice, crate::proofs::WriteLemmas::nothing_first, crate::proofs::WriteLemmas::nothing_there, crate::proofs::WriteLemmas::nothing_known, crate::proofs::WriteLemmas::nothing_more))]
#[cycle(write)]
fn write_run(
    schema: &Schema,
    above: &str,
    levels: usize,
    depth: usize,
    rows: &[&Row],
    latest: &mut Latest,
    out: &mut Bytes,
) -> Result<(), Memory>
    requires { depth + 1 + levels < 2 ^ 64 }
    ensures { Appends result out.old out.new
        (run_text above.now schema.now levels depth (map (λ row. row.now) rows.now)) }
{
    let Some(row) = first(rows) else {
        return Ok(());
    };
    let Some(step) = row.path.steps.get(depth) else {
        return Ok(());
    };
    let Some(node) = schema.node(step.node) else {
        return Ok(());
    };
    let text = some_text(own_value(depth, row));
    write_opening(schema, above, step.node, node, text, latest, out)?;
    let inside = out.len();
    let space = node.name.space.as_str();
    write_parts(schema, space, levels, depth + 1, rows, latest, out)?;
    write_ending(&node.name, text, inside, out)
}

// Appends the elements of rows at a depth, with so many levels of elements in them, below one of the
// namespace `above`.
#[tactic(auto, using(nc_names::proofs::Extending::extends_self, nc_names::proofs::Extending::extends_more, nc_names::proofs::Extending::extends_twice, crate::proofs::WriteLemmas::text_step, crate::proofs::WriteLemmas::level_text, crate::proofs::WriteLemmas::no_level, crate::proofs::WriteLemmas::level_ends, crate::proofs::WriteLemmas::extends_on))]
#[cycle(write)]
fn write_parts(
    schema: &Schema,
    above: &str,
    levels: usize,
    depth: usize,
    rows: &[&Row],
    latest: &mut Latest,
    out: &mut Bytes,
) -> Result<(), Memory>
    requires { depth + levels < 2 ^ 64 }
    ensures { Appends result out.old out.new
        (parts_text above.now schema.now levels depth (map (λ row. row.now) rows.now)) }
{
    if levels == 0 {
        return Ok(());
    }
    let mut rest = rows;
    'runs: while !rest.is_empty() {
        let count = run(depth, rest);
        let together = front(rest, count);
        write_run(schema, above, levels - 1, depth, together, latest, out)?;
        rest = tail(rest, count);
    }
    Ok(())
}

// The name of `data`, the element of a reply with rows (RFC 6241 7.1).
fn data_name(alloc: Global) -> Result<QName, Memory>
    ensures { IfOk result (λ it. it ≡ base_name data_word) }
{
    Ok(QName {
        space: Text::from_text(alloc, request_words::base_namespace())?,
        name: Text::from_text(alloc, reply_words::data())?,
    })
}

// Appends `data` with rows in it, below an element of the namespace `above`.
fn write_data(
    alloc: Global,
    above: &str,
    schema: &Schema,
    rows: &Config,
    out: &mut Bytes,
) -> Result<(), Memory>
    ensures { Appends result out.old out.new
        (written_part above.now (base_part data_word (printed schema.now rows.now))) }
{
    let name = data_name(alloc)?;
    let listed = rows.rows(alloc)?;
    let rows = listed.as_slice();
    let mut latest = Latest::new(alloc);
    write_plain(above, &name, out)?;
    let inside = out.len();
    write_parts(
        schema,
        name.space.as_str(),
        longest(rows),
        0,
        rows,
        &mut latest,
        out,
    )?;
    end_plain(&name, inside, out)
}

// Appends a reply that shows rows.
#[tactic(auto, using(nc_names::proofs::Extending::extends_self, nc_names::proofs::Extending::extends_more, crate::proofs::WriteLemmas::reply_written))]
fn write_shown(alloc: Global, tree: &Tree, shown: &Shown, out: &mut Bytes) -> Result<(), Memory>
    ensures { Appends result out.old out.new
        (written (with_data tree.now (printed shown.now.schema.value shown.now.rows))) }
{
    let root = &tree.root;
    write_start("", &root.name, &Bounds::new(), root.attrs.as_slice(), out)?;
    out.push(b'>')?;
    let space = root.name.space.as_str();
    write_data(alloc, space, &shown.schema, &shown.rows, out)?;
    write_end(&root.name, out)
}

/// Appends the text of a reply, as nc_message's `write` does of a tree. Rows that it shows are written as
/// their elements are, but no elements are made of them (RFC 7950 7.5.7, 7.6.5, 7.7.8 and 7.8.5). `Memory`
/// changes nothing.
pub fn write_reply(alloc: Global, reply: &Reply, out: &mut Bytes) -> Result<(), Memory>
    ensures ok { OnOk result (out.new ≡ out.old ++ written reply.now) }
    ensures err { OnErr result (out.new ≡ out.old) }
{
    let (tree, shown) = reply.held();
    let Some(shown) = shown else {
        return write(tree, out);
    };
    let before = out.len();
    let result = write_shown(alloc, tree, shown, out);
    if result.is_err() {
        out.truncate(before);
    }
    result
}
