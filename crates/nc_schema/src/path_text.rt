//! The text of a path (RFC 7950 9.13).
ghost use Rattle.std.specs.Prelude.{◌≡◌, [], ◌∷◌, ◌++◌, ◌==◌, IsTrue, IfOk, OnOk, OnErr};
ghost use Rattle.std.specs.List.{flat_map, list_any, zip};
ghost use Rattle.nc_schema.specs.Values.{given_predicate, pattern_step_text, pattern_text};
ghost use Rattle.nc_names.specs.Signs.{apostrophe};
ghost use Rattle.nc_schema.specs.PathTexts.{prefixed_name, module_name, mark_round, quoted, key_name, key_predicate, key_predicates, value_predicate, step_predicates, step_text, path_text_of};

use crate::{Kind, Pattern, PatternStep, Schema};
use nc_names::{Memory, Path, Step, Text};

impl Schema {
    /// Puts the text of a path of this schema at the end of `out`: an instance identifier in which
    /// every step and every key has its module's name as prefix. Where memory is wanting, `out` is as
    /// it was.
    pub fn path_text(&self, path: &Path, out: &mut Text) -> Result<(), Memory>
        ensures ok { OnOk result (out.new ≡ out.old ++ path_text_of self.now path.now) }
        ensures err { OnErr result (out.new ≡ out.old) }
    {
        let text = text_of(self, path, Text::new(out.alloc()))?;
        out.push_str(text.as_str())
    }

    /// Puts the text of a pattern of this schema at the end of `out`: that of a path, without the
    /// predicates that the pattern leaves out; `/` where it has no steps (RFC 8341,
    /// `node-instance-identifier`).
    pub fn pattern_text(&self, pattern: &Pattern, out: &mut Text) -> Result<(), Memory>
        ensures { OnOk result (out.new ≡ out.old ++ pattern_text self.now pattern.now.steps) }
    {
        if pattern.steps.len() == 0 {
            return out.push_str("/");
        }
        for step in pattern.steps.as_slice() {
            write_pattern_step(self, step, out)?;
        }
        Ok(())
    }
}

/// Writes one step of a pattern.
fn write_pattern_step(schema: &Schema, step: &PatternStep, out: &mut Text) -> Result<(), Memory>
    ensures { OnOk result (out.new ≡ out.old ++ pattern_step_text schema.now step.now) }
{
    out.push_str("/")?;
    write_name(schema, step.node, out)?;
    let Some(node) = schema.node(step.node) else {
        return Ok(());
    };
    match node.kind {
        Kind::List => write_given(
            schema,
            step.node,
            node.keys.as_slice(),
            step.keys.as_slice(),
            out,
        ),
        Kind::LeafList => write_given(schema, step.node, &[step.node], step.keys.as_slice(), out),
        Kind::Container { .. } | Kind::Leaf => Ok(()),
    }
}

/// Writes the predicates that a pattern gives.
#[tactic(auto, using(crate::proofs::GivenLemmas::given_next, crate::proofs::GivenLemmas::given_short, crate::proofs::GivenLemmas::given_all))]
fn write_given(
    schema: &Schema,
    number: u32,
    keys: &[u32],
    values: &[Option<Text>],
    out: &mut Text,
) -> Result<(), Memory>
    ensures { OnOk result (out.new ≡ out.old
        ++ flat_map (λ pair. given_predicate schema.now number pair.0 pair.1) (zip keys.now values.now)) }
{
    for (place, value) in values.iter().enumerate() {
        let Some(key) = keys.get(place) else {
            return Ok(());
        };
        write_one_given(schema, number, *key, value, out)?;
    }
    Ok(())
}

/// Writes the predicate of a key, where the pattern gives it.
fn write_one_given(
    schema: &Schema,
    number: u32,
    key: u32,
    value: &Option<Text>,
    out: &mut Text,
) -> Result<(), Memory>
    ensures { OnOk result (out.new ≡ out.old ++ given_predicate schema.now number key value.now) }
{
    match value {
        None => Ok(()),
        Some(text) => {
            if key == number {
                write_value(text, out)
            } else {
                write_key(schema, key, text, out)
            }
        }
    }
}

/// The text of a path, at the end of another.
fn text_of(schema: &Schema, path: &Path, before: Text) -> Result<Text, Memory>
    ensures { IfOk result (λ text. text ≡ before ++ path_text_of schema.now path.now) }
{
    let mut text = before;
    for step in path.steps.as_slice() {
        write_step(schema, step, &mut text)?;
    }
    Ok(text)
}

/// Writes one step with its predicates.
fn write_step(schema: &Schema, step: &Step, out: &mut Text) -> Result<(), Memory>
    ensures { OnOk result (out.new ≡ out.old ++ step_text schema.now step.now) }
{
    out.push('/')?;
    write_name(schema, step.node, out)?;
    write_predicates(schema, step, out)
}

/// Writes the name of a data node with its module's name as prefix.
fn write_name(schema: &Schema, number: u32, out: &mut Text) -> Result<(), Memory>
    ensures { OnOk result (out.new ≡ out.old ++ prefixed_name schema.now number) }
{
    let Some(node) = schema.node(number) else {
        return Ok(());
    };
    write_module(schema, node.module, out)?;
    out.push(':')?;
    out.push_str(node.name.name.as_str())
}

/// Writes the name of a module.
fn write_module(schema: &Schema, number: u32, out: &mut Text) -> Result<(), Memory>
    ensures { OnOk result (out.new ≡ out.old ++ module_name schema.now number) }
{
    match schema.module(number) {
        Some(found) => out.push_str(found.name.as_str()),
        None => Ok(()),
    }
}

/// Writes the predicates of a step to an entry.
fn write_predicates(schema: &Schema, step: &Step, out: &mut Text) -> Result<(), Memory>
    ensures { OnOk result (out.new ≡ out.old ++ step_predicates schema.now step.now) }
{
    let Some(node) = schema.node(step.node) else {
        return Ok(());
    };
    match node.kind {
        Kind::List => write_keys(schema, node.keys.as_slice(), step.keys.as_slice(), out),
        Kind::LeafList => write_values(step.keys.as_slice(), out),
        Kind::Container { .. } | Kind::Leaf => Ok(()),
    }
}

/// Writes the predicates of a list entry.
fn write_keys(schema: &Schema, keys: &[u32], values: &[Text], out: &mut Text) -> Result<(), Memory>
    ensures { OnOk result (out.new ≡ out.old ++ key_predicates schema.now keys.now values.now) }
{
    for (key, value) in keys.iter().zip(values) {
        write_key(schema, *key, value, out)?;
    }
    Ok(())
}

/// Writes the predicate of one key.
fn write_key(schema: &Schema, key: u32, value: &Text, out: &mut Text) -> Result<(), Memory>
    ensures { OnOk result (out.new ≡ out.old ++ key_predicate schema.now key value.now) }
{
    write_key_name(schema, key, out)?;
    write_quoted(value, out)?;
    out.push(']')
}

/// Writes the predicate of a key up to its value.
fn write_key_name(schema: &Schema, key: u32, out: &mut Text) -> Result<(), Memory>
    ensures { OnOk result (out.new ≡ out.old ++ key_name schema.now key) }
{
    out.push('[')?;
    write_name(schema, key, out)?;
    out.push('=')
}

/// Writes the predicate of a leaf-list entry.
fn write_values(values: &[Text], out: &mut Text) -> Result<(), Memory>
    ensures { OnOk result (out.new ≡ out.old ++ flat_map value_predicate values.now) }
{
    for value in values {
        write_value(value, out)?;
    }
    Ok(())
}

/// Writes the predicate of a value of a leaf-list.
fn write_value(value: &Text, out: &mut Text) -> Result<(), Memory>
    ensures { OnOk result (out.new ≡ out.old ++ value_predicate value.now) }
{
    out.push_str("[.=")?;
    write_quoted(value, out)?;
    out.push(']')
}

/// Writes a value between two marks: apostrophes, unless it holds one.
fn write_quoted(value: &Text, out: &mut Text) -> Result<(), Memory>
    ensures { OnOk result (out.new ≡ out.old ++ quoted value.now) }
{
    let mark = mark_round(value);
    out.push(mark)?;
    out.push_str(value.as_str())?;
    out.push(mark)
}

/// The mark round a value.
fn mark_round(value: &Text) -> char
    ensures { result ≡ mark_round value.now }
{
    if value.as_str().as_bytes().contains(&39) {
        '"'
    } else {
        '\''
    }
}
