//! A configuration is written as a body.
ghost use Rattle.std.specs.Prelude.{◌≡◌, ◌≤◌, ◌<◌, ◌^◌, ◌++◌, ◌-◌, length, map, min, IfOk, IsUtf8};
ghost use Rattle.std.specs.List.{flat_map};
ghost use Rattle.nc_names.specs.Limits.{body_limit};
ghost use Rattle.nc_record.specs.Reading.{AreTexts};
ghost use Rattle.nc_record.specs.inner.Given.{AreShort};
ghost use Rattle.nc_schema.specs.Record.{in_four_bytes, last_node, record_body, record_size, row_record, value_bytes};

use nc_names::{Bytes, Memory, Row};
use nc_tree::Config;
use std::alloc::Global;

/// What a body begins with: it holds a whole configuration.
const WHOLE: u8 = 1;

// The text of a row's value, which is empty where it has none.
fn text_of(row: &Row) -> &str
    ensures { result.now ≡ value_bytes row.now }
{
    match &row.value {
        Some(text) => text.as_str(),
        None => "",
    }
}

// The data node to which the path of a row leads.
fn node_of(row: &Row) -> u32
    ensures { result ≡ last_node row.now }
{
    match row.path.steps.last() {
        Some(step) => step.node,
        None => 0,
    }
}

/// How many bytes the body of a configuration has, or 2^64 - 1 where there are more. A configuration tells at
/// once whether it has at most so many, so they are found by halves, and no row is looked at. It takes no
/// memory.
pub fn whole_size(config: &Config) -> u64
    ensures { result ≡ min (record_size config.now) (2 ^ 64 - 1) }
{
    let mut low = 0;
    let mut high = u64::MAX;
    while low < high {
        let middle = low + (high - low) / 2;
        if config.is_within(middle) {
            high = middle;
        } else {
            low = middle + 1;
        }
    }
    low
}

// Adds a number in four bytes, the highest first.
fn push_number(body: &mut Bytes, number: u32) -> Result<(), Memory>
    ensures { IfOk result (λ _. body.new ≡ body.old ++ in_four_bytes number) }
{
    body.push_slice(&number.to_be_bytes())
}

// Adds a row.
fn push_row(body: &mut Bytes, row: &Row) -> Result<(), Memory>
    requires { length (value_bytes row.now) < 2 ^ 32 }
    ensures written { IfOk result (λ _. body.new ≡ body.old ++ row_record row.now) }
    ensures text { IsUtf8 (value_bytes row.now) }
{
    let value = text_of(row);
    push_number(body, node_of(row))?;
    push_number(body, value.len() as u32)?;
    body.push_slice(value.as_bytes())
}

// Adds rows, whose values are texts.
fn push_rows(body: &mut Bytes, rows: &[&Row]) -> Result<(), Memory>
    requires { AreShort (map (λ row. row.now) rows.now) }
    ensures written { IfOk result (λ _. body.new
        ≡ body.old ++ flat_map row_record (map (λ row. row.now) rows.now)) }
    ensures texts { IfOk result (λ _. AreTexts (map (λ row. row.now) rows.now)) }
{
    for row in rows {
        push_row(body, *row)?;
    }
    Ok(())
}

/// The body of a record of a configuration, whose size is within the limit. The value of each row is a text.
#[tactic(auto, using(crate::proofs::Sizes::few_rows, crate::proofs::Sizes::short_values))]
pub fn whole(alloc: Global, config: &Config) -> Result<Bytes, Memory>
    requires { record_size config.now ≤ body_limit }
    ensures body { IfOk result (λ it. it ≡ record_body config.now) }
    ensures texts { IfOk result (λ _. AreTexts config.now) }
{
    let all = config.rows(alloc)?;
    let rows = all.as_slice();
    let room = whole_size(config) as usize;
    let mut body = Bytes::from_vec(Vec::with_capacity(alloc, room)?);
    body.push(WHOLE)?;
    push_number(&mut body, config.len() as u32)?;
    push_rows(&mut body, rows)?;
    Ok(body)
}
