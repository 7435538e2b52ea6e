//! A body is read.
ghost use Rattle.std.specs.Prelude.{◌≡◌, ◌≤◌, ◌↔◌, List, length, drop, IfOk, IfErr, IsTrue};
ghost use Rattle.nc_names.specs.Limits.{body_limit};
ghost use Rattle.nc_names.specs.declared.path.Row.{Row};
ghost use Rattle.nc_schema.specs.Configuration.{IsConfiguration};
ghost use Rattle.nc_schema.specs.Proper.{IsProperSchema};
ghost use Rattle.nc_schema.specs.Record.{record_body, record_size};
ghost use Rattle.nc_record.specs.Reading.{AreTexts, IsRead};
ghost use Rattle.nc_record.specs.declared.fault.RecordFault.TheVariants.{Unreadable};
ghost use Rattle.nc_record.specs.inner.Given.{Gives};

use crate::RecordFault;
use crate::back::read_back;
use crate::body::whole;
use crate::placed::placed;
use crate::spelled::rows_in;
use nc_names::{BODY_LIMIT, Memory};
use nc_schema::Schema;
use nc_tree::Config;
use std::alloc::Global;

// The bytes of a body after its kind and the number of its rows.
fn records(body: &[u8]) -> &[u8]
    ensures { result.now ≡ drop 5 body.now }
{
    if body.len() < 5 { &[] } else { &body[5..] }
}

// The one configuration that a body may spell.
fn meant(alloc: Global, schema: &Schema, body: &[u8]) -> Result<Config, RecordFault>
    requires { IsProperSchema schema.now }
    ensures is { IfOk result (IsConfiguration schema.now) }
    ensures same { (rows : List Row) → IsRead schema.now body.now rows → Gives (λ it. it ≡ rows) result }
{
    let spelled = rows_in(alloc, schema.nodes(), records(body))?;
    let rows = placed(alloc, schema, spelled)?;
    read_back(alloc, schema, rows)
}

fn are_same(one: &[u8], other: &[u8]) -> bool
    ensures { IsTrue result ↔ (one.now ≡ other.now) }
{
    one == other
}

// Whether a configuration has that body.
fn is_body(alloc: Global, config: &Config, body: &[u8]) -> Result<bool, Memory>
    requires { record_size config.now ≤ body_limit }
    ensures same { IfOk result (λ it. IsTrue it ↔ (record_body config.now ≡ body.now)) }
    ensures texts { IfOk result (λ _. AreTexts config.now) }
{
    let written = whole(alloc, config)?;
    Ok(are_same(written.as_slice(), body))
}

/// The configuration that the body of a record spells: the only one.
///
/// # Errors
///
/// `Unreadable` exactly where the body spells no configuration of the schema whose values are texts, or is
/// past the limit; `Memory` where no memory was found.
pub fn read_record(alloc: Global, schema: &Schema, body: &[u8]) -> Result<Config, RecordFault>
    requires { IsProperSchema schema.now }
    ensures read { IfOk result (IsRead schema.now body.now) }
    ensures one { IfOk result (λ it. (rows : List Row) → IsRead schema.now body.now rows → rows ≡ it) }
    ensures unreadable { IfErr result (λ fault. fault ≡ Unreadable → (rows : List Row) →
        ¬ IsRead schema.now body.now rows) }
{
    let config = meant(alloc, schema, body)?;
    if !config.is_within(BODY_LIMIT) {
        return Err(RecordFault::Unreadable);
    }
    let same = is_body(alloc, &config, body)?;
    if !same {
        return Err(RecordFault::Unreadable);
    }
    Ok(config)
}
