//! The edits of a payload.
ghost use Rattle.std.specs.Prelude.{◌≡◌, [], option_map};
ghost use Rattle.nc_protocol.specs.Payload as meant;
ghost use Rattle.nc_protocol.specs.Elements.{named, named_part, step_of};
ghost use Rattle.nc_protocol.specs.Payload.{elem_edits, part_edits, list_edits};
ghost use Rattle.nc_protocol.specs.declared.position.Under.TheVariants.{Inline};
ghost use Rattle.nc_payload.specs.inner.Reads.{Answers, ReadsAs};
ghost use Rattle.nc_protocol.specs.Payload.{reading_of};

use crate::causes::one_name;
use crate::earlier::Earlier;
use crate::elements::has_text;
use crate::faults::are_rows;
use crate::key_octets::KeysLeft;
use crate::made::{config_merged, with_below};
use crate::own::own;
use nc_message::{Elem, Part};
use nc_names::{CauseKind, Many, Memory, Step};
use nc_protocol::{Cause, Default3, Edit, EditOperation, Position, Under};
use nc_schema::Schema;
use nc_tree::Config;
use std::alloc::Global;

/// Why a payload is not read.
#[derive(Debug, Drop)]
pub enum PayloadFault {
    /// Its first fault.
    Bad(Cause),
    /// Want of memory, or more octets of keys in the paths of its elements than one request may have.
    Memory,
}

impl From<Memory> for PayloadFault {
    ghost use Rattle.nc_payload.specs.declared.payload.PayloadFault.TheVariants.{Memory as PayloadMemory};

    ghost from_gives = { λ _ e. e ≡ PayloadMemory };

    fn from(_: Memory) -> PayloadFault {
        PayloadFault::Memory
    }
}

/// The edits of an element or of another part of one, and the last step of the path to its data node, if it
/// has one.
#[derive(Drop)]
pub(crate) struct Read {
    pub(crate) edits: Many<Edit>,
    pub(crate) step: Option<Step>,
}

#[cycle(read)]
fn read_elem(
    alloc: Global,
    schema: &Schema,
    at: &Position,
    earlier: &Earlier,
    elem: &Elem,
    keys: &mut KeysLeft,
) -> Result<Read, PayloadFault>
    ensures { ReadsAs (elem_edits (reading_of schema.now) at.now earlier.now elem.now)
        (option_map (step_of (reading_of schema.now) at.now.under)
        (named (reading_of schema.now) at.now.parent elem.now)) result }
{
    let found = own(alloc, schema, at, earlier, elem)?;
    *keys = keys.after(&found.within.above)?;
    let below = read_parts(alloc, schema, &found.within, &elem.parts, keys)?;
    Ok(with_below(alloc, schema, at.under, found, below)?)
}

#[cycle(read)]
fn read_part(
    alloc: Global,
    schema: &Schema,
    at: &Position,
    earlier: &Earlier,
    part: &Part,
    keys: &mut KeysLeft,
) -> Result<Read, PayloadFault>
    ensures { ReadsAs (part_edits (reading_of schema.now) at.now earlier.now part.now)
        (option_map (step_of (reading_of schema.now) at.now.under)
        (named_part (reading_of schema.now) at.now.parent part.now)) result }
{
    match part {
        Part::Child(elem) => read_elem(alloc, schema, at, earlier, elem.get(), keys),
        Part::Chars(_) => Ok(Read {
            edits: Many::new(alloc),
            step: None,
        }),
    }
}

#[cycle(read)]
fn read_parts(
    alloc: Global,
    schema: &Schema,
    at: &Position,
    parts: &Many<Part>,
    keys: &mut KeysLeft,
) -> Result<Many<Edit>, PayloadFault>
    ensures { Answers (list_edits (reading_of schema.now) at.now [] parts.now) result }
{
    let mut edits = Many::new(alloc);
    let mut earlier = Earlier::new(alloc, are_rows(at.under));
    for part in parts.as_slice() {
        let read = read_part(alloc, schema, at, &earlier, part, keys)?;
        edits.append(read.edits)?;
        earlier = earlier.with_any(read.step)?;
    }
    Ok(edits)
}

/// The edits of a whole `config`, whose own attributes say nothing, where the paths to its elements have no
/// more octets of keys than these.
pub(crate) fn config_edits(
    alloc: Global,
    schema: &Schema,
    under: Under,
    config: &Elem,
    keys: KeysLeft,
) -> Result<Many<Edit>, PayloadFault>
    ensures { Answers (meant.config_edits (reading_of schema.now) under config.now) result }
{
    if has_text(&config.parts) {
        let names = one_name(alloc, &config.name.name)?;
        return Err(PayloadFault::Bad(Cause::inside(
            CauseKind::BadElement,
            Many::new(alloc),
            names,
        )));
    }
    let top = Position {
        above: Many::new(alloc),
        parent: None,
        under,
    };
    let mut keys = keys;
    read_parts(alloc, schema, &top, &config.parts, &mut keys)
}

fn by_default(default_operation: Default3) -> EditOperation
    ensures { result ≡ meant.by_default default_operation }
{
    match default_operation {
        Default3::Merge => EditOperation::Merge,
        Default3::Replace => EditOperation::Replace,
        Default3::Nothing => EditOperation::Nothing,
    }
}

/// The edits of an edit-config's payload (RFC 6241 7.2).
///
/// # Errors
///
/// `Bad` with the first fault in document order; `Memory` also where the keys in the paths to its elements
/// have more than 134,217,728 octets in all.
pub fn edits(
    alloc: Global,
    schema: &Schema,
    config: &Elem,
    default_operation: Default3,
) -> Result<Many<Edit>, PayloadFault>
    ensures { Answers (meant.edits_of schema.now default_operation config.now) result }
{
    config_edits(
        alloc,
        schema,
        Under::Edited {
            operation: by_default(default_operation),
        },
        config,
        KeysLeft::of_request(),
    )
}

/// The rows of an inline configuration (RFC 6241 7.3).
///
/// # Errors
///
/// `Bad` with the first fault in document order; `Memory` also where the keys in the paths to its elements
/// have more than 134,217,728 octets in all.
pub fn rows(alloc: Global, schema: &Schema, config: &Elem) -> Result<Config, PayloadFault>
    ensures { Answers (meant.rows_of schema.now config.now) result }
{
    let merges = config_edits(alloc, schema, Under::Inline, config, KeysLeft::of_request())?;
    Ok(config_merged(alloc, schema, merges)?)
}

// The merges of an inline configuration, which is let go.
fn merges_of(alloc: Global, schema: &Schema, config: Elem) -> Result<Many<Edit>, PayloadFault>
    ensures { Answers (meant.config_edits (reading_of schema.now) Inline config) result }
{
    config_edits(alloc, schema, Under::Inline, &config, KeysLeft::Any)
}

/// The same of an inline configuration that is let go as soon as it is read, before its rows are made: of a
/// large one they do not stand side by side. Its keys have as many octets as they have, since what was kept
/// has to be readable.
///
/// # Errors
///
/// `Bad` with the first fault in document order.
pub fn rows_of(alloc: Global, schema: &Schema, config: Elem) -> Result<Config, PayloadFault>
    ensures { Answers (meant.rows_of schema.now config) result }
{
    let merges = merges_of(alloc, schema, config)?;
    Ok(config_merged(alloc, schema, merges)?)
}
