//! Payloads of edit-config, copy-config and validate (RFC 6241 7.2, 7.3 and 8.6.4): `edits` reads the
//! edits of an edit-config's `config`, `rows` the configuration that an inline `config` holds, and `Names`
//! is the paths that the payload of a request names. It stands on the trees of `nc_message`, the schema of
//! `nc_schema` with `nc_paths` and `nc_types`, the definitions of `nc_protocol`, the configurations of
//! `nc_tree`, and `nc_made`, which makes one edit.
//!
//! The first two answer exactly what `edits_of` and `rows_of` define: the edits or rows, or the first fault
//! in document order. `Names` answers for each path what `names_path` defines. Want of memory alone is
//! free; a payload whose paths have more octets of keys than one request may have is refused like it.
#![tactic(auto)]

mod attributes;
mod causes;
mod content;
mod earlier;
mod elements;
mod faults;
mod gather;
mod indexed;
mod key_octets;
mod made;
mod marks;
mod own;
mod payload;
mod payload_paths;
mod texts;
mod words;

pub use payload::{PayloadFault, edits, rows, rows_of};
pub use payload_paths::Names;
