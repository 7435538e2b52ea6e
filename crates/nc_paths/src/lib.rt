//! Path texts and what they name in a schema: instance identifiers (RFC 7950 9.13), node-instance
//! identifiers (RFC 8341 3.5.2), the keys of an anchor (RFC 7950 7.8.6) and the paths of leafrefs
//! (RFC 7950 9.9.2). It stands on the plain types of `nc_names` and on the schema.
//!
//! Each call answers exactly what the definitions of `nc_schema` say, or nothing exactly where they have
//! nothing; keys are as they are written. The words, names and signs of path texts are read by calls of their
//! own, on which `nc_path_places` stands: it says where a text is at fault.
#![tactic(auto)]

mod cut;
mod instance;
mod leafref;
mod resolve;
mod steps;
mod stop;
mod words;

pub use cut::{after_byte, begins_with};
pub use instance::{entry_keys, instance_path, leafref_end, node_pattern};
pub use leafref::{leafref_name, next_part, parent_of};
pub use resolve::{is_of_key, key_nodes, module_of, qualified};
pub use steps::own_name;
pub use stop::Stop;
pub use words::{Name, read_key, read_name, read_quoted};
