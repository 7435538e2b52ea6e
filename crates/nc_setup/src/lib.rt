//! The folder of a device: the modules, features and initial configuration with which the server starts.
//!
//! It stands on the files of nc_outside, the compiler of nc_yang, the reader of nc_message_read, the rows of
//! a payload of nc_payload, and the constraints of nc_validate and nc_refs.
//!
//! `read_folder` promises what the files hold, where they tell it. `set_up` promises the schema that the
//! modules define and a running configuration that is valid by it, or why there is none: the first of a
//! module's broken rule, a line that names no feature, and a fault of the initial configuration.
#![tactic(auto)]

mod fault;
mod features;
mod folder;
mod initial;
mod setup;
mod stop;

pub use fault::SetupFault;
pub use folder::{Contents, is_module_name, read_folder};
pub use setup::{Setup, set_up};
