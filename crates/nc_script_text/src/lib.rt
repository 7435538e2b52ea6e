//! Scripts as texts: what the clients of a server do, one step after another.
//!
//! It stands on nc_names and on the clients of nc_protocol. `read_script` gives the steps that a text is: the
//! text is the lines of exactly these steps. Else it names the first line that is none.
#![tactic(auto)]

mod fault;
mod head;
mod line;
mod step;
mod text;
mod words;

pub use fault::ScriptTextFault;
pub use step::ScriptStep;
pub use text::read_script;
