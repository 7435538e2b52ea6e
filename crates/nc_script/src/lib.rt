//! Scripts: many sessions at one server, with every byte that they send and every reading of the clock in one
//! order.
//!
//! It stands on `Machine` of nc_machine and on `SessionCore` of nc_session, and on no clock but the script's
//! own. `read_script` of nc_script_text gives the steps. `run_script` does them: the entries are one history,
//! legal from the machine's state on, with a group for each step, and what each connection is told is the
//! text of its session. A fault names the step, and the machine then has the groups of the steps before it.
#![tactic(auto)]

mod enter;
mod fault;
mod hear;
mod laws;
mod leaving;
mod load;
mod load_words;
mod output;
mod run;
mod talk;
mod talks;
mod tally;

pub use fault::ScriptFault;
pub use laws::killed_by_another;
pub use load::load_script;
pub use nc_script_text::{ScriptStep, ScriptTextFault, read_script};
pub use output::{Output, ScriptRun};
pub use run::run_script;
