//! What a run comes to, and its exit status.
ghost use Rattle.std.specs.Prelude.{◌≡◌};
ghost use Rattle.nc_words.specs.Ends as meant;
ghost use Rattle.nc_words.specs.declared.end.RunEnd.TheVariants.{Memory as EndMemory};

use nc_names::Memory;
use nc_server::ServeEnd;
use nc_session::SessionEnd;
use nc_setup::SetupFault;
use nc_store::StoreFault;

/// What a run comes to.
#[derive(Drop)]
pub enum RunEnd {
    /// The words have no valid reading.
    Words,
    /// The files could not be read.
    Files,
    /// What the folder holds makes no server.
    Setup(SetupFault),
    /// The store of the folder could not be opened.
    Store(StoreFault),
    /// No memory was found before anything was served.
    Memory,
    /// A session was served, and ended so.
    Session(SessionEnd),
    /// Connections were served, and that ended so.
    Served(ServeEnd),
    /// A script was done, or was not.
    Script(ScriptEnd),
    /// The store was looked at.
    Checked(Printed),
}

/// What a script comes to, once there is a server. Lines and steps count from 1.
#[derive(Clone, Copy)]
pub enum ScriptEnd {
    /// There is no such file.
    Absent,
    /// A line of it is no step.
    BadLine {
        /// The line.
        line: u64,
    },
    /// A step begins a connection that was begun before, or means one that is not open.
    BadStep {
        /// The step.
        n: u64,
    },
    /// The server has no number for an entry of a step.
    Spent {
        /// The step.
        n: u64,
    },
    /// No memory was found.
    Memory,
    /// Each step was done.
    Done(Printed),
}

/// Whether standard output took a text.
#[derive(Clone, Copy)]
pub enum Printed {
    /// It took a beginning of it, and then a write failed.
    Part,
    /// It took it whole.
    Whole,
}

impl From<Memory> for RunEnd {
    ghost from_gives = { λ _ end. end ≡ EndMemory };

    fn from(_: Memory) -> RunEnd {
        RunEnd::Memory
    }
}

// The status of a folder that makes no server.
fn setup_status(fault: &SetupFault) -> u8
    ensures { result ≡ meant.setup_status fault.now }
{
    match fault {
        SetupFault::Module { .. } | SetupFault::Feature { .. } => 3,
        SetupFault::Unread { .. } | SetupFault::Invalid { .. } => 4,
        SetupFault::Memory => 9,
    }
}

// The status of a store that is not opened.
fn store_status(fault: StoreFault) -> u8
    ensures { result ≡ meant.store_status fault }
{
    match fault {
        StoreFault::Damaged { .. } | StoreFault::OtherModules { .. } => 5,
        StoreFault::DiskFault => 8,
        StoreFault::Memory => 9,
    }
}

// The status of a session's end. Where it is alone at its server it is never killed, and there is room for
// it.
fn session_status(end: SessionEnd) -> u8
    ensures { result ≡ meant.session_status end }
{
    match end {
        SessionEnd::Closed | SessionEnd::InputEnded | SessionEnd::Killed => 0,
        SessionEnd::Full { .. } => 0,
        SessionEnd::ReadFault => 6,
        SessionEnd::WriteFault => 7,
        SessionEnd::Memory => 9,
        SessionEnd::BadHello { .. } | SessionEnd::BadFrame { .. } => 10,
        SessionEnd::Malformed { .. } | SessionEnd::TooBig { .. } => 10,
        SessionEnd::Spent { .. } => 14,
    }
}

// The status of serving.
fn serve_status(end: ServeEnd) -> u8
    ensures { result ≡ meant.serve_status end }
{
    match end {
        ServeEnd::NoMore => 0,
        ServeEnd::ListenFault { .. } => 11,
    }
}

// The status of a text.
fn printed_status(printed: Printed) -> u8
    ensures { result ≡ meant.printed_status printed }
{
    match printed {
        Printed::Part => 7,
        Printed::Whole => 0,
    }
}

// The status of a script's end.
fn script_status(end: ScriptEnd) -> u8
    ensures { result ≡ meant.script_status end }
{
    match end {
        ScriptEnd::Absent | ScriptEnd::BadLine { .. } | ScriptEnd::BadStep { .. } => 12,
        ScriptEnd::Spent { .. } => 14,
        ScriptEnd::Memory => 9,
        ScriptEnd::Done(printed) => printed_status(printed),
    }
}

impl RunEnd {
    /// The exit status.
    pub fn status(&self) -> u8
        ensures { result ≡ meant.status_of self.now }
    {
        match self {
            RunEnd::Words => 2,
            RunEnd::Files => 13,
            RunEnd::Memory => 9,
            RunEnd::Setup(fault) => setup_status(fault),
            RunEnd::Store(fault) => store_status(*fault),
            RunEnd::Session(end) => session_status(*end),
            RunEnd::Served(end) => serve_status(*end),
            RunEnd::Script(end) => script_status(*end),
            RunEnd::Checked(printed) => printed_status(*printed),
        }
    }
}
