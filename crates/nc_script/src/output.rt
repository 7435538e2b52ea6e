//! What a script gives.
use nc_names::{Bytes, Many};
use nc_session::SessionEnd;

/// What a connection was told.
#[derive(PartialEq, Eq, Drop)]
pub struct Output {
    /// The connection's number.
    pub connection: u32,
    /// All bytes that were written to it.
    pub bytes: Bytes,
    /// How its session ended, where it has.
    pub end: Option<SessionEnd>,
}

/// What a script gives.
#[derive(Drop)]
pub struct ScriptRun {
    /// What each connection was told, in the order in which they began.
    pub outputs: Many<Output>,
    /// How many entries were made.
    pub entries: u64,
    /// How many replies have no `rpc-error`.
    pub ok: u64,
    /// How many replies have one or more.
    pub errors: u64,
    /// How many rows running has.
    pub rows: u64,
}
