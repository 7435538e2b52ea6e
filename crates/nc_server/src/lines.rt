//! The lines of the connections that are being served.
use nc_outside::Hangup;
use std::alloc::Global;

// The line of a connection, and the session on it once there is one.
#[derive(Drop)]
struct Line<H> {
    connection: u64,
    session: Option<u32>,
    line: H,
}

/// The lines that are open.
#[derive(Drop)]
pub(crate) struct Lines<H> {
    open: Vec<Line<H>>,
}

impl<H: Hangup + Drop> Lines<H> {
    /// No line.
    pub(crate) fn new(alloc: Global) -> Lines<H> {
        Lines {
            open: Vec::new(alloc),
        }
    }

    /// Adds the line of a connection. Without memory it is not added, and then no kill hangs it up.
    pub(crate) fn add(&mut self, connection: u64, line: H) {
        let session = None;
        let _ = self.open.push(Line {
            connection,
            session,
            line,
        });
    }

    /// A session was started on a connection.
    pub(crate) fn name(&mut self, connection: u64, session: u32) {
        for it in &mut self.open {
            if it.connection == connection {
                it.session = Some(session);
            }
        }
    }

    /// Hangs up the line of a session.
    pub(crate) fn hang_up_session(&self, session: u32) {
        for it in &self.open {
            if it.session == Some(session) {
                it.line.hang_up();
            }
        }
    }

    /// Hangs up the line of a connection.
    pub(crate) fn hang_up(&self, connection: u64) {
        for it in &self.open {
            if it.connection == connection {
                it.line.hang_up();
            }
        }
    }

    /// Hangs up all lines.
    pub(crate) fn hang_up_all(&self) {
        for it in &self.open {
            it.line.hang_up();
        }
    }

    /// The connection is over.
    pub(crate) fn remove(&mut self, connection: u64) {
        self.open.retain(|it| it.connection != connection);
    }
}
