//! What a request asks for: an operation with its parameters.
use crate::{Datastore, Origin};
use nc_message::{Bounds, Elem};
use nc_names::{Many, Text};

/// A protocol operation (RFC 6241 7, 8.3.4, 8.4.4 and 8.6.4; RFC 5717 2.4).
#[derive(Clone, Copy, PartialEq, Eq)]
pub enum Operation {
    /// `<get>` (RFC 6241 7.7).
    Get,
    /// `<get-config>` (RFC 6241 7.1).
    GetConfig,
    /// `<edit-config>` (RFC 6241 7.2).
    EditConfig,
    /// `<copy-config>` (RFC 6241 7.3).
    CopyConfig,
    /// `<delete-config>` (RFC 6241 7.4).
    DeleteConfig,
    /// `<lock>` (RFC 6241 7.5).
    Lock,
    /// `<unlock>` (RFC 6241 7.6).
    Unlock,
    /// `<close-session>` (RFC 6241 7.8).
    CloseSession,
    /// `<kill-session>` (RFC 6241 7.9).
    KillSession,
    /// `<commit>` (RFC 6241 8.3.4.1).
    Commit,
    /// `<discard-changes>` (RFC 6241 8.3.4.2).
    DiscardChanges,
    /// `<cancel-commit>` (RFC 6241 8.4.4.1).
    CancelCommit,
    /// `<validate>` (RFC 6241 8.6.4.1).
    Validate,
    /// `<partial-lock>` (RFC 5717 2.4.1).
    PartialLock,
    /// `<partial-unlock>` (RFC 5717 2.4.2).
    PartialUnlock,
}

/// The `default-operation` of edit-config (RFC 6241 7.2).
#[derive(Clone, Copy, PartialEq, Eq, Debug)]
pub enum Default3 {
    /// `merge`
    Merge,
    /// `replace`
    Replace,
    /// `none`
    Nothing,
}

/// The `test-option` of edit-config (RFC 6241 7.2).
#[derive(Clone, Copy, PartialEq, Eq, Debug)]
pub enum TestOption {
    /// `test-then-set`
    TestThenSet,
    /// `set`
    Set,
    /// `test-only`
    TestOnly,
}

/// The `error-option` of edit-config (RFC 6241 7.2).
#[derive(Clone, Copy, PartialEq, Eq, Debug)]
pub enum ErrorOption {
    /// `stop-on-error`
    Stop,
    /// `continue-on-error`
    Continue,
    /// `rollback-on-error` (RFC 6241 8.5)
    Rollback,
}

/// A `select` of partial-lock: an expression with the prefix bindings in force where it stands
/// (RFC 5717 2.4.1).
#[derive(PartialEq, Eq, Debug, Drop)]
pub struct Select {
    /// The expression.
    pub text: Text,
    /// The prefix bindings that are in force in the element.
    pub bounds: Bounds,
}

/// An operation with its parameters, where an absent one has its default.
#[derive(PartialEq, Eq, Debug, Drop)]
pub enum Asked {
    /// `<get>` (RFC 6241 7.7).
    Get {
        /// `<filter>`, a subtree filter (RFC 6241 6).
        filter: Option<Elem>,
    },
    /// `<get-config>` (RFC 6241 7.1).
    GetConfig {
        /// `<source>`.
        source: Datastore,
        /// `<filter>`, a subtree filter (RFC 6241 6).
        filter: Option<Elem>,
    },
    /// `<edit-config>` (RFC 6241 7.2).
    EditConfig {
        /// `<target>`.
        target: Datastore,
        /// `<default-operation>`, `merge` where it is absent.
        default_operation: Default3,
        /// `<test-option>`.
        test: TestOption,
        /// `<error-option>`, `stop-on-error` where it is absent.
        on_error: ErrorOption,
        /// `<config>`.
        config: Elem,
    },
    /// `<copy-config>` (RFC 6241 7.3).
    CopyConfig {
        /// `<target>`.
        target: Datastore,
        /// `<source>`.
        source: Origin,
    },
    /// `<delete-config>` (RFC 6241 7.4).
    DeleteConfig {
        /// `<target>`.
        target: Datastore,
    },
    /// `<lock>` (RFC 6241 7.5).
    Lock {
        /// `<target>`.
        target: Datastore,
    },
    /// `<unlock>` (RFC 6241 7.6).
    Unlock {
        /// `<target>`.
        target: Datastore,
    },
    /// `<close-session>` (RFC 6241 7.8).
    CloseSession,
    /// `<kill-session>` (RFC 6241 7.9).
    KillSession {
        /// `<session-id>`, from 1.
        session: u32,
    },
    /// `<commit>` (RFC 6241 8.3.4.1 and 8.4.5.1).
    Commit {
        /// Whether `<confirmed>` is there.
        confirmed: bool,
        /// `<confirm-timeout>` in seconds, 600 where it is absent.
        timeout: u32,
        /// `<persist>`.
        persist: Option<Text>,
        /// `<persist-id>`.
        persist_id: Option<Text>,
    },
    /// `<discard-changes>` (RFC 6241 8.3.4.2).
    DiscardChanges,
    /// `<cancel-commit>` (RFC 6241 8.4.4.1).
    CancelCommit {
        /// `<persist-id>`.
        persist_id: Option<Text>,
    },
    /// `<validate>` (RFC 6241 8.6.4.1).
    Validate {
        /// `<source>`.
        source: Origin,
    },
    /// `<partial-lock>` (RFC 5717 2.4.1).
    PartialLock {
        /// Each `<select>`, in order; at least one.
        selects: Many<Select>,
    },
    /// `<partial-unlock>` (RFC 5717 2.4.2).
    PartialUnlock {
        /// `<lock-id>`.
        lock: u32,
    },
}
