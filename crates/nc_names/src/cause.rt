//! Why a request is refused.

/// The kinds of causes for which the server answers an rpc-error (RFC 6241 4.3 and appendix A, RFC
/// 7950 15, RFC 5717 2.4, RFC 8341 3.4).
#[derive(Clone, Copy, PartialEq, Eq, Debug)]
pub enum CauseKind {
    /// The message is not well formed, or its root is not `rpc` in the base namespace.
    Malformed,
    /// The `rpc` has no `message-id`.
    NoMessageId,
    /// The `rpc` has no child element.
    NoOperation,
    /// The `rpc` has a second child element.
    TwoOperations,
    /// The operation is none of this server's.
    UnknownOperation,
    /// The user may not execute the operation.
    ExecDenied,
    /// The operation has no such parameter.
    UnknownParameter,
    /// The parameter stands twice.
    RepeatedParameter,
    /// A parameter that the operation needs is absent.
    MissingParameter,
    /// The parameter's content has no reading.
    BadParameter,
    /// The filter's `type` is not `subtree`.
    BadFilterType,
    /// The operation does not take this datastore.
    UnsupportedTarget,
    /// A session holds the lock that was asked for.
    LockHeld,
    /// The candidate is modified, so it cannot be locked.
    LockModified,
    /// A confirmed commit of another session is pending, so running cannot be locked.
    LockPending,
    /// Another session holds a partial lock in the way.
    LockPartial,
    /// The session does not hold the lock that it gives up.
    NotHeld,
    /// Another session holds the global lock of the datastore.
    InUseGlobal,
    /// Another session holds a partial lock on a node that would change.
    InUsePartial,
    /// A confirmed commit that this session may not follow is pending.
    InUsePending,
    /// No confirmed commit is pending.
    NoPending,
    /// The persist-id is not that of the pending commit.
    BadToken,
    /// The session to be killed is not live, or is the one that asks.
    NotLiveTarget,
    /// A `select` of a partial lock is no instance identifier of the schema.
    BadSelect,
    /// No `select` of a partial lock matches a node.
    NoMatch,
    /// A limit of the server would be passed.
    Limit,
    /// The schema has no such element there.
    UnknownElement,
    /// No module has the element's namespace.
    UnknownNamespace,
    /// The attribute is none that may stand there.
    UnknownAttribute,
    /// The attribute's value has no reading.
    BadAttribute,
    /// A list entry lacks one of its keys.
    MissingKey,
    /// The element may not stand there, or has content that it may not have.
    BadElement,
    /// The value is not of the leaf's type.
    BadValue,
    /// The node to be created exists.
    Exists,
    /// The node to be deleted, or one that has to be there, is absent.
    Absent,
    /// The entry beside which one is to be put is absent.
    MissingInstance,
    /// The user may not make the change.
    DataDenied,
    /// A mandatory leaf is absent.
    Mandatory,
    /// No case of a mandatory choice is there.
    MandatoryChoice,
    /// A list or leaf-list has too few entries.
    TooFew,
    /// A list or leaf-list has too many entries.
    TooMany,
    /// Two entries of a list agree in the leafs that are to be unique.
    NotUnique,
    /// The instance that a leafref requires is absent.
    DeadLeafref,
    /// The instance that an instance-identifier requires is absent.
    DeadInstance,
    /// The disk failed while the configuration was stored.
    DiskFault,
}
