//! The operations by their names.
ghost use Rattle.std.specs.Prelude.{◌≡◌};
ghost use Rattle.nc_names.specs.Same.{is_same_name};
ghost use Rattle.nc_protocol.specs.Decoded as decoded;

use nc_names::QName;
use nc_protocol::{Operation, request_words as words};

// The namespace of an operation.
fn space_of(operation: Operation) -> &'static str
    ensures { result.now ≡ (decoded.operation_name operation).space }
{
    match operation {
        Operation::PartialLock | Operation::PartialUnlock => words::partial_lock_namespace(),
        _ => words::base_namespace(),
    }
}

// Its local name.
fn word_of(operation: Operation) -> &'static str
    ensures { result.now ≡ (decoded.operation_name operation).name }
{
    match operation {
        Operation::Get => words::get(),
        Operation::GetConfig => words::get_config(),
        Operation::EditConfig => words::edit_config(),
        Operation::CopyConfig => words::copy_config(),
        Operation::DeleteConfig => words::delete_config(),
        Operation::Lock => words::lock(),
        Operation::Unlock => words::unlock(),
        Operation::CloseSession => words::close_session(),
        Operation::KillSession => words::kill_session(),
        Operation::Commit => words::commit(),
        Operation::DiscardChanges => words::discard_changes(),
        Operation::CancelCommit => words::cancel_commit(),
        Operation::Validate => words::validate(),
        Operation::PartialLock => words::partial_lock(),
        Operation::PartialUnlock => words::partial_unlock(),
    }
}

// Whether the name is that of the operation.
fn names(name: &QName, operation: Operation) -> bool
    ensures { result ≡ is_same_name name.now (decoded.operation_name operation) }
{
    name.space.as_str() == space_of(operation) && name.name.as_str() == word_of(operation)
}

// All operations.
fn operations() -> [Operation; 15]
    ensures { result ≡ decoded.operations }
{
    [
        Operation::Get,
        Operation::GetConfig,
        Operation::EditConfig,
        Operation::CopyConfig,
        Operation::DeleteConfig,
        Operation::Lock,
        Operation::Unlock,
        Operation::CloseSession,
        Operation::KillSession,
        Operation::Commit,
        Operation::DiscardChanges,
        Operation::CancelCommit,
        Operation::Validate,
        Operation::PartialLock,
        Operation::PartialUnlock,
    ]
}

// The first of these operations that has the name.
fn find_operation(name: &QName, among: &[Operation]) -> Option<Operation>
    ensures { result ≡ decoded.operation_among among.now name.now }
{
    among
        .iter()
        .copied()
        .find(|operation| names(name, *operation))
}

/// The operation of a name.
pub(crate) fn operation_named(name: &QName) -> Option<Operation>
    ensures { result ≡ decoded.operation_named name.now }
{
    find_operation(name, &operations())
}
