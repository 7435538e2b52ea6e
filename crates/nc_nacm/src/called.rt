//! The names under which rules are about the operations of the server (RFC 8341 3.4.4).
ghost use Rattle.std.specs.Prelude.{◌≡◌, IfOk};
ghost use Rattle.nc_model.specs.Access as access;

use nc_model::Called;
use nc_model::server_words::{netconf_module, partial_lock_module};
use nc_names::{Memory, Text};
use nc_protocol::{Operation, request_words as words};
use std::alloc::Global;

fn netconf_operation(alloc: Global, name: &str) -> Result<Called, Memory>
    ensures { IfOk result (λ it. it ≡ access.netconf_operation name.now) }
{
    Ok(Called {
        module: Text::from_text(alloc, netconf_module())?,
        name: Text::from_text(alloc, name)?,
        denied: false,
    })
}

fn partial_lock_operation(alloc: Global, name: &str) -> Result<Called, Memory>
    ensures { IfOk result (λ it. it ≡ access.partial_lock_operation name.now) }
{
    Ok(Called {
        module: Text::from_text(alloc, partial_lock_module())?,
        name: Text::from_text(alloc, name)?,
        denied: false,
    })
}

/// What an operation of the server is to access control (RFC 6241 appendix C; RFC 5717 5).
pub(crate) fn called_of(alloc: Global, operation: Operation) -> Result<Called, Memory>
    ensures { IfOk result (λ it. it ≡ access.called operation) }
{
    match operation {
        Operation::Get => netconf_operation(alloc, words::get()),
        Operation::GetConfig => netconf_operation(alloc, words::get_config()),
        Operation::EditConfig => netconf_operation(alloc, words::edit_config()),
        Operation::CopyConfig => netconf_operation(alloc, words::copy_config()),
        Operation::DeleteConfig => netconf_operation(alloc, words::delete_config()),
        Operation::Lock => netconf_operation(alloc, words::lock()),
        Operation::Unlock => netconf_operation(alloc, words::unlock()),
        Operation::CloseSession => netconf_operation(alloc, words::close_session()),
        Operation::KillSession => netconf_operation(alloc, words::kill_session()),
        Operation::Commit => netconf_operation(alloc, words::commit()),
        Operation::DiscardChanges => netconf_operation(alloc, words::discard_changes()),
        Operation::CancelCommit => netconf_operation(alloc, words::cancel_commit()),
        Operation::Validate => netconf_operation(alloc, words::validate()),
        Operation::PartialLock => partial_lock_operation(alloc, words::partial_lock()),
        Operation::PartialUnlock => partial_lock_operation(alloc, words::partial_unlock()),
    }
}
