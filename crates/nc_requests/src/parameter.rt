//! The parameters of the operations: their names, and whether an element has a reading as one.
ghost use Rattle.std.specs.Prelude.{◌≡◌, map, option_map, IfOk};
ghost use Rattle.std.specs.Option.{option_copied};
ghost use Rattle.nc_names.specs.Same.{is_same_name};
ghost use Rattle.nc_protocol.specs.Asking as asking;
ghost use Rattle.nc_protocol.specs.Decoded as decoded;
ghost use Rattle.nc_requests.specs.inner.Parameters.{means};

use crate::reading::{
    datastore_in, default_operation_in, error_option_in, has_origin, is_filter, number_in,
    presence_in, test_option_in, text_in, whole_text_in,
};
use nc_message::Elem;
use nc_names::{CauseKind, Memory, QName};
use nc_protocol::{Cause, Operation, request_words as words};
use std::alloc::Global;

/// A parameter of an operation.
#[derive(Clone, Copy)]
pub(crate) enum Parameter {
    /// `target`, a datastore.
    Target,
    /// `source`, a datastore.
    Source,
    /// `source`, a datastore or a configuration.
    Origin,
    /// `config`
    Config,
    /// `filter`
    Filter,
    /// `default-operation`
    DefaultOperation,
    /// `test-option`
    TestOption,
    /// `error-option`
    ErrorOption,
    /// `confirmed`
    Confirmed,
    /// `confirm-timeout`
    ConfirmTimeout,
    /// `session-id`
    SessionId,
    /// `lock-id`
    LockId,
    /// `persist`
    Persist,
    /// `persist-id`
    PersistId,
    /// `select`, which may be repeated.
    Select,
}

// The namespace of a parameter.
fn space_of(parameter: Parameter) -> &'static str
    ensures { result.now ≡ (means parameter).name.space }
{
    match parameter {
        Parameter::LockId | Parameter::Select => words::partial_lock_namespace(),
        _ => words::base_namespace(),
    }
}

/// The local name of a parameter.
pub(crate) fn word_of(parameter: Parameter) -> &'static str
    ensures { result.now ≡ (means parameter).name.name }
{
    match parameter {
        Parameter::Target => words::target(),
        Parameter::Source => words::source(),
        Parameter::Origin => words::source(),
        Parameter::Config => words::config(),
        Parameter::Filter => words::filter(),
        Parameter::DefaultOperation => words::default_operation(),
        Parameter::TestOption => words::test_option(),
        Parameter::ErrorOption => words::error_option(),
        Parameter::Confirmed => words::confirmed(),
        Parameter::ConfirmTimeout => words::confirm_timeout(),
        Parameter::SessionId => words::session_id(),
        Parameter::LockId => words::lock_id(),
        Parameter::Persist => words::persist(),
        Parameter::PersistId => words::persist_id(),
        Parameter::Select => words::select(),
    }
}

/// Whether the name is that of the parameter.
pub(crate) fn names(name: &QName, parameter: Parameter) -> bool
    ensures { result ≡ is_same_name name.now (means parameter).name }
{
    name.space.as_str() == space_of(parameter) && name.name.as_str() == word_of(parameter)
}

/// Whether the parameter may be repeated.
pub(crate) fn repeats(parameter: Parameter) -> bool
    ensures { result ≡ (means parameter).repeats }
{
    match parameter {
        Parameter::Select => true,
        _ => false,
    }
}

/// The first element that is the parameter.
pub(crate) fn element_named(elems: &[Elem], parameter: Parameter) -> Option<&Elem>
    ensures { option_copied result ≡ asking.element_named (means parameter).name elems.now }
{
    elems.iter().find(|elem| names(&elem.name, parameter))
}

fn is_confirmed(elems: &[Elem]) -> bool
    ensures { result ≡ asking.is_confirmed elems.now }
{
    element_named(elems, Parameter::Confirmed).is_some()
}

/// Whether an element has a reading as the parameter, among all elements of its operation.
pub(crate) fn admits(parameter: Parameter, elems: &[Elem], elem: &Elem) -> Result<bool, Memory>
    ensures { IfOk result (λ it. it ≡ (means parameter).admits elems.now elem.now) }
{
    match parameter {
        Parameter::Target => Ok(datastore_in(elem).is_some()),
        Parameter::Source => Ok(datastore_in(elem).is_some()),
        Parameter::Origin => Ok(has_origin(elem)),
        Parameter::Config => Ok(true),
        Parameter::Filter => Ok(is_filter(elem)),
        Parameter::DefaultOperation => Ok(default_operation_in(elem)?.is_some()),
        Parameter::TestOption => Ok(test_option_in(elem)?.is_some()),
        Parameter::ErrorOption => Ok(error_option_in(elem)?.is_some()),
        Parameter::Confirmed => Ok(presence_in(elem)?.is_some()),
        Parameter::ConfirmTimeout => Ok(number_in(elem)?.is_some() && is_confirmed(elems)),
        Parameter::SessionId => Ok(number_in(elem)?.is_some()),
        Parameter::LockId => Ok(number_in(elem)?.is_some()),
        Parameter::Persist => Ok(whole_text_in(elem)?.is_some() && is_confirmed(elems)),
        Parameter::PersistId => Ok(whole_text_in(elem)?.is_some()),
        Parameter::Select => Ok(text_in(elem)?.is_some()),
    }
}

/// Why an element that has no reading as the parameter is refused.
pub(crate) fn refused(alloc: Global, parameter: Parameter) -> Result<Cause, Memory>
    ensures { IfOk result (λ it. it ≡ (means parameter).refused) }
{
    match parameter {
        Parameter::Filter => Ok(Cause::plain(alloc, CauseKind::BadFilterType)),
        _ => Cause::naming(alloc, CauseKind::BadParameter, word_of(parameter)),
    }
}

/// The parameters of an operation, in their order.
pub(crate) fn parameters_of(operation: Operation) -> &'static [Parameter]
    ensures { map means result.now ≡ (asking.asking operation).parameters }
{
    match operation {
        Operation::Get => &[Parameter::Filter],
        Operation::GetConfig => &[Parameter::Source, Parameter::Filter],
        Operation::EditConfig => &[
            Parameter::Target,
            Parameter::DefaultOperation,
            Parameter::TestOption,
            Parameter::ErrorOption,
            Parameter::Config,
        ],
        Operation::CopyConfig => &[Parameter::Target, Parameter::Origin],
        Operation::DeleteConfig => &[Parameter::Target],
        Operation::Lock => &[Parameter::Target],
        Operation::Unlock => &[Parameter::Target],
        Operation::CloseSession => &[],
        Operation::KillSession => &[Parameter::SessionId],
        Operation::Commit => &[
            Parameter::Confirmed,
            Parameter::ConfirmTimeout,
            Parameter::Persist,
            Parameter::PersistId,
        ],
        Operation::DiscardChanges => &[],
        Operation::CancelCommit => &[Parameter::PersistId],
        Operation::Validate => &[Parameter::Origin],
        Operation::PartialLock => &[Parameter::Select],
        Operation::PartialUnlock => &[Parameter::LockId],
    }
}

/// The parameter of that name among these.
pub(crate) fn parameter_named(among: &[Parameter], name: &QName) -> Option<Parameter>
    ensures { option_map means result ≡ decoded.parameter_named (map means among.now) name.now }
{
    for parameter in among {
        if names(name, *parameter) {
            return Some(*parameter);
        }
    }
    None
}
