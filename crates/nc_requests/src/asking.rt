//! What the elements of an operation ask for.
ghost use Rattle.std.specs.Prelude.{◌≡◌, [], ◌∷◌, ◌++◌, false, None, Some, IfOk, position};
ghost use Rattle.nc_names.specs.Same.{is_same_name};
ghost use Rattle.nc_protocol.specs.Asking as asking;
ghost use Rattle.nc_protocol.specs.Decoded as decoded;
ghost use Rattle.nc_protocol.specs.declared.request.Cause.{Cause};
ghost use Rattle.nc_protocol.specs.declared.asked.Default3.TheVariants.{Merge};
ghost use Rattle.nc_protocol.specs.declared.asked.ErrorOption.TheVariants.{Stop as StopOnError};
ghost use Rattle.nc_protocol.specs.declared.asked.Operation.TheVariants.{Get, GetConfig, EditConfig, CopyConfig, DeleteConfig, Lock, Unlock, KillSession, Commit, CancelCommit, Validate, PartialLock, PartialUnlock};
ghost use Rattle.nc_protocol.specs.declared.asked.TestOption.TheVariants.{Set};
ghost use Rattle.nc_requests.specs.declared.parameter.Parameter.TheVariants.{Origin as OriginParameter, Config as ConfigParameter, Filter as FilterParameter, DefaultOperation, TestOption as TestParameter, ErrorOption as ErrorParameter, Confirmed, ConfirmTimeout};
ghost use Rattle.nc_requests.specs.inner.Parameters.{means, needs, has_or, select_of, selects_among};
ghost use Rattle.nc_requests.specs.inner.Reads.{Reads, StopsFor};

use crate::faults::first_fault;
use crate::parameter::{Parameter, element_named, names, parameters_of, refused, word_of};
use crate::reading::{
    datastore_in, default_operation_in, error_option_in, is_filter, number_in, origin_in,
    presence_in, select_in, test_option_in, whole_text_in,
};
use crate::stop::Stop;
use nc_message::Elem;
use nc_names::{CauseKind, Many, Memory, Text};
use nc_protocol::{
    Asked, Cause, Datastore, Default3, ErrorOption, Operation, Origin, Select, TestOption,
};
use std::alloc::Global;

// The seconds after which a confirmed commit is reverted, where none are given (RFC 6241 8.4.5.1).
const DEFAULT_TIMEOUT: u32 = 600;

// The stop for a cause, if that was made.
fn stop_for(cause: Result<Cause, Memory>) -> Stop
    ensures { (wanted : Cause) → IfOk cause (λ it. it ≡ wanted) → StopsFor result wanted }
{
    match cause {
        Ok(cause) => Stop::Refused(cause),
        Err(_) => Stop::Memory,
    }
}

// The stop at a parameter that has no reading.
fn bad(alloc: Global, parameter: Parameter) -> Stop
    ensures { StopsFor result (means parameter).refused }
{
    stop_for(refused(alloc, parameter))
}

// The stop where a parameter is missing.
fn missing(alloc: Global, parameter: Parameter) -> Stop
    ensures { StopsFor result (asking.missing_parameter (means parameter).name) }
{
    stop_for(Cause::naming(alloc, CauseKind::MissingParameter, word_of(parameter)))
}

// The value of a parameter, or the stop where it has none.
fn or_bad<T: Drop>(alloc: Global, parameter: Parameter, value: Option<T>) -> Result<T, Stop>
    ensures { Reads result (asking.or_cause (means parameter).refused value) }
{
    match value {
        Some(value) => Ok(value),
        None => Err(bad(alloc, parameter)),
    }
}

// The place of the first element that is the parameter.
fn place_of(elems: &Many<Elem>, parameter: Parameter) -> Option<usize>
    ensures { result ≡ position (λ elem. is_same_name elem.name (means parameter).name) elems.now }
{
    elems
        .as_slice()
        .iter()
        .position(|elem| names(&elem.name, parameter))
}

// The element of a parameter, moved out of the others.
fn taken(elems: Many<Elem>, parameter: Parameter) -> Option<Elem>
    ensures { result ≡ asking.element_named (means parameter).name elems }
{
    match place_of(&elems, parameter) {
        Some(place) => {
            let mut elems = elems;
            Some(elems.remove(place))
        }
        None => None,
    }
}

// A datastore that has to be there.
fn needed_datastore(alloc: Global, elems: &[Elem], parameter: Parameter) -> Result<Datastore, Stop>
    ensures { Reads result (needs parameter asking.datastore_in elems.now) }
{
    match element_named(elems, parameter) {
        None => Err(missing(alloc, parameter)),
        Some(elem) => or_bad(alloc, parameter, datastore_in(elem)),
    }
}

// A number that has to be there.
fn needed_number(alloc: Global, elems: &[Elem], parameter: Parameter) -> Result<u32, Stop>
    ensures { Reads result (needs parameter asking.number_in elems.now) }
{
    match element_named(elems, parameter) {
        None => Err(missing(alloc, parameter)),
        Some(elem) => or_bad(alloc, parameter, number_in(elem)?),
    }
}

// A datastore or a configuration that has to be there.
fn needed_origin(alloc: Global, elems: Many<Elem>) -> Result<Origin, Stop>
    ensures { Reads result (needs OriginParameter asking.origin_in elems) }
{
    match taken(elems, Parameter::Origin) {
        None => Err(missing(alloc, Parameter::Origin)),
        Some(elem) => or_bad(alloc, Parameter::Origin, origin_in(elem)?),
    }
}

// A configuration that has to be there.
fn needed_config(alloc: Global, elems: Many<Elem>) -> Result<Elem, Stop>
    ensures { Reads result (needs ConfigParameter Some elems) }
{
    match taken(elems, Parameter::Config) {
        None => Err(missing(alloc, Parameter::Config)),
        Some(elem) => Ok(elem),
    }
}

// A filter, if there is one.
fn filter(alloc: Global, elems: Many<Elem>) -> Result<Option<Elem>, Stop>
    ensures { Reads result (has_or FilterParameter (asking.some_in asking.filter_in) None elems) }
{
    match taken(elems, Parameter::Filter) {
        None => Ok(None),
        Some(elem) => {
            if is_filter(&elem) {
                Ok(Some(elem))
            } else {
                Err(bad(alloc, Parameter::Filter))
            }
        }
    }
}

// A text, if there is one.
fn text(alloc: Global, elems: &[Elem], parameter: Parameter) -> Result<Option<Text>, Stop>
    ensures { Reads result (has_or parameter (asking.some_in asking.whole_text_in) None elems.now) }
{
    match element_named(elems, parameter) {
        None => Ok(None),
        Some(elem) => {
            let Some(text) = whole_text_in(elem)? else {
                return Err(bad(alloc, parameter));
            };
            Ok(Some(text))
        }
    }
}

// `default-operation`, or `merge`.
fn default_operation(alloc: Global, elems: &[Elem]) -> Result<Default3, Stop>
    ensures { Reads result (has_or DefaultOperation
        (asking.word_in asking.default_operations) Merge elems.now) }
{
    match element_named(elems, Parameter::DefaultOperation) {
        None => Ok(Default3::Merge),
        Some(elem) => or_bad(
            alloc,
            Parameter::DefaultOperation,
            default_operation_in(elem)?,
        ),
    }
}

// `test-option`, or `set`.
fn test_option(alloc: Global, elems: &[Elem]) -> Result<TestOption, Stop>
    ensures { Reads result (has_or TestParameter (asking.word_in asking.test_options) Set elems.now) }
{
    match element_named(elems, Parameter::TestOption) {
        None => Ok(TestOption::Set),
        Some(elem) => or_bad(alloc, Parameter::TestOption, test_option_in(elem)?),
    }
}

// `error-option`, or `stop-on-error`.
fn error_option(alloc: Global, elems: &[Elem]) -> Result<ErrorOption, Stop>
    ensures { Reads result (has_or ErrorParameter
        (asking.word_in asking.error_options) StopOnError elems.now) }
{
    match element_named(elems, Parameter::ErrorOption) {
        None => Ok(ErrorOption::Stop),
        Some(elem) => or_bad(alloc, Parameter::ErrorOption, error_option_in(elem)?),
    }
}

// Whether there is `confirmed`.
fn confirmed(alloc: Global, elems: &[Elem]) -> Result<bool, Stop>
    ensures { Reads result (has_or Confirmed asking.presence_in false elems.now) }
{
    match element_named(elems, Parameter::Confirmed) {
        None => Ok(false),
        Some(elem) => or_bad(alloc, Parameter::Confirmed, presence_in(elem)?),
    }
}

// `confirm-timeout`, or ten minutes.
fn timeout(alloc: Global, elems: &[Elem]) -> Result<u32, Stop>
    ensures { Reads result (has_or ConfirmTimeout asking.number_in asking.default_timeout elems.now) }
{
    match element_named(elems, Parameter::ConfirmTimeout) {
        None => Ok(DEFAULT_TIMEOUT),
        Some(elem) => or_bad(alloc, Parameter::ConfirmTimeout, number_in(elem)?),
    }
}

// Adds the expression of an element, if it is a `select`.
fn push_select(elem: &Elem, selects: &mut Many<Select>) -> Result<(), Memory>
    ensures { IfOk result (λ _. selects.new ≡ selects.old ++ select_of elem.now) }
{
    if names(&elem.name, Parameter::Select) {
        if let Some(select) = select_in(elem)? {
            selects.push(select)?;
        }
    }
    Ok(())
}

// Each `select`.
fn selects_in(alloc: Global, elems: &[Elem]) -> Result<Many<Select>, Memory>
    ensures { IfOk result (λ it. it ≡ selects_among elems.now) }
{
    let mut selects = Many::new(alloc);
    for elem in elems {
        push_select(elem, &mut selects)?;
    }
    Ok(selects)
}

// Each `select`, of which there has to be one.
#[tactic(auto, using(crate::proofs::ContentLemmas::selects_are))]
fn selects(alloc: Global, elems: &[Elem]) -> Result<Many<Select>, Stop>
    ensures { Reads result (asking.selects.reading elems.now) }
{
    let selects = selects_in(alloc, elems)?;
    if selects.is_empty() {
        return Err(missing(alloc, Parameter::Select));
    }
    Ok(selects)
}

fn get(alloc: Global, elems: Many<Elem>) -> Result<Asked, Stop>
    ensures { Reads result ((asking.asking Get).reading elems) }
{
    let filter = filter(alloc, elems)?;
    Ok(Asked::Get { filter })
}

fn get_config(alloc: Global, elems: Many<Elem>) -> Result<Asked, Stop>
    ensures { Reads result ((asking.asking GetConfig).reading elems) }
{
    let source = needed_datastore(alloc, elems.as_slice(), Parameter::Source)?;
    let filter = filter(alloc, elems)?;
    Ok(Asked::GetConfig { source, filter })
}

fn edit_config(alloc: Global, elems: Many<Elem>) -> Result<Asked, Stop>
    ensures { Reads result ((asking.asking EditConfig).reading elems) }
{
    let target = needed_datastore(alloc, elems.as_slice(), Parameter::Target)?;
    let default_operation = default_operation(alloc, elems.as_slice())?;
    let test = test_option(alloc, elems.as_slice())?;
    let on_error = error_option(alloc, elems.as_slice())?;
    let config = needed_config(alloc, elems)?;
    Ok(Asked::EditConfig {
        target,
        default_operation,
        test,
        on_error,
        config,
    })
}

fn copy_config(alloc: Global, elems: Many<Elem>) -> Result<Asked, Stop>
    ensures { Reads result ((asking.asking CopyConfig).reading elems) }
{
    let target = needed_datastore(alloc, elems.as_slice(), Parameter::Target)?;
    let source = needed_origin(alloc, elems)?;
    Ok(Asked::CopyConfig { target, source })
}

fn delete_config(alloc: Global, elems: Many<Elem>) -> Result<Asked, Stop>
    ensures { Reads result ((asking.asking DeleteConfig).reading elems) }
{
    let target = needed_datastore(alloc, elems.as_slice(), Parameter::Target)?;
    Ok(Asked::DeleteConfig { target })
}

fn lock(alloc: Global, elems: Many<Elem>) -> Result<Asked, Stop>
    ensures { Reads result ((asking.asking Lock).reading elems) }
{
    let target = needed_datastore(alloc, elems.as_slice(), Parameter::Target)?;
    Ok(Asked::Lock { target })
}

fn unlock(alloc: Global, elems: Many<Elem>) -> Result<Asked, Stop>
    ensures { Reads result ((asking.asking Unlock).reading elems) }
{
    let target = needed_datastore(alloc, elems.as_slice(), Parameter::Target)?;
    Ok(Asked::Unlock { target })
}

fn kill_session(alloc: Global, elems: Many<Elem>) -> Result<Asked, Stop>
    ensures { Reads result ((asking.asking KillSession).reading elems) }
{
    let session = needed_number(alloc, elems.as_slice(), Parameter::SessionId)?;
    Ok(Asked::KillSession { session })
}

fn commit(alloc: Global, elems: Many<Elem>) -> Result<Asked, Stop>
    ensures { Reads result ((asking.asking Commit).reading elems) }
{
    let confirmed = confirmed(alloc, elems.as_slice())?;
    let timeout = timeout(alloc, elems.as_slice())?;
    let persist = text(alloc, elems.as_slice(), Parameter::Persist)?;
    let persist_id = text(alloc, elems.as_slice(), Parameter::PersistId)?;
    Ok(Asked::Commit {
        confirmed,
        timeout,
        persist,
        persist_id,
    })
}

fn cancel_commit(alloc: Global, elems: Many<Elem>) -> Result<Asked, Stop>
    ensures { Reads result ((asking.asking CancelCommit).reading elems) }
{
    let persist_id = text(alloc, elems.as_slice(), Parameter::PersistId)?;
    Ok(Asked::CancelCommit { persist_id })
}

fn validate(alloc: Global, elems: Many<Elem>) -> Result<Asked, Stop>
    ensures { Reads result ((asking.asking Validate).reading elems) }
{
    let source = needed_origin(alloc, elems)?;
    Ok(Asked::Validate { source })
}

fn partial_lock(alloc: Global, elems: Many<Elem>) -> Result<Asked, Stop>
    ensures { Reads result ((asking.asking PartialLock).reading elems) }
{
    let selects = selects(alloc, elems.as_slice())?;
    Ok(Asked::PartialLock { selects })
}

fn partial_unlock(alloc: Global, elems: Many<Elem>) -> Result<Asked, Stop>
    ensures { Reads result ((asking.asking PartialUnlock).reading elems) }
{
    let lock = needed_number(alloc, elems.as_slice(), Parameter::LockId)?;
    Ok(Asked::PartialUnlock { lock })
}

// What the elements of an operation say.
fn reading(alloc: Global, operation: Operation, elems: Many<Elem>) -> Result<Asked, Stop>
    ensures { Reads result ((asking.asking operation).reading elems) }
{
    match operation {
        Operation::Get => get(alloc, elems),
        Operation::GetConfig => get_config(alloc, elems),
        Operation::EditConfig => edit_config(alloc, elems),
        Operation::CopyConfig => copy_config(alloc, elems),
        Operation::DeleteConfig => delete_config(alloc, elems),
        Operation::Lock => lock(alloc, elems),
        Operation::Unlock => unlock(alloc, elems),
        Operation::CloseSession => Ok(Asked::CloseSession),
        Operation::KillSession => kill_session(alloc, elems),
        Operation::Commit => commit(alloc, elems),
        Operation::DiscardChanges => Ok(Asked::DiscardChanges),
        Operation::CancelCommit => cancel_commit(alloc, elems),
        Operation::Validate => validate(alloc, elems),
        Operation::PartialLock => partial_lock(alloc, elems),
        Operation::PartialUnlock => partial_unlock(alloc, elems),
    }
}

/// What the elements of an operation ask for, or why nothing.
pub(crate) fn asked(
    alloc: Global,
    operation: Operation,
    elems: Many<Elem>,
) -> Result<Result<Asked, Cause>, Memory>
    ensures { IfOk result (λ it. it ≡ decoded.asked_by (asking.asking operation) elems) }
{
    if let Some(cause) = first_fault(alloc, parameters_of(operation), elems.as_slice())? {
        return Ok(Err(cause));
    }
    match reading(alloc, operation, elems) {
        Ok(asked) => Ok(Ok(asked)),
        Err(Stop::Refused(cause)) => Ok(Err(cause)),
        Err(Stop::Memory) => Err(Memory),
    }
}
