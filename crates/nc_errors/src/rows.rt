//! The errors of causes: type, tag and app-tag (RFC 6241 4.3 and appendix A; RFC 7950 15; RFC 5717 2.4.1).
ghost use Rattle.std.specs.Prelude.{◌≡◌};
ghost use Rattle.std.specs.Option.{option_copied};
ghost use Rattle.nc_protocol.specs.ErrorRows as rows;

use nc_names::CauseKind;
use nc_protocol::{Operation, cause_words, reply_words, request_words};

/// The error-type of a cause.
pub(crate) fn layer_of(kind: CauseKind) -> &'static str
    ensures { result.now ≡ (rows.error_row kind).layer }
{
    match kind {
        CauseKind::Malformed => request_words::rpc(),
        CauseKind::NoMessageId => request_words::rpc(),
        CauseKind::NoOperation => reply_words::protocol(),
        CauseKind::TwoOperations => reply_words::protocol(),
        CauseKind::UnknownOperation => reply_words::protocol(),
        CauseKind::ExecDenied => reply_words::protocol(),
        CauseKind::UnknownParameter => reply_words::protocol(),
        CauseKind::RepeatedParameter => reply_words::protocol(),
        CauseKind::MissingParameter => reply_words::protocol(),
        CauseKind::BadParameter => reply_words::protocol(),
        CauseKind::BadFilterType => reply_words::protocol(),
        CauseKind::UnsupportedTarget => reply_words::protocol(),
        CauseKind::LockHeld => reply_words::protocol(),
        CauseKind::LockModified => reply_words::protocol(),
        CauseKind::LockPending => reply_words::protocol(),
        CauseKind::LockPartial => reply_words::protocol(),
        CauseKind::NotHeld => reply_words::protocol(),
        CauseKind::InUseGlobal => reply_words::protocol(),
        CauseKind::InUsePartial => reply_words::protocol(),
        CauseKind::InUsePending => reply_words::protocol(),
        CauseKind::NoPending => reply_words::protocol(),
        CauseKind::BadToken => reply_words::protocol(),
        CauseKind::NotLiveTarget => reply_words::protocol(),
        CauseKind::BadSelect => reply_words::application(),
        CauseKind::NoMatch => reply_words::application(),
        CauseKind::Limit => reply_words::application(),
        CauseKind::UnknownElement => reply_words::application(),
        CauseKind::UnknownNamespace => reply_words::application(),
        CauseKind::UnknownAttribute => reply_words::application(),
        CauseKind::BadAttribute => reply_words::application(),
        CauseKind::MissingKey => reply_words::application(),
        CauseKind::BadElement => reply_words::application(),
        CauseKind::BadValue => reply_words::application(),
        CauseKind::Exists => reply_words::application(),
        CauseKind::Absent => reply_words::application(),
        CauseKind::MissingInstance => reply_words::application(),
        CauseKind::DataDenied => reply_words::application(),
        CauseKind::Mandatory => reply_words::application(),
        CauseKind::MandatoryChoice => reply_words::application(),
        CauseKind::TooFew => reply_words::application(),
        CauseKind::TooMany => reply_words::application(),
        CauseKind::NotUnique => reply_words::application(),
        CauseKind::DeadLeafref => reply_words::application(),
        CauseKind::DeadInstance => reply_words::application(),
        CauseKind::DiskFault => reply_words::application(),
    }
}

/// The error-tag of a cause (RFC 6241 appendix A).
pub fn tag_of(kind: CauseKind) -> &'static str
    ensures { result.now ≡ (rows.error_row kind).tag }
{
    match kind {
        CauseKind::Malformed => reply_words::malformed_message(),
        CauseKind::NoMessageId => reply_words::missing_attribute(),
        CauseKind::NoOperation => reply_words::missing_element(),
        CauseKind::TwoOperations => reply_words::unknown_element(),
        CauseKind::UnknownOperation => reply_words::operation_not_supported(),
        CauseKind::ExecDenied => reply_words::access_denied(),
        CauseKind::UnknownParameter => reply_words::unknown_element(),
        CauseKind::RepeatedParameter => reply_words::bad_element(),
        CauseKind::MissingParameter => reply_words::missing_element(),
        CauseKind::BadParameter => reply_words::invalid_value(),
        CauseKind::BadFilterType => reply_words::bad_attribute(),
        CauseKind::UnsupportedTarget => reply_words::operation_not_supported(),
        CauseKind::LockHeld => reply_words::lock_denied(),
        CauseKind::LockModified => reply_words::lock_denied(),
        CauseKind::LockPending => reply_words::lock_denied(),
        CauseKind::LockPartial => reply_words::lock_denied(),
        CauseKind::NotHeld => reply_words::operation_failed(),
        CauseKind::InUseGlobal => reply_words::in_use(),
        CauseKind::InUsePartial => reply_words::in_use(),
        CauseKind::InUsePending => reply_words::in_use(),
        CauseKind::NoPending => reply_words::operation_failed(),
        CauseKind::BadToken => reply_words::invalid_value(),
        CauseKind::NotLiveTarget => reply_words::invalid_value(),
        CauseKind::BadSelect => reply_words::invalid_value(),
        CauseKind::NoMatch => reply_words::operation_failed(),
        CauseKind::Limit => reply_words::resource_denied(),
        CauseKind::UnknownElement => reply_words::unknown_element(),
        CauseKind::UnknownNamespace => reply_words::unknown_namespace(),
        CauseKind::UnknownAttribute => reply_words::unknown_attribute(),
        CauseKind::BadAttribute => reply_words::bad_attribute(),
        CauseKind::MissingKey => reply_words::missing_element(),
        CauseKind::BadElement => reply_words::bad_element(),
        CauseKind::BadValue => reply_words::invalid_value(),
        CauseKind::Exists => reply_words::data_exists(),
        CauseKind::Absent => reply_words::data_missing(),
        CauseKind::MissingInstance => reply_words::bad_attribute(),
        CauseKind::DataDenied => reply_words::access_denied(),
        CauseKind::Mandatory => reply_words::data_missing(),
        CauseKind::MandatoryChoice => reply_words::data_missing(),
        CauseKind::TooFew => reply_words::operation_failed(),
        CauseKind::TooMany => reply_words::operation_failed(),
        CauseKind::NotUnique => reply_words::operation_failed(),
        CauseKind::DeadLeafref => reply_words::data_missing(),
        CauseKind::DeadInstance => reply_words::data_missing(),
        CauseKind::DiskFault => reply_words::operation_failed(),
    }
}

// The error-app-tag of a cause, if it has one of its own.
fn own_app_tag(kind: CauseKind) -> Option<&'static str>
    ensures { option_copied result ≡ (rows.error_row kind).app_tag }
{
    match kind {
        CauseKind::InUsePartial => Some(cause_words::locked()),
        CauseKind::BadSelect => Some(cause_words::invalid_lock_specification()),
        CauseKind::NoMatch => Some(cause_words::no_matches()),
        CauseKind::MissingInstance => Some(cause_words::missing_instance()),
        CauseKind::MandatoryChoice => Some(cause_words::missing_choice()),
        CauseKind::TooFew => Some(cause_words::too_few_elements()),
        CauseKind::TooMany => Some(cause_words::too_many_elements()),
        CauseKind::NotUnique => Some(cause_words::data_not_unique()),
        CauseKind::DeadLeafref => Some(cause_words::instance_required()),
        CauseKind::DeadInstance => Some(cause_words::instance_required()),
        _ => None,
    }
}

/// The error-app-tag of a cause, if it has one at this operation.
pub(crate) fn app_tag_of(operation: Option<Operation>, kind: CauseKind) -> Option<&'static str>
    ensures { option_copied result ≡ (rows.error_of operation kind).app_tag }
{
    match (operation, kind) {
        (Some(Operation::PartialLock), CauseKind::LockPending) => Some(
            cause_words::outstanding_confirmed_commit(),
        ),
        _ => own_app_tag(kind),
    }
}
