//! The fixed texts of replies: elements, and the tags of errors (RFC 6241 4.2 to 4.4, appendix A).
ghost use Rattle.std.specs.Prelude.{◌≡◌};
ghost use Rattle.nc_protocol.specs.Words.{rpc_reply_word, ok_word, data_word, locked_node_word, rpc_error_word, error_type_word, error_tag_word, error_severity_word, error_app_tag_word, error_path_word, error_info_word, bad_attribute_word, bad_element_word, bad_namespace_word, no_session_word, protocol_word, application_word, error_word, malformed_message_word, missing_attribute_word, missing_element_word, unknown_element_word, operation_not_supported_word, access_denied_word, invalid_value_word, lock_denied_word, operation_failed_word, in_use_word, resource_denied_word, unknown_namespace_word, unknown_attribute_word, data_exists_word, data_missing_word};

/// `rpc-reply`
#[tactic(auto, unfolding(crate::specs::Words::rpc_reply_word))]
pub fn rpc_reply() -> &'static str
    ensures { result.now ≡ rpc_reply_word }
{
    "rpc-reply"
}

/// `ok`
#[tactic(auto, unfolding(crate::specs::Words::ok_word))]
pub fn ok() -> &'static str
    ensures { result.now ≡ ok_word }
{
    "ok"
}

/// `data`
#[tactic(auto, unfolding(crate::specs::Words::data_word))]
pub fn data() -> &'static str
    ensures { result.now ≡ data_word }
{
    "data"
}

/// `locked-node`
#[tactic(auto, unfolding(crate::specs::Words::locked_node_word))]
pub fn locked_node() -> &'static str
    ensures { result.now ≡ locked_node_word }
{
    "locked-node"
}

/// `rpc-error`
#[tactic(auto, unfolding(crate::specs::Words::rpc_error_word))]
pub fn rpc_error() -> &'static str
    ensures { result.now ≡ rpc_error_word }
{
    "rpc-error"
}

/// `error-type`
#[tactic(auto, unfolding(crate::specs::Words::error_type_word))]
pub fn error_type() -> &'static str
    ensures { result.now ≡ error_type_word }
{
    "error-type"
}

/// `error-tag`
#[tactic(auto, unfolding(crate::specs::Words::error_tag_word))]
pub fn error_tag() -> &'static str
    ensures { result.now ≡ error_tag_word }
{
    "error-tag"
}

/// `error-severity`
#[tactic(auto, unfolding(crate::specs::Words::error_severity_word))]
pub fn error_severity() -> &'static str
    ensures { result.now ≡ error_severity_word }
{
    "error-severity"
}

/// `error-app-tag`
#[tactic(auto, unfolding(crate::specs::Words::error_app_tag_word))]
pub fn error_app_tag() -> &'static str
    ensures { result.now ≡ error_app_tag_word }
{
    "error-app-tag"
}

/// `error-path`
#[tactic(auto, unfolding(crate::specs::Words::error_path_word))]
pub fn error_path() -> &'static str
    ensures { result.now ≡ error_path_word }
{
    "error-path"
}

/// `error-info`
#[tactic(auto, unfolding(crate::specs::Words::error_info_word))]
pub fn error_info() -> &'static str
    ensures { result.now ≡ error_info_word }
{
    "error-info"
}

/// `bad-attribute`
#[tactic(auto, unfolding(crate::specs::Words::bad_attribute_word))]
pub fn bad_attribute() -> &'static str
    ensures { result.now ≡ bad_attribute_word }
{
    "bad-attribute"
}

/// `bad-element`
#[tactic(auto, unfolding(crate::specs::Words::bad_element_word))]
pub fn bad_element() -> &'static str
    ensures { result.now ≡ bad_element_word }
{
    "bad-element"
}

/// `bad-namespace`
#[tactic(auto, unfolding(crate::specs::Words::bad_namespace_word))]
pub fn bad_namespace() -> &'static str
    ensures { result.now ≡ bad_namespace_word }
{
    "bad-namespace"
}

/// `0`
#[tactic(auto, unfolding(crate::specs::Words::no_session_word))]
pub fn no_session() -> &'static str
    ensures { result.now ≡ no_session_word }
{
    "0"
}

/// `protocol`
#[tactic(auto, unfolding(crate::specs::Words::protocol_word))]
pub fn protocol() -> &'static str
    ensures { result.now ≡ protocol_word }
{
    "protocol"
}

/// `application`
#[tactic(auto, unfolding(crate::specs::Words::application_word))]
pub fn application() -> &'static str
    ensures { result.now ≡ application_word }
{
    "application"
}

/// `error`
#[tactic(auto, unfolding(crate::specs::Words::error_word))]
pub fn error() -> &'static str
    ensures { result.now ≡ error_word }
{
    "error"
}

/// `malformed-message`
#[tactic(auto, unfolding(crate::specs::Words::malformed_message_word))]
pub fn malformed_message() -> &'static str
    ensures { result.now ≡ malformed_message_word }
{
    "malformed-message"
}

/// `missing-attribute`
#[tactic(auto, unfolding(crate::specs::Words::missing_attribute_word))]
pub fn missing_attribute() -> &'static str
    ensures { result.now ≡ missing_attribute_word }
{
    "missing-attribute"
}

/// `missing-element`
#[tactic(auto, unfolding(crate::specs::Words::missing_element_word))]
pub fn missing_element() -> &'static str
    ensures { result.now ≡ missing_element_word }
{
    "missing-element"
}

/// `unknown-element`
#[tactic(auto, unfolding(crate::specs::Words::unknown_element_word))]
pub fn unknown_element() -> &'static str
    ensures { result.now ≡ unknown_element_word }
{
    "unknown-element"
}

/// `operation-not-supported`
#[tactic(auto, unfolding(crate::specs::Words::operation_not_supported_word))]
pub fn operation_not_supported() -> &'static str
    ensures { result.now ≡ operation_not_supported_word }
{
    "operation-not-supported"
}

/// `access-denied`
#[tactic(auto, unfolding(crate::specs::Words::access_denied_word))]
pub fn access_denied() -> &'static str
    ensures { result.now ≡ access_denied_word }
{
    "access-denied"
}

/// `invalid-value`
#[tactic(auto, unfolding(crate::specs::Words::invalid_value_word))]
pub fn invalid_value() -> &'static str
    ensures { result.now ≡ invalid_value_word }
{
    "invalid-value"
}

/// `lock-denied`
#[tactic(auto, unfolding(crate::specs::Words::lock_denied_word))]
pub fn lock_denied() -> &'static str
    ensures { result.now ≡ lock_denied_word }
{
    "lock-denied"
}

/// `operation-failed`
#[tactic(auto, unfolding(crate::specs::Words::operation_failed_word))]
pub fn operation_failed() -> &'static str
    ensures { result.now ≡ operation_failed_word }
{
    "operation-failed"
}

/// `in-use`
#[tactic(auto, unfolding(crate::specs::Words::in_use_word))]
pub fn in_use() -> &'static str
    ensures { result.now ≡ in_use_word }
{
    "in-use"
}

/// `resource-denied`
#[tactic(auto, unfolding(crate::specs::Words::resource_denied_word))]
pub fn resource_denied() -> &'static str
    ensures { result.now ≡ resource_denied_word }
{
    "resource-denied"
}

/// `unknown-namespace`
#[tactic(auto, unfolding(crate::specs::Words::unknown_namespace_word))]
pub fn unknown_namespace() -> &'static str
    ensures { result.now ≡ unknown_namespace_word }
{
    "unknown-namespace"
}

/// `unknown-attribute`
#[tactic(auto, unfolding(crate::specs::Words::unknown_attribute_word))]
pub fn unknown_attribute() -> &'static str
    ensures { result.now ≡ unknown_attribute_word }
{
    "unknown-attribute"
}

/// `data-exists`
#[tactic(auto, unfolding(crate::specs::Words::data_exists_word))]
pub fn data_exists() -> &'static str
    ensures { result.now ≡ data_exists_word }
{
    "data-exists"
}

/// `data-missing`
#[tactic(auto, unfolding(crate::specs::Words::data_missing_word))]
pub fn data_missing() -> &'static str
    ensures { result.now ≡ data_missing_word }
{
    "data-missing"
}
