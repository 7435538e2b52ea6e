//! The fixed texts of requests: operations, parameters and their words (RFC 6241 3.1, 4.1, 7, 8;
//! RFC 5717 2.4).
ghost use Rattle.std.specs.Prelude.{◌≡◌};
ghost use Rattle.nc_protocol.specs.Words.{base_namespace, partial_lock_namespace, rpc_word, message_id_word, get_word, get_config_word, edit_config_word, copy_config_word, delete_config_word, lock_word, unlock_word, close_session_word, kill_session_word, commit_word, discard_changes_word, cancel_commit_word, validate_word, partial_lock_word, partial_unlock_word, target_word, source_word, config_word, filter_word, test_option_word, error_option_word, confirmed_word, confirm_timeout_word, session_id_word, lock_id_word, persist_word, persist_id_word, select_word, default_operation_word, running_word, candidate_word, startup_word, url_word, merge_word, replace_word, none_word, test_then_set_word, set_word, test_only_word, stop_on_error_word, continue_on_error_word, rollback_on_error_word, type_word, subtree_word};

/// `urn:ietf:params:xml:ns:netconf:base:1.0`
#[tactic(auto, unfolding(crate::specs::Words::base_namespace))]
pub fn base_namespace() -> &'static str
    ensures { result.now ≡ base_namespace }
{
    "urn:ietf:params:xml:ns:netconf:base:1.0"
}

/// `urn:ietf:params:xml:ns:netconf:partial-lock:1.0`
#[tactic(auto, unfolding(crate::specs::Words::partial_lock_namespace))]
pub fn partial_lock_namespace() -> &'static str
    ensures { result.now ≡ partial_lock_namespace }
{
    "urn:ietf:params:xml:ns:netconf:partial-lock:1.0"
}

/// `rpc`
#[tactic(auto, unfolding(crate::specs::Words::rpc_word))]
pub fn rpc() -> &'static str
    ensures { result.now ≡ rpc_word }
{
    "rpc"
}

/// `message-id`
#[tactic(auto, unfolding(crate::specs::Words::message_id_word))]
pub fn message_id() -> &'static str
    ensures { result.now ≡ message_id_word }
{
    "message-id"
}

/// `get`
#[tactic(auto, unfolding(crate::specs::Words::get_word))]
pub fn get() -> &'static str
    ensures { result.now ≡ get_word }
{
    "get"
}

/// `get-config`
#[tactic(auto, unfolding(crate::specs::Words::get_config_word))]
pub fn get_config() -> &'static str
    ensures { result.now ≡ get_config_word }
{
    "get-config"
}

/// `edit-config`
#[tactic(auto, unfolding(crate::specs::Words::edit_config_word))]
pub fn edit_config() -> &'static str
    ensures { result.now ≡ edit_config_word }
{
    "edit-config"
}

/// `copy-config`
#[tactic(auto, unfolding(crate::specs::Words::copy_config_word))]
pub fn copy_config() -> &'static str
    ensures { result.now ≡ copy_config_word }
{
    "copy-config"
}

/// `delete-config`
#[tactic(auto, unfolding(crate::specs::Words::delete_config_word))]
pub fn delete_config() -> &'static str
    ensures { result.now ≡ delete_config_word }
{
    "delete-config"
}

/// `lock`
#[tactic(auto, unfolding(crate::specs::Words::lock_word))]
pub fn lock() -> &'static str
    ensures { result.now ≡ lock_word }
{
    "lock"
}

/// `unlock`
#[tactic(auto, unfolding(crate::specs::Words::unlock_word))]
pub fn unlock() -> &'static str
    ensures { result.now ≡ unlock_word }
{
    "unlock"
}

/// `close-session`
#[tactic(auto, unfolding(crate::specs::Words::close_session_word))]
pub fn close_session() -> &'static str
    ensures { result.now ≡ close_session_word }
{
    "close-session"
}

/// `kill-session`
#[tactic(auto, unfolding(crate::specs::Words::kill_session_word))]
pub fn kill_session() -> &'static str
    ensures { result.now ≡ kill_session_word }
{
    "kill-session"
}

/// `commit`
#[tactic(auto, unfolding(crate::specs::Words::commit_word))]
pub fn commit() -> &'static str
    ensures { result.now ≡ commit_word }
{
    "commit"
}

/// `discard-changes`
#[tactic(auto, unfolding(crate::specs::Words::discard_changes_word))]
pub fn discard_changes() -> &'static str
    ensures { result.now ≡ discard_changes_word }
{
    "discard-changes"
}

/// `cancel-commit`
#[tactic(auto, unfolding(crate::specs::Words::cancel_commit_word))]
pub fn cancel_commit() -> &'static str
    ensures { result.now ≡ cancel_commit_word }
{
    "cancel-commit"
}

/// `validate`
#[tactic(auto, unfolding(crate::specs::Words::validate_word))]
pub fn validate() -> &'static str
    ensures { result.now ≡ validate_word }
{
    "validate"
}

/// `partial-lock`
#[tactic(auto, unfolding(crate::specs::Words::partial_lock_word))]
pub fn partial_lock() -> &'static str
    ensures { result.now ≡ partial_lock_word }
{
    "partial-lock"
}

/// `partial-unlock`
#[tactic(auto, unfolding(crate::specs::Words::partial_unlock_word))]
pub fn partial_unlock() -> &'static str
    ensures { result.now ≡ partial_unlock_word }
{
    "partial-unlock"
}

/// `target`
#[tactic(auto, unfolding(crate::specs::Words::target_word))]
pub fn target() -> &'static str
    ensures { result.now ≡ target_word }
{
    "target"
}

/// `source`
#[tactic(auto, unfolding(crate::specs::Words::source_word))]
pub fn source() -> &'static str
    ensures { result.now ≡ source_word }
{
    "source"
}

/// `config`
#[tactic(auto, unfolding(crate::specs::Words::config_word))]
pub fn config() -> &'static str
    ensures { result.now ≡ config_word }
{
    "config"
}

/// `filter`
#[tactic(auto, unfolding(crate::specs::Words::filter_word))]
pub fn filter() -> &'static str
    ensures { result.now ≡ filter_word }
{
    "filter"
}

/// `test-option`
#[tactic(auto, unfolding(crate::specs::Words::test_option_word))]
pub fn test_option() -> &'static str
    ensures { result.now ≡ test_option_word }
{
    "test-option"
}

/// `error-option`
#[tactic(auto, unfolding(crate::specs::Words::error_option_word))]
pub fn error_option() -> &'static str
    ensures { result.now ≡ error_option_word }
{
    "error-option"
}

/// `confirmed`
#[tactic(auto, unfolding(crate::specs::Words::confirmed_word))]
pub fn confirmed() -> &'static str
    ensures { result.now ≡ confirmed_word }
{
    "confirmed"
}

/// `confirm-timeout`
#[tactic(auto, unfolding(crate::specs::Words::confirm_timeout_word))]
pub fn confirm_timeout() -> &'static str
    ensures { result.now ≡ confirm_timeout_word }
{
    "confirm-timeout"
}

/// `session-id`
#[tactic(auto, unfolding(crate::specs::Words::session_id_word))]
pub fn session_id() -> &'static str
    ensures { result.now ≡ session_id_word }
{
    "session-id"
}

/// `lock-id`
#[tactic(auto, unfolding(crate::specs::Words::lock_id_word))]
pub fn lock_id() -> &'static str
    ensures { result.now ≡ lock_id_word }
{
    "lock-id"
}

/// `persist`
#[tactic(auto, unfolding(crate::specs::Words::persist_word))]
pub fn persist() -> &'static str
    ensures { result.now ≡ persist_word }
{
    "persist"
}

/// `persist-id`
#[tactic(auto, unfolding(crate::specs::Words::persist_id_word))]
pub fn persist_id() -> &'static str
    ensures { result.now ≡ persist_id_word }
{
    "persist-id"
}

/// `select`
#[tactic(auto, unfolding(crate::specs::Words::select_word))]
pub fn select() -> &'static str
    ensures { result.now ≡ select_word }
{
    "select"
}

/// `default-operation`
#[tactic(auto, unfolding(crate::specs::Words::default_operation_word))]
pub fn default_operation() -> &'static str
    ensures { result.now ≡ default_operation_word }
{
    "default-operation"
}

/// `running`
#[tactic(auto, unfolding(crate::specs::Words::running_word))]
pub fn running() -> &'static str
    ensures { result.now ≡ running_word }
{
    "running"
}

/// `candidate`
#[tactic(auto, unfolding(crate::specs::Words::candidate_word))]
pub fn candidate() -> &'static str
    ensures { result.now ≡ candidate_word }
{
    "candidate"
}

/// `startup`
#[tactic(auto, unfolding(crate::specs::Words::startup_word))]
pub fn startup() -> &'static str
    ensures { result.now ≡ startup_word }
{
    "startup"
}

/// `url`
#[tactic(auto, unfolding(crate::specs::Words::url_word))]
pub fn url() -> &'static str
    ensures { result.now ≡ url_word }
{
    "url"
}

/// `merge`
#[tactic(auto, unfolding(crate::specs::Words::merge_word))]
pub fn merge() -> &'static str
    ensures { result.now ≡ merge_word }
{
    "merge"
}

/// `replace`
#[tactic(auto, unfolding(crate::specs::Words::replace_word))]
pub fn replace() -> &'static str
    ensures { result.now ≡ replace_word }
{
    "replace"
}

/// `none`
#[tactic(auto, unfolding(crate::specs::Words::none_word))]
pub fn none() -> &'static str
    ensures { result.now ≡ none_word }
{
    "none"
}

/// `test-then-set`
#[tactic(auto, unfolding(crate::specs::Words::test_then_set_word))]
pub fn test_then_set() -> &'static str
    ensures { result.now ≡ test_then_set_word }
{
    "test-then-set"
}

/// `set`
#[tactic(auto, unfolding(crate::specs::Words::set_word))]
pub fn set() -> &'static str
    ensures { result.now ≡ set_word }
{
    "set"
}

/// `test-only`
#[tactic(auto, unfolding(crate::specs::Words::test_only_word))]
pub fn test_only() -> &'static str
    ensures { result.now ≡ test_only_word }
{
    "test-only"
}

/// `stop-on-error`
#[tactic(auto, unfolding(crate::specs::Words::stop_on_error_word))]
pub fn stop_on_error() -> &'static str
    ensures { result.now ≡ stop_on_error_word }
{
    "stop-on-error"
}

/// `continue-on-error`
#[tactic(auto, unfolding(crate::specs::Words::continue_on_error_word))]
pub fn continue_on_error() -> &'static str
    ensures { result.now ≡ continue_on_error_word }
{
    "continue-on-error"
}

/// `rollback-on-error`
#[tactic(auto, unfolding(crate::specs::Words::rollback_on_error_word))]
pub fn rollback_on_error() -> &'static str
    ensures { result.now ≡ rollback_on_error_word }
{
    "rollback-on-error"
}

/// `type`
#[tactic(auto, unfolding(crate::specs::Words::type_word))]
pub fn type_() -> &'static str
    ensures { result.now ≡ type_word }
{
    "type"
}

/// `subtree`
#[tactic(auto, unfolding(crate::specs::Words::subtree_word))]
pub fn subtree() -> &'static str
    ensures { result.now ≡ subtree_word }
{
    "subtree"
}
