//! The words of a payload's attributes.
ghost use Rattle.std.specs.Prelude.{◌≡◌};
ghost use Rattle.nc_protocol.specs.Words as words;

#[tactic(auto, unfolding(nc_protocol::specs::Words::base_namespace))]
pub(crate) fn base_namespace() -> &'static str
    ensures { result.now ≡ words.base_namespace }
{
    "urn:ietf:params:xml:ns:netconf:base:1.0"
}

#[tactic(auto, unfolding(nc_protocol::specs::Words::yang_namespace))]
pub(crate) fn yang_namespace() -> &'static str
    ensures { result.now ≡ words.yang_namespace }
{
    "urn:ietf:params:xml:ns:yang:1"
}

#[tactic(auto, unfolding(nc_protocol::specs::Words::operation_word))]
pub(crate) fn operation_word() -> &'static str
    ensures { result.now ≡ words.operation_word }
{
    "operation"
}

#[tactic(auto, unfolding(nc_protocol::specs::Words::insert_word))]
pub(crate) fn insert_word() -> &'static str
    ensures { result.now ≡ words.insert_word }
{
    "insert"
}

#[tactic(auto, unfolding(nc_protocol::specs::Words::merge_word))]
pub(crate) fn merge_word() -> &'static str
    ensures { result.now ≡ words.merge_word }
{
    "merge"
}

#[tactic(auto, unfolding(nc_protocol::specs::Words::replace_word))]
pub(crate) fn replace_word() -> &'static str
    ensures { result.now ≡ words.replace_word }
{
    "replace"
}

#[tactic(auto, unfolding(nc_protocol::specs::Words::create_word))]
pub(crate) fn create_word() -> &'static str
    ensures { result.now ≡ words.create_word }
{
    "create"
}

#[tactic(auto, unfolding(nc_protocol::specs::Words::delete_word))]
pub(crate) fn delete_word() -> &'static str
    ensures { result.now ≡ words.delete_word }
{
    "delete"
}

#[tactic(auto, unfolding(nc_protocol::specs::Words::remove_word))]
pub(crate) fn remove_word() -> &'static str
    ensures { result.now ≡ words.remove_word }
{
    "remove"
}

#[tactic(auto, unfolding(nc_protocol::specs::Words::first_word))]
pub(crate) fn first_word() -> &'static str
    ensures { result.now ≡ words.first_word }
{
    "first"
}

#[tactic(auto, unfolding(nc_protocol::specs::Words::last_word))]
pub(crate) fn last_word() -> &'static str
    ensures { result.now ≡ words.last_word }
{
    "last"
}

#[tactic(auto, unfolding(nc_protocol::specs::Words::before_word))]
pub(crate) fn before_word() -> &'static str
    ensures { result.now ≡ words.before_word }
{
    "before"
}

#[tactic(auto, unfolding(nc_protocol::specs::Words::after_word))]
pub(crate) fn after_word() -> &'static str
    ensures { result.now ≡ words.after_word }
{
    "after"
}

#[tactic(auto, unfolding(nc_protocol::specs::Words::key_word))]
pub(crate) fn key_word() -> &'static str
    ensures { result.now ≡ words.key_word }
{
    "key"
}

#[tactic(auto, unfolding(nc_protocol::specs::Words::value_word))]
pub(crate) fn value_word() -> &'static str
    ensures { result.now ≡ words.value_word }
{
    "value"
}
