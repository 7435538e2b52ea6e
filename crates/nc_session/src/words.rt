//! The fixed texts of hellos.
ghost use Rattle.std.specs.Prelude.{◌≡◌};
ghost use Rattle.nc_session.specs.Words as words;

// `hello`
#[tactic(auto, unfolding(crate::specs::Words::hello_word))]
pub(crate) fn hello() -> &'static str
    ensures { result.now ≡ words.hello_word }
{
    "hello"
}

// `capabilities`
#[tactic(auto, unfolding(crate::specs::Words::capabilities_word))]
pub(crate) fn capabilities() -> &'static str
    ensures { result.now ≡ words.capabilities_word }
{
    "capabilities"
}

// `capability`
#[tactic(auto, unfolding(crate::specs::Words::capability_word))]
pub(crate) fn capability() -> &'static str
    ensures { result.now ≡ words.capability_word }
{
    "capability"
}

// `urn:ietf:params:netconf:base:1.0`
#[tactic(auto, unfolding(crate::specs::Words::base_10))]
pub(crate) fn base_10() -> &'static str
    ensures { result.now ≡ words.base_10 }
{
    "urn:ietf:params:netconf:base:1.0"
}

// `urn:ietf:params:netconf:base:1.1`
#[tactic(auto, unfolding(crate::specs::Words::base_11))]
pub(crate) fn base_11() -> &'static str
    ensures { result.now ≡ words.base_11 }
{
    "urn:ietf:params:netconf:base:1.1"
}

// `urn:ietf:params:netconf:capability:candidate:1.0`
#[tactic(auto, unfolding(crate::specs::Words::candidate_capability))]
pub(crate) fn candidate() -> &'static str
    ensures { result.now ≡ words.candidate_capability }
{
    "urn:ietf:params:netconf:capability:candidate:1.0"
}

// `urn:ietf:params:netconf:capability:confirmed-commit:1.1`
#[tactic(auto, unfolding(crate::specs::Words::confirmed_capability))]
pub(crate) fn confirmed_commit() -> &'static str
    ensures { result.now ≡ words.confirmed_capability }
{
    "urn:ietf:params:netconf:capability:confirmed-commit:1.1"
}

// `urn:ietf:params:netconf:capability:rollback-on-error:1.0`
#[tactic(auto, unfolding(crate::specs::Words::rollback_capability))]
pub(crate) fn rollback_on_error() -> &'static str
    ensures { result.now ≡ words.rollback_capability }
{
    "urn:ietf:params:netconf:capability:rollback-on-error:1.0"
}

// `urn:ietf:params:netconf:capability:validate:1.1`
#[tactic(auto, unfolding(crate::specs::Words::validate_capability))]
pub(crate) fn validate() -> &'static str
    ensures { result.now ≡ words.validate_capability }
{
    "urn:ietf:params:netconf:capability:validate:1.1"
}

// `urn:ietf:params:netconf:capability:partial-lock:1.0`
#[tactic(auto, unfolding(crate::specs::Words::partial_lock_capability))]
pub(crate) fn partial_lock() -> &'static str
    ensures { result.now ≡ words.partial_lock_capability }
{
    "urn:ietf:params:netconf:capability:partial-lock:1.0"
}

// `?module=`
#[tactic(auto, unfolding(crate::specs::Words::module_query))]
pub(crate) fn module_query() -> &'static str
    ensures { result.now ≡ words.module_query }
{
    "?module="
}

// `&revision=`
#[tactic(auto, unfolding(crate::specs::Words::revision_query))]
pub(crate) fn revision_query() -> &'static str
    ensures { result.now ≡ words.revision_query }
{
    "&revision="
}

// `&features=`
#[tactic(auto, unfolding(crate::specs::Words::features_query))]
pub(crate) fn features_query() -> &'static str
    ensures { result.now ≡ words.features_query }
{
    "&features="
}
