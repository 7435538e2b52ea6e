//! The fixed texts of access control and of limits (RFC 8341 3.5.2, RFC 6241 appendix C, RFC 5717 appendix
//! B), each by a function that gives it.
ghost use Rattle.std.specs.Prelude.{◌≡◌};
ghost use Rattle.nc_model.specs.Words as words;

/// `*`
#[tactic(auto, unfolding(crate::specs::Words::star))]
pub fn star() -> &'static str
    ensures { result.now ≡ words.star }
{
    "*"
}

/// `true`
#[tactic(auto, unfolding(crate::specs::Words::true_word))]
pub fn true_word() -> &'static str
    ensures { result.now ≡ words.true_word }
{
    "true"
}

/// `false`
#[tactic(auto, unfolding(crate::specs::Words::false_word))]
pub fn false_word() -> &'static str
    ensures { result.now ≡ words.false_word }
{
    "false"
}

/// `permit`
#[tactic(auto, unfolding(crate::specs::Words::permit_word))]
pub fn permit() -> &'static str
    ensures { result.now ≡ words.permit_word }
{
    "permit"
}

/// `update`
#[tactic(auto, unfolding(crate::specs::Words::update_word))]
pub fn update() -> &'static str
    ensures { result.now ≡ words.update_word }
{
    "update"
}

/// `ietf-netconf`
#[tactic(auto, unfolding(crate::specs::Words::netconf_module))]
pub fn netconf_module() -> &'static str
    ensures { result.now ≡ words.netconf_module }
{
    "ietf-netconf"
}

/// `ietf-netconf-partial-lock`
#[tactic(auto, unfolding(crate::specs::Words::partial_lock_module))]
pub fn partial_lock_module() -> &'static str
    ensures { result.now ≡ words.partial_lock_module }
{
    "ietf-netconf-partial-lock"
}

/// `partial-locks`
#[tactic(auto, unfolding(crate::specs::Words::partial_locks_word))]
pub fn partial_locks() -> &'static str
    ensures { result.now ≡ words.partial_locks_word }
{
    "partial-locks"
}

/// `lock-ids`
#[tactic(auto, unfolding(crate::specs::Words::lock_ids_word))]
pub fn lock_ids() -> &'static str
    ensures { result.now ≡ words.lock_ids_word }
{
    "lock-ids"
}

/// `record`
#[tactic(auto, unfolding(crate::specs::Words::record_word))]
pub fn record_text() -> &'static str
    ensures { result.now ≡ words.record_word }
{
    "record"
}
