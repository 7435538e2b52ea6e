//! The fixed texts by which this server tells errors of one tag apart (RFC 7950 15; RFC 5717 2.4.1).
ghost use Rattle.std.specs.Prelude.{◌≡◌};
ghost use Rattle.nc_protocol.specs.Words.{cause_namespace, cause_word, kind_word, name_word, outstanding_confirmed_commit_word, locked_word, invalid_lock_specification_word, no_matches_word, missing_instance_word, missing_choice_word, too_few_elements_word, too_many_elements_word, data_not_unique_word, instance_required_word, parameter_word, datastore_word, global_lock_word, candidate_modified_word, confirmed_commit_word, no_lock_word, no_confirmed_commit_word, limit_word, constraint_word, mandatory_word, mandatory_choice_word, min_elements_word, max_elements_word, unique_word, leafref_word, instance_word, disk_fault_word, rule_word, default_word};

/// `urn:netconfd:cause:1`
#[tactic(auto, unfolding(crate::specs::Words::cause_namespace))]
pub fn cause_namespace() -> &'static str
    ensures { result.now ≡ cause_namespace }
{
    "urn:netconfd:cause:1"
}

/// `cause`
#[tactic(auto, unfolding(crate::specs::Words::cause_word))]
pub fn cause() -> &'static str
    ensures { result.now ≡ cause_word }
{
    "cause"
}

/// `kind`
#[tactic(auto, unfolding(crate::specs::Words::kind_word))]
pub fn kind() -> &'static str
    ensures { result.now ≡ kind_word }
{
    "kind"
}

/// `name`
#[tactic(auto, unfolding(crate::specs::Words::name_word))]
pub fn name() -> &'static str
    ensures { result.now ≡ name_word }
{
    "name"
}

/// `outstanding-confirmed-commit`
#[tactic(auto, unfolding(crate::specs::Words::outstanding_confirmed_commit_word))]
pub fn outstanding_confirmed_commit() -> &'static str
    ensures { result.now ≡ outstanding_confirmed_commit_word }
{
    "outstanding-confirmed-commit"
}

/// `locked`
#[tactic(auto, unfolding(crate::specs::Words::locked_word))]
pub fn locked() -> &'static str
    ensures { result.now ≡ locked_word }
{
    "locked"
}

/// `invalid-lock-specification`
#[tactic(auto, unfolding(crate::specs::Words::invalid_lock_specification_word))]
pub fn invalid_lock_specification() -> &'static str
    ensures { result.now ≡ invalid_lock_specification_word }
{
    "invalid-lock-specification"
}

/// `no-matches`
#[tactic(auto, unfolding(crate::specs::Words::no_matches_word))]
pub fn no_matches() -> &'static str
    ensures { result.now ≡ no_matches_word }
{
    "no-matches"
}

/// `missing-instance`
#[tactic(auto, unfolding(crate::specs::Words::missing_instance_word))]
pub fn missing_instance() -> &'static str
    ensures { result.now ≡ missing_instance_word }
{
    "missing-instance"
}

/// `missing-choice`
#[tactic(auto, unfolding(crate::specs::Words::missing_choice_word))]
pub fn missing_choice() -> &'static str
    ensures { result.now ≡ missing_choice_word }
{
    "missing-choice"
}

/// `too-few-elements`
#[tactic(auto, unfolding(crate::specs::Words::too_few_elements_word))]
pub fn too_few_elements() -> &'static str
    ensures { result.now ≡ too_few_elements_word }
{
    "too-few-elements"
}

/// `too-many-elements`
#[tactic(auto, unfolding(crate::specs::Words::too_many_elements_word))]
pub fn too_many_elements() -> &'static str
    ensures { result.now ≡ too_many_elements_word }
{
    "too-many-elements"
}

/// `data-not-unique`
#[tactic(auto, unfolding(crate::specs::Words::data_not_unique_word))]
pub fn data_not_unique() -> &'static str
    ensures { result.now ≡ data_not_unique_word }
{
    "data-not-unique"
}

/// `instance-required`
#[tactic(auto, unfolding(crate::specs::Words::instance_required_word))]
pub fn instance_required() -> &'static str
    ensures { result.now ≡ instance_required_word }
{
    "instance-required"
}

/// `parameter`
#[tactic(auto, unfolding(crate::specs::Words::parameter_word))]
pub fn parameter() -> &'static str
    ensures { result.now ≡ parameter_word }
{
    "parameter"
}

/// `datastore`
#[tactic(auto, unfolding(crate::specs::Words::datastore_word))]
pub fn datastore() -> &'static str
    ensures { result.now ≡ datastore_word }
{
    "datastore"
}

/// `global-lock`
#[tactic(auto, unfolding(crate::specs::Words::global_lock_word))]
pub fn global_lock() -> &'static str
    ensures { result.now ≡ global_lock_word }
{
    "global-lock"
}

/// `candidate-modified`
#[tactic(auto, unfolding(crate::specs::Words::candidate_modified_word))]
pub fn candidate_modified() -> &'static str
    ensures { result.now ≡ candidate_modified_word }
{
    "candidate-modified"
}

/// `confirmed-commit`
#[tactic(auto, unfolding(crate::specs::Words::confirmed_commit_word))]
pub fn confirmed_commit() -> &'static str
    ensures { result.now ≡ confirmed_commit_word }
{
    "confirmed-commit"
}

/// `no-lock`
#[tactic(auto, unfolding(crate::specs::Words::no_lock_word))]
pub fn no_lock() -> &'static str
    ensures { result.now ≡ no_lock_word }
{
    "no-lock"
}

/// `no-confirmed-commit`
#[tactic(auto, unfolding(crate::specs::Words::no_confirmed_commit_word))]
pub fn no_confirmed_commit() -> &'static str
    ensures { result.now ≡ no_confirmed_commit_word }
{
    "no-confirmed-commit"
}

/// `limit`
#[tactic(auto, unfolding(crate::specs::Words::limit_word))]
pub fn limit() -> &'static str
    ensures { result.now ≡ limit_word }
{
    "limit"
}

/// `constraint`
#[tactic(auto, unfolding(crate::specs::Words::constraint_word))]
pub fn constraint() -> &'static str
    ensures { result.now ≡ constraint_word }
{
    "constraint"
}

/// `mandatory`
#[tactic(auto, unfolding(crate::specs::Words::mandatory_word))]
pub fn mandatory() -> &'static str
    ensures { result.now ≡ mandatory_word }
{
    "mandatory"
}

/// `mandatory-choice`
#[tactic(auto, unfolding(crate::specs::Words::mandatory_choice_word))]
pub fn mandatory_choice() -> &'static str
    ensures { result.now ≡ mandatory_choice_word }
{
    "mandatory-choice"
}

/// `min-elements`
#[tactic(auto, unfolding(crate::specs::Words::min_elements_word))]
pub fn min_elements() -> &'static str
    ensures { result.now ≡ min_elements_word }
{
    "min-elements"
}

/// `max-elements`
#[tactic(auto, unfolding(crate::specs::Words::max_elements_word))]
pub fn max_elements() -> &'static str
    ensures { result.now ≡ max_elements_word }
{
    "max-elements"
}

/// `unique`
#[tactic(auto, unfolding(crate::specs::Words::unique_word))]
pub fn unique() -> &'static str
    ensures { result.now ≡ unique_word }
{
    "unique"
}

/// `leafref`
#[tactic(auto, unfolding(crate::specs::Words::leafref_word))]
pub fn leafref() -> &'static str
    ensures { result.now ≡ leafref_word }
{
    "leafref"
}

/// `instance`
#[tactic(auto, unfolding(crate::specs::Words::instance_word))]
pub fn instance() -> &'static str
    ensures { result.now ≡ instance_word }
{
    "instance"
}

/// `disk-fault`
#[tactic(auto, unfolding(crate::specs::Words::disk_fault_word))]
pub fn disk_fault() -> &'static str
    ensures { result.now ≡ disk_fault_word }
{
    "disk-fault"
}

/// `rule`
#[tactic(auto, unfolding(crate::specs::Words::rule_word))]
pub fn rule() -> &'static str
    ensures { result.now ≡ rule_word }
{
    "rule"
}

/// `default`
#[tactic(auto, unfolding(crate::specs::Words::default_word))]
pub fn default() -> &'static str
    ensures { result.now ≡ default_word }
{
    "default"
}
