//! The names of access operations (RFC 8341 3.5.2, `access-operations-type`), each by a function that gives
//! it.
ghost use Rattle.std.specs.Prelude.{◌≡◌};
ghost use Rattle.nc_protocol.specs.Words as words;

#[tactic(auto, unfolding(nc_protocol::specs::Words::read_word))]
pub(crate) fn read_word() -> &'static str
    ensures { result.now ≡ words.read_word }
{
    "read"
}

#[tactic(auto, unfolding(nc_protocol::specs::Words::create_word))]
pub(crate) fn create_word() -> &'static str
    ensures { result.now ≡ words.create_word }
{
    "create"
}

#[tactic(auto, unfolding(nc_protocol::specs::Words::delete_word))]
pub(crate) fn delete_word() -> &'static str
    ensures { result.now ≡ words.delete_word }
{
    "delete"
}

#[tactic(auto, unfolding(nc_protocol::specs::Words::exec_word))]
pub(crate) fn exec_word() -> &'static str
    ensures { result.now ≡ words.exec_word }
{
    "exec"
}
