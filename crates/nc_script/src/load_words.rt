//! What the clients of a load test send. Contracts see each piece as a word.
ghost use Rattle.std.specs.Prelude.{◌≡◌};
ghost use Rattle.nc_script.specs.Load as meant;

#[tactic(auto, unfolding(crate::specs::Load::client_hello))]
pub(crate) fn client_hello() -> &'static str
    ensures { result.now ≡ meant.client_hello }
{
    "<hello xmlns=\"urn:ietf:params:xml:ns:netconf:base:1.0\"><capabilities>\
    <capability>urn:ietf:params:netconf:base:1.0</capability></capabilities></hello>]]>]]>"
}

#[tactic(auto, unfolding(crate::specs::Load::commit_text))]
pub(crate) fn commit_text() -> &'static str
    ensures { result.now ≡ meant.commit_text }
{
    "<rpc xmlns=\"urn:ietf:params:xml:ns:netconf:base:1.0\" message-id=\"1\"><commit/></rpc>]]>]]>"
}

#[tactic(auto, unfolding(crate::specs::Load::close_text))]
pub(crate) fn close_text() -> &'static str
    ensures { result.now ≡ meant.close_text }
{
    "<rpc xmlns=\"urn:ietf:params:xml:ns:netconf:base:1.0\" message-id=\"1\"><close-session/></rpc>]]>]]>"
}

#[tactic(auto, unfolding(crate::specs::Load::edit_head))]
pub(crate) fn edit_head() -> &'static str
    ensures { result.now ≡ meant.edit_head }
{
    "<rpc xmlns=\"urn:ietf:params:xml:ns:netconf:base:1.0\" message-id=\"1\"><edit-config>\
    <target><candidate/></target><config><top xmlns=\"urn:ex\"><port><name>p"
}

#[tactic(auto, unfolding(crate::specs::Load::edit_middle))]
pub(crate) fn edit_middle() -> &'static str
    ensures { result.now ≡ meant.edit_middle }
{
    "</name><tag>"
}

#[tactic(auto, unfolding(crate::specs::Load::edit_tail))]
pub(crate) fn edit_tail() -> &'static str
    ensures { result.now ≡ meant.edit_tail }
{
    "</tag></port></top></config></edit-config></rpc>]]>]]>"
}

#[tactic(auto, unfolding(crate::specs::Load::load_user))]
pub(crate) fn load_user() -> &'static str
    ensures { result.now ≡ meant.load_user }
{
    "load"
}
