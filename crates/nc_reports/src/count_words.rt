//! The pieces of the lines of counts. Contracts see each as a word.
ghost use Rattle.std.specs.Prelude.{◌≡◌};
ghost use Rattle.nc_reports.specs.Counts as meant;

#[tactic(auto, unfolding(crate::specs::Counts::modules_word))]
pub(crate) fn modules_word() -> &'static str
    ensures { result.now ≡ meant.modules_word }
{
    "modules "
}

#[tactic(auto, unfolding(crate::specs::Counts::nodes_word))]
pub(crate) fn nodes_word() -> &'static str
    ensures { result.now ≡ meant.nodes_word }
{
    " nodes "
}

#[tactic(auto, unfolding(crate::specs::Counts::rows_word))]
pub(crate) fn rows_word() -> &'static str
    ensures { result.now ≡ meant.rows_word }
{
    " rows "
}

#[tactic(auto, unfolding(crate::specs::Counts::records_word))]
pub(crate) fn records_word() -> &'static str
    ensures { result.now ≡ meant.records_word }
{
    " records "
}

#[tactic(auto, unfolding(crate::specs::Counts::load_word))]
pub(crate) fn load_word() -> &'static str
    ensures { result.now ≡ meant.load_word }
{
    "load "
}

#[tactic(auto, unfolding(crate::specs::Counts::entries_word))]
pub(crate) fn entries_word() -> &'static str
    ensures { result.now ≡ meant.entries_word }
{
    ": entries "
}

#[tactic(auto, unfolding(crate::specs::Counts::ok_word))]
pub(crate) fn ok_word() -> &'static str
    ensures { result.now ≡ meant.ok_word }
{
    " ok "
}

#[tactic(auto, unfolding(crate::specs::Counts::errors_word))]
pub(crate) fn errors_word() -> &'static str
    ensures { result.now ≡ meant.errors_word }
{
    " errors "
}
