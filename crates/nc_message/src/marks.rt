//! The fixed texts of a written message.
ghost use Rattle.std.specs.Prelude.{◌≡◌};
ghost use Rattle.nc_message.specs.Marks as marks;

#[tactic(auto, unfolding(crate::specs::Marks::ampersand))]
pub(crate) fn ampersand() -> &'static [u8]
    ensures { result.now ≡ marks.ampersand }
{
    b"&amp;"
}

#[tactic(auto, unfolding(crate::specs::Marks::less_than))]
pub(crate) fn less_than() -> &'static [u8]
    ensures { result.now ≡ marks.less_than }
{
    b"&lt;"
}

#[tactic(auto, unfolding(crate::specs::Marks::greater_than))]
pub(crate) fn greater_than() -> &'static [u8]
    ensures { result.now ≡ marks.greater_than }
{
    b"&gt;"
}

#[tactic(auto, unfolding(crate::specs::Marks::quotation_mark))]
pub(crate) fn quotation_mark() -> &'static [u8]
    ensures { result.now ≡ marks.quotation_mark }
{
    b"&quot;"
}

#[tactic(auto, unfolding(crate::specs::Marks::carriage_return))]
pub(crate) fn carriage_return() -> &'static [u8]
    ensures { result.now ≡ marks.carriage_return }
{
    b"&#13;"
}

#[tactic(auto, unfolding(crate::specs::Marks::tab))]
pub(crate) fn tab() -> &'static [u8]
    ensures { result.now ≡ marks.tab }
{
    b"&#9;"
}

#[tactic(auto, unfolding(crate::specs::Marks::line_feed))]
pub(crate) fn line_feed() -> &'static [u8]
    ensures { result.now ≡ marks.line_feed }
{
    b"&#10;"
}

#[tactic(auto, unfolding(crate::specs::Marks::default_namespace))]
pub(crate) fn default_namespace() -> &'static [u8]
    ensures { result.now ≡ marks.default_namespace }
{
    b" xmlns"
}

#[tactic(auto, unfolding(crate::specs::Marks::prefixed_namespace))]
pub(crate) fn prefixed_namespace() -> &'static [u8]
    ensures { result.now ≡ marks.prefixed_namespace }
{
    b" xmlns:"
}

#[tactic(auto, unfolding(crate::specs::Marks::value_start))]
pub(crate) fn value_start() -> &'static [u8]
    ensures { result.now ≡ marks.value_start }
{
    b"=\""
}

#[tactic(auto, unfolding(crate::specs::Marks::empty_end))]
pub(crate) fn empty_end() -> &'static [u8]
    ensures { result.now ≡ marks.empty_end }
{
    b"/>"
}

#[tactic(auto, unfolding(crate::specs::Marks::end_tag))]
pub(crate) fn end_tag() -> &'static [u8]
    ensures { result.now ≡ marks.end_tag }
{
    b"</"
}

#[tactic(auto, unfolding(crate::specs::Marks::xml_prefix))]
pub(crate) fn xml_prefix() -> &'static [u8]
    ensures { result.now ≡ marks.xml_prefix }
{
    b"xml"
}
