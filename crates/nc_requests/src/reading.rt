//! How the content of a parameter is read.
ghost use Rattle.std.specs.Prelude.{◌≡◌, is_some, option_and_then, IfOk};
ghost use Rattle.std.specs.Option.{option_copied};
ghost use Rattle.nc_schema.specs.NumberTexts.{number_of};
ghost use Rattle.nc_protocol.specs.Asking as asking;

use crate::content::{children, only_child, only_of};
use nc_message::{Attr, Elem};
use nc_names::{Copies, Memory, Text, trimmed};
use nc_protocol::content::{has_child, has_text, whole_text};
use nc_protocol::{
    Datastore, Default3, ErrorOption, Origin, Select, TestOption, request_words as words,
};
use nc_schema::read_number;

/// The text of an element without child elements.
pub(crate) fn whole_text_in(elem: &Elem) -> Result<Option<Text>, Memory>
    ensures { IfOk result (λ it. it ≡ asking.whole_text_in elem.now) }
{
    if has_child(elem.parts.as_slice()) {
        return Ok(None);
    }
    Ok(Some(whole_text(elem.parts.alloc(), elem.parts.as_slice())?))
}

/// The same without the white space round it.
pub(crate) fn text_in(elem: &Elem) -> Result<Option<Text>, Memory>
    ensures { IfOk result (λ it. it ≡ asking.text_in elem.now) }
{
    match whole_text_in(elem)? {
        None => Ok(None),
        Some(text) => Ok(Some(Text::from_text(text.alloc(), trimmed(text.as_str()))?)),
    }
}

fn default_operation_named(word: &str) -> Option<Default3>
    ensures { result ≡ asking.meaning asking.default_operations word.now }
{
    if words::merge() == word {
        Some(Default3::Merge)
    } else if words::replace() == word {
        Some(Default3::Replace)
    } else if words::none() == word {
        Some(Default3::Nothing)
    } else {
        None
    }
}

fn test_option_named(word: &str) -> Option<TestOption>
    ensures { result ≡ asking.meaning asking.test_options word.now }
{
    if words::test_then_set() == word {
        Some(TestOption::TestThenSet)
    } else if words::set() == word {
        Some(TestOption::Set)
    } else if words::test_only() == word {
        Some(TestOption::TestOnly)
    } else {
        None
    }
}

fn error_option_named(word: &str) -> Option<ErrorOption>
    ensures { result ≡ asking.meaning asking.error_options word.now }
{
    if words::stop_on_error() == word {
        Some(ErrorOption::Stop)
    } else if words::continue_on_error() == word {
        Some(ErrorOption::Continue)
    } else if words::rollback_on_error() == word {
        Some(ErrorOption::Rollback)
    } else {
        None
    }
}

fn store_named(word: &str) -> Option<Datastore>
    ensures { result ≡ asking.meaning asking.datastores word.now }
{
    if words::running() == word {
        Some(Datastore::Running)
    } else if words::candidate() == word {
        Some(Datastore::Candidate)
    } else if words::startup() == word {
        Some(Datastore::Startup)
    } else if words::url() == word {
        Some(Datastore::Url)
    } else {
        None
    }
}

/// A `default-operation`.
pub(crate) fn default_operation_in(elem: &Elem) -> Result<Option<Default3>, Memory>
    ensures { IfOk result (λ it. it ≡ asking.word_in asking.default_operations elem.now) }
{
    match text_in(elem)? {
        None => Ok(None),
        Some(text) => Ok(default_operation_named(text.as_str())),
    }
}

/// A `test-option`.
pub(crate) fn test_option_in(elem: &Elem) -> Result<Option<TestOption>, Memory>
    ensures { IfOk result (λ it. it ≡ asking.word_in asking.test_options elem.now) }
{
    match text_in(elem)? {
        None => Ok(None),
        Some(text) => Ok(test_option_named(text.as_str())),
    }
}

/// An `error-option`.
pub(crate) fn error_option_in(elem: &Elem) -> Result<Option<ErrorOption>, Memory>
    ensures { IfOk result (λ it. it ≡ asking.word_in asking.error_options elem.now) }
{
    match text_in(elem)? {
        None => Ok(None),
        Some(text) => Ok(error_option_named(text.as_str())),
    }
}

// The datastore that an element of the base namespace names.
fn datastore_named(child: &Elem) -> Option<Datastore>
    ensures { result ≡ asking.datastore_named child.now }
{
    if child.name.space.as_str() == words::base_namespace() {
        store_named(child.name.name.as_str())
    } else {
        None
    }
}

/// A datastore.
pub(crate) fn datastore_in(elem: &Elem) -> Option<Datastore>
    ensures { result ≡ asking.datastore_in elem.now }
{
    match only_child(elem) {
        None => None,
        Some(child) => datastore_named(child),
    }
}

// Whether an element is `config`.
fn is_config(child: &Elem) -> bool
    ensures { result ≡ asking.is_config child.now }
{
    child.name.space.as_str() == words::base_namespace()
        && child.name.name.as_str() == words::config()
}

// What an element names: itself as a configuration, or a datastore.
fn origin_named(child: Elem) -> Option<Origin>
    ensures { result ≡ asking.origin_named child }
{
    if is_config(&child) {
        return Some(Origin::Inline(child));
    }
    match datastore_named(&child) {
        None => None,
        Some(store) => Some(Origin::Store(store)),
    }
}

// Whether it names one.
fn is_origin(child: &Elem) -> bool
    ensures { result ≡ is_some (asking.origin_named child.now) }
{
    is_config(child) || datastore_named(child).is_some()
}

/// Whether there is a datastore or a configuration.
pub(crate) fn has_origin(elem: &Elem) -> bool
    ensures { result ≡ is_some (asking.origin_in elem.now) }
{
    match only_child(elem) {
        None => false,
        Some(child) => is_origin(child),
    }
}

/// The datastore or the configuration, moved out of the element.
pub(crate) fn origin_in(elem: Elem) -> Result<Option<Origin>, Memory>
    ensures { IfOk result (λ it. it ≡ asking.origin_in elem) }
{
    if has_text(elem.parts.as_slice()) {
        return Ok(None);
    }
    match only_of(children(elem.parts)?) {
        None => Ok(None),
        Some(child) => Ok(origin_named(child)),
    }
}

fn is_type(attr: &Attr) -> bool
    ensures { result ≡ asking.is_type attr.now }
{
    attr.name.space.as_str() == "" && attr.name.name.as_str() == words::type_()
}

/// Whether an element is a subtree filter.
pub(crate) fn is_filter(elem: &Elem) -> bool
    ensures { result ≡ asking.is_filter elem.now }
{
    elem.attrs.as_slice().iter().all(|attr| !is_type(attr)
        || attr.value.as_str() == words::subtree())
}

/// Whether an element is empty, if it has no child elements.
pub(crate) fn presence_in(elem: &Elem) -> Result<Option<bool>, Memory>
    ensures { IfOk result (λ it. it ≡ asking.presence_in elem.now) }
{
    match text_in(elem)? {
        None => Ok(None),
        Some(text) => Ok(if text.len() == 0 { Some(true) } else { None }),
    }
}

// The number, where it is from 1 to 2 ^ 32 - 1.
fn from_one(number: i128) -> Option<u32>
    ensures { result ≡ asking.from_one number }
{
    match u32::try_from(number) {
        Ok(number) => { if number >= 1 { Some(number) } else { None } }
        Err(_) => None,
    }
}

// The number from 1 that a text writes.
fn number_from_one(text: &str) -> Option<u32>
    ensures { result ≡ option_and_then asking.from_one (number_of text.now) }
{
    match read_number(text) {
        Some(number) => from_one(number),
        None => None,
    }
}

/// A number from 1.
pub(crate) fn number_in(elem: &Elem) -> Result<Option<u32>, Memory>
    ensures { IfOk result (λ it. it ≡ asking.number_in elem.now) }
{
    match text_in(elem)? {
        None => Ok(None),
        Some(text) => Ok(number_from_one(text.as_str())),
    }
}

/// An expression with its prefixes.
pub(crate) fn select_in(elem: &Elem) -> Result<Option<Select>, Memory>
    ensures { IfOk result (λ it. it ≡ asking.select_in elem.now) }
{
    match text_in(elem)? {
        None => Ok(None),
        Some(text) => Ok(Some(Select {
            text,
            bounds: elem.bounds.copy()?,
        })),
    }
}
