//! What error-info holds (RFC 6241 4.3 and appendix A).
ghost use Rattle.std.specs.Prelude.{◌≡◌, [], ◌∷◌, ◌++◌, map, IfOk};
ghost use Rattle.std.specs.List.{zip};
ghost use Rattle.nc_protocol.specs.Content as content;
ghost use Rattle.nc_protocol.specs.ErrorRows as rows;
ghost use Rattle.nc_protocol.specs.Reply as reply;
ghost use Rattle.nc_protocol.specs.Words as w;

use crate::built::{base_part, base_text, element, text_part};
use nc_message::Part;
use nc_names::{CauseKind, Copies, Many, Memory, Text};
use nc_protocol::{cause_words, reply_words, request_words};
use std::alloc::Global;

// Adds an element of error-info.
fn push(alloc: Global, name: &str, text: &str, parts: &mut Many<Part>) -> Result<(), Memory>
    ensures { IfOk result (λ _. parts.new ≡ parts.old ++ map reply.info_part ((name.now, text.now) ∷ [])) }
{
    parts.push(base_text(alloc, name, text)?)?;
    Ok(())
}

// Adds two of them.
fn push_two(
    alloc: Global,
    first: (&str, &str),
    second: (&str, &str),
    parts: &mut Many<Part>,
) -> Result<(), Memory>
    ensures { IfOk result (λ _. parts.new
        ≡ parts.old ++ map reply.info_part
        ((first.entry.0.now, first.entry.1.now) ∷ (second.entry.0.now, second.entry.1.now) ∷ [])) }
{
    push(alloc, first.0, first.1, parts)?;
    push(alloc, second.0, second.1, parts)
}

// Adds an element round the first name.
fn push_first(
    alloc: Global,
    label: &str,
    names: &[Text],
    parts: &mut Many<Part>,
) -> Result<(), Memory>
    ensures { IfOk result (λ _. parts.new
        ≡ parts.old ++ map reply.info_part (zip (label.now ∷ []) names.now)) }
{
    match names.split_first() {
        Some((name, _)) => push(alloc, label, name.as_str(), parts),
        None => Ok(()),
    }
}

// Adds elements round the first two names.
fn push_both(
    alloc: Global,
    label: &str,
    other: &str,
    names: &[Text],
    parts: &mut Many<Part>,
) -> Result<(), Memory>
    ensures { IfOk result (λ _. parts.new
        ≡ parts.old ++ map reply.info_part (zip (label.now ∷ other.now ∷ []) names.now)) }
{
    match names.split_first() {
        Some((name, rest)) => {
            push(alloc, label, name.as_str(), parts)?;
            push_first(alloc, other, rest, parts)
        }
        None => Ok(()),
    }
}

// Adds the session that holds what is in the way.
fn push_holder(alloc: Global, names: &Many<Text>, parts: &mut Many<Part>) -> Result<(), Memory>
    ensures { IfOk result (λ _. parts.new ≡ parts.old ++ map reply.info_part (rows.holder names.now)) }
{
    match names.last() {
        Some(name) => push(alloc, request_words::session_id(), name.as_str(), parts),
        None => Ok(()),
    }
}

// Adds the elements of error-info that RFC 6241 has for the tag of a cause.
fn push_standard(
    alloc: Global,
    kind: CauseKind,
    names: &Many<Text>,
    parts: &mut Many<Part>,
) -> Result<(), Memory>
    ensures { IfOk result (λ _. parts.new
        ≡ parts.old ++ map reply.info_part (rows.standard_info kind names.now)) }
{
    let attribute = reply_words::bad_attribute();
    let element = reply_words::bad_element();
    match kind {
        CauseKind::NoMessageId => push_two(
            alloc,
            (attribute, request_words::message_id()),
            (element, request_words::rpc()),
            parts,
        ),
        CauseKind::NoOperation => push(alloc, element, request_words::rpc(), parts),
        CauseKind::BadFilterType => push_two(
            alloc,
            (attribute, request_words::type_()),
            (element, request_words::filter()),
            parts,
        ),
        CauseKind::LockModified => push(
            alloc,
            request_words::session_id(),
            reply_words::no_session(),
            parts,
        ),
        CauseKind::LockHeld | CauseKind::LockPending | CauseKind::LockPartial => push_holder(
            alloc, names, parts,
        ),
        CauseKind::UnknownNamespace => push_both(
            alloc,
            element,
            reply_words::bad_namespace(),
            names.as_slice(),
            parts,
        ),
        CauseKind::UnknownAttribute | CauseKind::BadAttribute | CauseKind::MissingInstance => {
            push_both(alloc, attribute, element, names.as_slice(), parts)
        }
        CauseKind::TwoOperations
        | CauseKind::UnknownParameter
        | CauseKind::RepeatedParameter
        | CauseKind::MissingParameter
        | CauseKind::UnknownElement
        | CauseKind::MissingKey
        | CauseKind::BadElement => push_first(alloc, element, names.as_slice(), parts),
        _ => Ok(()),
    }
}

// One text.
fn alone(alloc: Global, word: &str) -> Result<Many<Text>, Memory>
    ensures { IfOk result (λ it. it ≡ word.now ∷ []) }
{
    let mut texts = Many::new(alloc);
    texts.push(Text::from_text(alloc, word)?)?;
    Ok(texts)
}

// A text, and names after it.
fn before(alloc: Global, word: &str, names: &Many<Text>) -> Result<Many<Text>, Memory>
    ensures { IfOk result (λ it. it ≡ word.now ∷ names.now) }
{
    let mut texts = alone(alloc, word)?;
    texts.append(names.copy()?)?;
    Ok(texts)
}

// A constraint by its name.
fn constraint(alloc: Global, name: &str) -> Result<Many<Text>, Memory>
    ensures { IfOk result (λ it. it ≡ w.constraint_word ∷ name.now ∷ []) }
{
    before(alloc, cause_words::constraint(), &alone(alloc, name)?)
}

// What this server says more exactly: a kind and names.
fn own_info(alloc: Global, kind: CauseKind, names: &Many<Text>) -> Result<Many<Text>, Memory>
    ensures { IfOk result (λ it. it ≡ rows.own_info kind names.now) }
{
    match kind {
        CauseKind::ExecDenied => names.copy(),
        CauseKind::BadParameter => before(alloc, cause_words::parameter(), names),
        CauseKind::UnsupportedTarget => before(alloc, cause_words::datastore(), names),
        CauseKind::LockHeld => before(alloc, cause_words::global_lock(), names),
        CauseKind::LockModified => alone(alloc, cause_words::candidate_modified()),
        CauseKind::LockPending => before(alloc, cause_words::confirmed_commit(), names),
        CauseKind::LockPartial => before(alloc, request_words::partial_lock(), names),
        CauseKind::NotHeld => before(alloc, cause_words::no_lock(), names),
        CauseKind::InUseGlobal => before(alloc, cause_words::global_lock(), names),
        CauseKind::InUsePartial => before(alloc, request_words::partial_lock(), names),
        CauseKind::InUsePending => before(alloc, cause_words::confirmed_commit(), names),
        CauseKind::NoPending => alone(alloc, cause_words::no_confirmed_commit()),
        CauseKind::BadToken => alone(alloc, request_words::persist_id()),
        CauseKind::NotLiveTarget => alone(alloc, request_words::session_id()),
        CauseKind::Limit => before(alloc, cause_words::limit(), names),
        CauseKind::DataDenied => names.copy(),
        CauseKind::Mandatory => constraint(alloc, cause_words::mandatory()),
        CauseKind::MandatoryChoice => constraint(alloc, cause_words::mandatory_choice()),
        CauseKind::TooFew => constraint(alloc, cause_words::min_elements()),
        CauseKind::TooMany => constraint(alloc, cause_words::max_elements()),
        CauseKind::NotUnique => constraint(alloc, cause_words::unique()),
        CauseKind::DeadLeafref => constraint(alloc, cause_words::leafref()),
        CauseKind::DeadInstance => constraint(alloc, cause_words::instance()),
        CauseKind::DiskFault => alone(alloc, cause_words::disk_fault()),
        _ => Ok(Many::new(alloc)),
    }
}

// An element of a cause round each name.
fn push_names(alloc: Global, names: &[Text], parts: &mut Many<Part>) -> Result<(), Memory>
    ensures { IfOk result (λ _. parts.new
        ≡ parts.old ++ map (content.text_part (reply.cause_name w.name_word)) names.now) }
{
    for name in names {
        parts.push(text_part(
            alloc,
            cause_words::cause_namespace(),
            cause_words::name(),
            name.as_str(),
        )?)?;
    }
    Ok(())
}

// Adds the cause of this server, if it says anything.
fn push_cause(alloc: Global, texts: &[Text], parts: &mut Many<Part>) -> Result<(), Memory>
    ensures { IfOk result (λ _. parts.new ≡ parts.old ++ reply.cause_parts texts.now) }
{
    let Some((kind, names)) = texts.split_first() else {
        return Ok(());
    };
    let mut inner = Many::new(alloc);
    inner.push(text_part(
        alloc,
        cause_words::cause_namespace(),
        cause_words::kind(),
        kind.as_str(),
    )?)?;
    push_names(alloc, names, &mut inner)?;
    parts.push(element(
        alloc,
        cause_words::cause_namespace(),
        cause_words::cause(),
        inner,
    )?)?;
    Ok(())
}

// What stands in error-info.
fn inner(alloc: Global, kind: CauseKind, names: &Many<Text>) -> Result<Many<Part>, Memory>
    ensures { IfOk result (λ it. it
        ≡ map reply.info_part (rows.standard_info kind names.now)
        ++ reply.cause_parts (rows.own_info kind names.now)) }
{
    let mut parts = Many::new(alloc);
    push_standard(alloc, kind, names, &mut parts)?;
    push_cause(alloc, own_info(alloc, kind, names)?.as_slice(), &mut parts)?;
    Ok(parts)
}

/// Adds error-info, if it holds anything.
pub(crate) fn push_info(
    alloc: Global,
    kind: CauseKind,
    names: &Many<Text>,
    parts: &mut Many<Part>,
) -> Result<(), Memory>
    ensures { IfOk result (λ _. parts.new ≡ parts.old ++ reply.info_parts kind names.now) }
{
    let inner = inner(alloc, kind, names)?;
    if !inner.is_empty() {
        parts.push(base_part(alloc, reply_words::error_info(), inner)?)?;
    }
    Ok(())
}
