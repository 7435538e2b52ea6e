//! The server's hello (RFC 6241 8.1).
ghost use Rattle.std.specs.Prelude.{◌≡◌, ◌++◌, ◌∷◌, [], map, IfOk, OnOk, OnErr};
ghost use Rattle.std.specs.Fmt.{decimal};
ghost use Rattle.nc_protocol.specs.Content as content;
ghost use Rattle.nc_protocol.specs.Words.{session_id_word};
ghost use Rattle.nc_names.specs.Appending.{Appends};
ghost use Rattle.nc_session.specs.ServerHello as hellos;
ghost use Rattle.nc_session.specs.Words.{capabilities_word};
ghost use Rattle.nc_message.specs.Written.{written};
ghost use Rattle.nc_message.specs.declared.tree.Part.TheVariants.{Child};

use crate::words;
use itoa::Buffer;
use nc_frames::write_eom;
use nc_message::{Bounds, Elem, Part, Tree, write};
use nc_names::{Boxed, Bytes, Many, Memory, Module, QName, Text};
use nc_protocol::request_words;
use nc_schema::Schema;
use std::alloc::Global;

// A name of the base namespace.
fn base_name(alloc: Global, name: &str) -> Result<QName, Memory>
    ensures { IfOk result (λ it. it ≡ content.base_name name.now) }
{
    let space = Text::from_text(alloc, request_words::base_namespace())?;
    let name = Text::from_text(alloc, name)?;
    Ok(QName { space, name })
}

// An element of the base namespace.
fn base_element(alloc: Global, name: &str, parts: Many<Part>) -> Result<Elem, Memory>
    ensures { IfOk result (λ it. it ≡ hellos.base_elem name.now parts) }
{
    Ok(Elem {
        name: base_name(alloc, name)?,
        bounds: Bounds::new(),
        attrs: Many::new(alloc),
        parts,
    })
}

// An element of the base namespace round a text, as a part.
fn text_part(alloc: Global, name: &str, text: Text) -> Result<Part, Memory>
    ensures { IfOk result (λ it. it ≡ hellos.text_elem name.now text) }
{
    let mut parts = Many::new(alloc);
    parts.push(Part::Chars(text))?;
    let elem = base_element(alloc, name, parts)?;
    Ok(Part::Child(Boxed::new(alloc, elem)?))
}

fn push_revision(revision: &str, out: &mut Text) -> Result<(), Memory>
    ensures { OnOk result (out.new ≡ out.old ++ hellos.revision_part revision.now) }
{
    if revision.is_empty() {
        return Ok(());
    }
    out.push_str(words::revision_query())?;
    out.push_str(revision)
}

fn push_features(features: &[Text], out: &mut Text) -> Result<(), Memory>
    ensures { OnOk result (out.new ≡ out.old ++ hellos.features_part features.now) }
{
    let Some((first, others)) = features.split_first() else {
        return Ok(());
    };
    out.push_str(words::features_query())?;
    out.push_str(first.as_str())?;
    for feature in others {
        out.push(',')?;
        out.push_str(feature.as_str())?;
    }
    Ok(())
}

// The capability that a module is (RFC 6020 5.6.4).
fn capability_of(alloc: Global, served: &Module) -> Result<Text, Memory>
    ensures { IfOk result (λ it. it ≡ hellos.module_capability served.now) }
{
    let mut text = Text::from_text(alloc, served.space.as_str())?;
    text.push_str(words::module_query())?;
    text.push_str(served.name.as_str())?;
    push_revision(served.revision.as_str(), &mut text)?;
    push_features(served.features.as_slice(), &mut text)?;
    Ok(text)
}

// Adds a capability.
fn push_capability(alloc: Global, text: Text, parts: &mut Many<Part>) -> Result<(), Memory>
    ensures { OnOk result (parts.new ≡ parts.old ++ hellos.capability_part text ∷ []) }
{
    parts.push(text_part(alloc, words::capability(), text)?)
}

// Adds a capability that is built.
fn push_built(alloc: Global, text: &str, parts: &mut Many<Part>) -> Result<(), Memory>
    ensures { OnOk result (parts.new ≡ parts.old ++ hellos.capability_part text.now ∷ []) }
{
    push_capability(alloc, Text::from_text(alloc, text)?, parts)
}

// The capabilities that are built.
fn built(alloc: Global) -> Result<Many<Part>, Memory>
    ensures { IfOk result (λ it. it ≡ map hellos.capability_part hellos.built) }
{
    let mut parts = Many::new(alloc);
    push_built(alloc, words::base_10(), &mut parts)?;
    push_built(alloc, words::base_11(), &mut parts)?;
    push_built(alloc, words::candidate(), &mut parts)?;
    push_built(alloc, words::confirmed_commit(), &mut parts)?;
    push_built(alloc, words::rollback_on_error(), &mut parts)?;
    push_built(alloc, words::validate(), &mut parts)?;
    push_built(alloc, words::partial_lock(), &mut parts)?;
    Ok(parts)
}

// Those, and one for each module.
fn capabilities(alloc: Global, modules: &[Module]) -> Result<Many<Part>, Memory>
    ensures { IfOk result (λ it. it ≡ hellos.capability_parts modules.now) }
{
    let mut parts = built(alloc)?;
    for served in modules {
        push_capability(alloc, capability_of(alloc, served)?, &mut parts)?;
    }
    Ok(parts)
}

// The list of capabilities.
fn capabilities_part(alloc: Global, modules: &[Module]) -> Result<Part, Memory>
    ensures { IfOk result (λ it.
        it ≡ Child (hellos.base_elem capabilities_word (hellos.capability_parts modules.now))) }
{
    let parts = capabilities(alloc, modules)?;
    let elem = base_element(alloc, words::capabilities(), parts)?;
    Ok(Part::Child(Boxed::new(alloc, elem)?))
}

fn session_id(alloc: Global, session: u32) -> Result<Part, Memory>
    ensures { IfOk result (λ it. it ≡ hellos.text_elem session_id_word (decimal session)) }
{
    let mut buffer = Buffer::new();
    let number = Text::from_text(alloc, buffer.format(session))?;
    text_part(alloc, request_words::session_id(), number)
}

// The hello as a message.
fn hello_tree(alloc: Global, modules: &[Module], session: u32) -> Result<Tree, Memory>
    ensures { IfOk result (λ it. it ≡ hellos.hello_tree modules.now session) }
{
    let mut parts = Many::new(alloc);
    parts.push(capabilities_part(alloc, modules)?)?;
    parts.push(session_id(alloc, session)?)?;
    let root = base_element(alloc, words::hello(), parts)?;
    Ok(Tree { root })
}

// The hello as it is written. Its tree is let go by a call.
fn hello_bytes(alloc: Global, modules: &[Module], session: u32) -> Result<Bytes, Memory>
    ensures { IfOk result (λ it. it ≡ written (hellos.hello_tree modules.now session)) }
{
    let tree = hello_tree(alloc, modules, session)?;
    let mut text = Bytes::new(alloc);
    match write(&tree, &mut text) {
        Ok(()) => {
            drop(tree);
            Ok(text)
        }
        Err(memory) => {
            drop(tree);
            Err(memory)
        }
    }
}

/// Appends the server's hello to a session, with its mark: the versions of the protocol, the capabilities
/// that are built, and one for each module of the schema (RFC 6241 8.1; RFC 6242 4.1). `Memory` changes
/// nothing.
pub fn hello(alloc: Global, schema: &Schema, session: u32, out: &mut Bytes) -> Result<(), Memory>
    ensures ok { OnOk result (out.new ≡ out.old ++ hellos.hello_text schema.now.modules session) }
    ensures err { OnErr result (out.new ≡ out.old) }
{
    let text = hello_bytes(alloc, schema.modules(), session)?;
    write_eom(text.as_slice(), out)
}
