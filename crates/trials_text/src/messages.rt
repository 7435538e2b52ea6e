//! Rows of messages: trees that are read (nc_message_read), and written (nc_message).
//!
//! An element is shown as `({namespace}name ..)`, with its attributes as `prefix:{namespace}name='value'`
//! and its parts; text as `'text'`. Where the namespace or the prefix is empty it is left out. A fault is
//! shown by its place and why.
use crate::shown::{show_bytes, show_quoted};
use nc_message::{Attr, Elem, Part, write};
use nc_message_read::{MessageFault, read_message};
use nc_names::{Bytes, Memory, QName};
use std::alloc::Global;
use std::fmt::Write;

fn show_name(out: &mut String, name: &QName) -> Result<(), Memory> {
    if !name.space.is_empty() {
        out.push('{')?;
        show_bytes(out, name.space.as_str().as_bytes())?;
        out.push('}')?;
    }
    show_bytes(out, name.name.as_str().as_bytes())
}

fn show_attr(out: &mut String, attr: &Attr) -> Result<(), Memory> {
    out.push(' ')?;
    if !attr.prefix.is_empty() {
        show_bytes(out, attr.prefix.as_str().as_bytes())?;
        out.push(':')?;
    }
    show_name(out, &attr.name)?;
    out.push('=')?;
    show_quoted(out, attr.value.as_str().as_bytes())
}

#[cycle(show)]
fn show_elem(out: &mut String, elem: &Elem) -> Result<(), Memory> {
    out.push('(')?;
    show_name(out, &elem.name)?;
    for attr in elem.attrs.as_slice() {
        show_attr(out, attr)?;
    }
    for part in elem.parts.as_slice() {
        show_part(out, part)?;
    }
    out.push(')')?;
    Ok(())
}

#[cycle(show)]
fn show_part(out: &mut String, part: &Part) -> Result<(), Memory> {
    out.push(' ')?;
    match part {
        Part::Child(elem) => show_elem(out, elem.get()),
        Part::Chars(text) => show_quoted(out, text.as_str().as_bytes()),
    }
}

/// The tree of a message, or the place and reason of its fault.
pub(crate) fn read(alloc: Global, message: &[u8]) -> Result<String, Memory> {
    let mut out = String::new(alloc);
    match read_message(alloc, message) {
        Ok(tree) => show_elem(&mut out, &tree.root)?,
        Err(MessageFault::Malformed { at, why }) => write!(out, "{at} {why:?}")?,
        Err(MessageFault::Memory) => return Err(Memory),
    }
    Ok(out)
}

/// What is written for the tree of a message, which has to be read as the same tree.
pub(crate) fn written(alloc: Global, message: &[u8]) -> Result<String, Memory> {
    let Ok(tree) = read_message(alloc, message) else {
        return read(alloc, message);
    };
    let mut text = Bytes::new(alloc);
    write(&tree, &mut text)?;
    if read(alloc, text.as_slice())? != read(alloc, message)? {
        return Ok(String::from_str(alloc, "another tree")?);
    }
    let mut out = String::new(alloc);
    show_bytes(&mut out, text.as_slice())?;
    Ok(out)
}
