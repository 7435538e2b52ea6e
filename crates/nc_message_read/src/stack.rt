//! The elements that are open, and which tokens fit among them.
ghost use Rattle.std.specs.Prelude.{◌≡◌, true, false, None, Some, Ok, Err, IfOk, OnOk, MatchOption, length};
ghost use Rattle.std.specs.List.{list_all};
ghost use Rattle.nc_names.specs.Signs as signs;
ghost use Rattle.nc_message_read.specs.inner.Reads as reads;
ghost use Rattle.nc_message.specs.Texts as texts;
ghost use Rattle.nc_message_read.specs.inner.State.{state_of};
ghost use Rattle.nc_message_read.specs.inner.Tokens.{token_of};

use crate::known::Known;
use crate::marks::Marks;
use crate::open::Open;
use crate::scope::Scope;
use crate::start::{has_unbound, opened};
use crate::text::{is_allowed, section_of, text_of};
use crate::written::{Name, Tag, Token};
use nc_message::{Elem, Why};
use nc_names::{Copies, ELEMENT_DEPTH, Many, Memory, Shared, Text, is_white};
use std::alloc::Global;

/// The elements that are open, the nearest last, and the root where it has ended.
#[derive(Drop)]
pub(crate) struct Stack {
    alloc: Global,
    open: Many<Open>,
    root: Option<Elem>,
    fresh: bool,
    known: Known,
    marks: Option<Shared<Marks>>,
}

impl Stack {
    /// Before the first token of a message whose long namespaces have these numbers, if it declares any.
    pub(crate) fn new(alloc: Global, marks: Option<Shared<Marks>>) -> Stack
        ensures { state_of result ≡ reads.begin }
    {
        Stack {
            alloc,
            open: Many::new(alloc),
            root: None,
            fresh: true,
            known: Known::new(alloc),
            marks,
        }
    }

    /// The bindings in force where the next child would stand.
    fn scope(&self) -> Result<Scope, Memory>
        ensures { IfOk result (λ it. it ≡ reads.bounds_in (state_of self.now).above) }
    {
        match self.open.as_slice().last() {
            Some(nearest) => nearest.bounds.copy(),
            None => Ok(Scope::new(self.marks.copy()?)),
        }
    }

    /// Puts an element that has ended into its parent, or makes it the root.
    fn close(&mut self, elem: Elem) -> Result<(), Memory>
        ensures { OnOk result (state_of self.new ≡ reads.closed elem (state_of self.old).above) }
    {
        self.fresh = false;
        match self.open.pop() {
            None => {
                self.root = Some(elem);
            }
            Some(parent) => {
                self.open.push(parent.add_child(elem)?)?;
                self.root = None;
            }
        }
        Ok(())
    }

    /// Opens an element, or puts it into its parent where its tag closes it too.
    fn enter(&mut self, opened: Open, alone: bool) -> Result<(), Memory>
        ensures { OnOk result (state_of self.new ≡ reads.entered opened alone (state_of self.old).above) }
    {
        if alone {
            return self.close(opened.close()?);
        }
        self.open.push(opened)?;
        self.root = None;
        self.fresh = false;
        Ok(())
    }

    /// Takes a start tag. The answer is why it does not fit.
    fn start(&mut self, tag: &Tag<'_>) -> Result<Option<Why>, Memory>
        ensures { IfOk result (λ why. MatchOption why
            (reads.start (state_of self.old) tag.now ≡ Ok (state_of self.new))
            (λ why. reads.start (state_of self.old) tag.now ≡ Err why)) }
    {
        if self.open.len() >= ELEMENT_DEPTH {
            return Ok(Some(Why::Depth));
        }
        let outer = self.scope()?;
        if has_unbound(self.alloc, outer.bounds(), tag)? {
            return Ok(Some(Why::UnboundPrefix));
        }
        if self.root.is_some() {
            return Ok(Some(Why::NotWellFormed));
        }
        match opened(self.alloc, &mut self.known, &outer, tag)? {
            None => Ok(Some(Why::NotWellFormed)),
            Some(open) => {
                self.enter(open, tag.alone)?;
                Ok(None)
            }
        }
    }

    /// Takes an end tag, where it fits.
    fn end(&mut self, name: &Name<'_>) -> Result<Option<()>, Memory>
        ensures { IfOk result (λ done. MatchOption done
            (reads.end (state_of self.old).above name.now ≡ None)
            (λ _. reads.end (state_of self.old).above name.now ≡ Some (state_of self.new))) }
    {
        let Some(open) = self.open.pop() else {
            return Ok(None);
        };
        if !open.ends(name) {
            return Ok(None);
        }
        self.close(open.close()?)?;
        Ok(Some(()))
    }

    /// Puts text into the nearest element, where there is one.
    fn add_text(&mut self, text: Option<Text>) -> Result<Option<()>, Memory>
        ensures { IfOk result (λ done. MatchOption done
            (reads.add_text (state_of self.old).above text ≡ None)
            (λ _. reads.add_text (state_of self.old).above text ≡ Some (state_of self.new))) }
    {
        let Some(text) = text else {
            return Ok(None);
        };
        let Some(open) = self.open.pop() else {
            return Ok(None);
        };
        self.open.push(open.add_text(text)?)?;
        self.root = None;
        self.fresh = false;
        Ok(Some(()))
    }

    /// Whether no element is open.
    fn is_outside(&self) -> bool
        ensures { result ≡ reads.is_outside (state_of self.now).above }
    {
        self.open.len() == 0
    }

    /// Puts what a run of text stands for into the nearest element.
    fn run_inside(&mut self, raw: &[u8]) -> Result<Option<()>, Memory>
        ensures { IfOk result (λ done. MatchOption done
            (reads.add_text (state_of self.old).above (texts.text_of raw.now) ≡ None)
            (λ _. reads.add_text (state_of self.old).above (texts.text_of raw.now)
            ≡ Some (state_of self.new))) }
    {
        let text = text_of(self.alloc, raw)?;
        self.add_text(text)
    }

    /// Takes a run of text, where it fits.
    fn run(&mut self, raw: &[u8]) -> Result<Option<()>, Memory>
        ensures { IfOk result (λ done. MatchOption done
            (reads.run (state_of self.old) raw.now ≡ None)
            (λ _. reads.run (state_of self.old) raw.now ≡ Some (state_of self.new))) }
    {
        if !self.is_outside() {
            return self.run_inside(raw);
        }
        if !all_white(raw) {
            return Ok(None);
        }
        Ok(Some(()))
    }

    // Takes the declaration, where it fits.
    fn declaration(&mut self) -> Option<()>
        ensures { MatchOption result
            (reads.declaration (state_of self.old) ≡ None)
            (λ _. reads.declaration (state_of self.old) ≡ Some (state_of self.new)) }
    {
        if !self.fresh {
            return None;
        }
        self.open.clear();
        self.root = None;
        self.fresh = false;
        Some(())
    }

    /// Takes a token. The answer is why it does not fit.
    pub(crate) fn take(&mut self, token: &Token<'_>) -> Result<Option<Why>, Memory>
        ensures { IfOk result (λ why. MatchOption why
            (reads.step (state_of self.old) (token_of token.now) ≡ Ok (state_of self.new))
            (λ why. reads.step (state_of self.old) (token_of token.now) ≡ Err why)) }
    {
        let done = match token {
            Token::Start(tag) => return self.start(tag),
            Token::End(name) => self.end(name)?,
            Token::Run(raw) => self.run(raw.bytes)?,
            Token::Section(raw) => {
                let text = section_of(self.alloc, raw.bytes)?;
                self.add_text(text)?
            }
            Token::Comment(raw) | Token::Instruction(raw) => remark(raw.bytes),
            Token::Declaration => self.declaration(),
        };
        match done {
            Some(()) => Ok(None),
            None => Ok(Some(Why::NotWellFormed)),
        }
    }

    /// The root, where the message ends here.
    pub(crate) fn finish(self) -> Option<Elem>
        ensures { result ≡ self.root }
    {
        self.root
    }
}

fn all_white(bytes: &[u8]) -> bool
    ensures { result ≡ list_all signs.is_white bytes.now }
{
    bytes.iter().all(|b| is_white(*b))
}

// Whether what is skipped fits.
fn remark(raw: &[u8]) -> Option<()>
    ensures { MatchOption result (texts.is_allowed raw.now ≡ false) (λ _. texts.is_allowed raw.now ≡ true) }
{
    if is_allowed(raw) {
        return Some(());
    }
    None
}
