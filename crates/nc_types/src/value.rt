//! Values by their types: unions, leafrefs and all others (RFC 7950 9), and the text at a data node.
ghost use Rattle.std.specs.Prelude.{◌≡◌, ◌∷◌, [], true, Some, None, IfOk, IfErr, length};
ghost use Rattle.std.specs.List.{list_all};
ghost use Rattle.nc_schema.specs.Bindings.{module_bounds};
ghost use Rattle.nc_schema.specs.Tables.{NamesPatterns};
ghost use Rattle.nc_schema.specs.Values as values;
ghost use Rattle.nc_types.specs.inner.Faults.{OnNotInType};
ghost use Rattle.nc_types.specs.inner.Readings.{givers_of, in_force, types_of};

use crate::fault::TypeFault;
use crate::gives::Gives;
use crate::identity::identity_text;
use crate::paths::{instance_text, node_instance_text};
use crate::plain::plain_text;
use crate::reading::Reading;
use nc_names::{Binds, Many, Memory, Text, trimmed};
use nc_schema::{Kind, Schema, ValueType};
use std::alloc::Global;

// The numbers with one before them.
fn longer(alloc: Global, number: u32, chain: &[u32]) -> Result<Many<u32>, Memory>
    ensures { IfOk result (λ it. it ≡ number ∷ chain.now) }
{
    let mut out = Many::new(alloc);
    out.push(number)?;
    for one in chain {
        out.push(*one)?;
    }
    Ok(out)
}

/// The number of the type of a leaf or leaf-list.
pub(crate) fn type_of(schema: &Schema, number: u32) -> Option<u32>
    ensures { result ≡ values.type_of schema.now number }
{
    let node = schema.node(number)?;
    match node.kind {
        Kind::Leaf | Kind::LeafList => Some(node.kind_of_value),
        Kind::Container { .. } | Kind::List => None,
    }
}

// Whether a text that was read by the names of modules is its own canonical text. Earlier members, which do
// not admit it, then need not be asked again: in unions within unions each level would else ask twice.
fn is_settled(by_names: bool, found: &Text, text: &str) -> bool
    ensures names { result ≡ true → by_names ≡ true }
    ensures same { result ≡ true → found.now ≡ text.now }
{
    by_names && found.as_str() == text
}

impl<'a, K: Gives, B: Binds> Reading<'a, K, B> {
    /// The canonical text of a value of the type of that number: at most so many types are asked, and none
    /// of the chain.
    #[tactic(auto, using(crate::proofs::UnionLemmas::type_unknown, crate::proofs::UnionLemmas::type_spent, crate::proofs::UnionLemmas::type_again))]
    #[cycle(types)]
    pub(crate) fn type_text(
        &self,
        most: usize,
        chain: &[u32],
        number: u32,
        text: &str,
    ) -> Result<Text, TypeFault>
        ensures ok { IfOk result (λ it. types_of K.gives self.now most chain.now (in_force B.bound self.now)
            number text.now ≡ Some it) }
        ensures refused { IfErr result (λ fault. OnNotInType fault (types_of K.gives self.now most chain.now
            (in_force B.bound self.now) number text.now ≡ None)) }
    {
        if most == 0 || chain.contains(&number) {
            return Err(TypeFault::NotInType);
        }
        let Some(found) = self.schema.value_type(number) else {
            return Err(TypeFault::NotInType);
        };
        self.text_in_type(most - 1, number, chain, found, text)
    }

    // The canonical text of a value of a type, which has that number.
    #[cycle(types)]
    fn text_in_type(
        &self,
        most: usize,
        number: u32,
        chain: &[u32],
        found: &ValueType,
        text: &str,
    ) -> Result<Text, TypeFault>
        requires { NamesPatterns (length self.now.schema.now.patterns) found.now }
        ensures ok { IfOk result (λ it. values.text_in_type self.now.schema.now (givers_of K.gives self.now
            most (number ∷ chain.now)) found.now (in_force B.bound self.now) text.now ≡ Some it) }
        ensures refused { IfErr result (λ fault. OnNotInType fault (values.text_in_type self.now.schema.now
            (givers_of K.gives self.now most (number ∷ chain.now)) found.now (in_force B.bound self.now)
            text.now ≡ None)) }
    {
        let word = trimmed(text);
        match found {
            ValueType::Union { members } => {
                let asked = longer(self.alloc, number, chain)?;
                self.union_text(most, asked.as_slice(), members.as_slice(), text)
            }
            ValueType::Leafref { target, .. } => {
                let Some(of_target) = type_of(self.schema, *target) else {
                    return Err(TypeFault::NotInType);
                };
                let asked = longer(self.alloc, number, chain)?;
                self.type_text(most, asked.as_slice(), of_target, text)
            }
            ValueType::Identity { among } => {
                let scope = self.scope();
                identity_text(self.alloc, self.schema, among.as_slice(), &scope, word)
            }
            ValueType::Instance { .. } => {
                instance_text(self.keys, self.alloc, self.schema, &self.scope(), word)
            }
            ValueType::NodeInstance => {
                node_instance_text(self.keys, self.alloc, self.schema, &self.scope(), word)
            }
            _ => plain_text(self.alloc, self.schema, found, text),
        }
    }

    // The canonical text by the first member of a union that admits the text.
    #[tactic(auto, using(crate::proofs::UnionLemmas::union_next, crate::proofs::UnionLemmas::none_more, crate::proofs::UnionLemmas::union_settled, crate::proofs::UnionLemmas::union_found, crate::proofs::UnionLemmas::union_other, crate::proofs::UnionLemmas::union_none))]
    #[cycle(types)]
    fn union_text(
        &self,
        most: usize,
        chain: &[u32],
        members: &[u32],
        text: &str,
    ) -> Result<Text, TypeFault>
        ensures ok { IfOk result (λ it. values.union_text (types_of K.gives self.now most chain.now)
            (module_bounds self.now.schema.now) (in_force B.bound self.now) [] members.now text.now
            ≡ Some it) }
        ensures refused { IfErr result (λ fault. OnNotInType fault (values.union_text (types_of K.gives
            self.now most chain.now) (module_bounds self.now.schema.now) (in_force B.bound self.now) []
            members.now text.now ≡ None)) }
    {
        for (place, member) in members.iter().enumerate() {
            match self.type_text(most, chain, *member, text) {
                Ok(found) => {
                    if is_settled(self.by_names, &found, text) {
                        return Ok(found);
                    }
                    if self.agree(most, chain, &members[..place], &found)? {
                        return Ok(found);
                    }
                    return Err(TypeFault::NotInType);
                }
                Err(TypeFault::NotInType) => {}
                Err(TypeFault::Memory) => return Err(TypeFault::Memory),
            }
        }
        Err(TypeFault::NotInType)
    }

    // Whether each of the types gives this canonical text too, or none.
    #[tactic(auto, using(crate::proofs::UnionLemmas::agree_none, crate::proofs::UnionLemmas::agree_same, crate::proofs::UnionLemmas::agree_other, crate::proofs::UnionLemmas::agree_all))]
    #[cycle(types)]
    fn agree(
        &self,
        most: usize,
        chain: &[u32],
        earlier: &[u32],
        found: &Text,
    ) -> Result<bool, Memory>
        ensures { IfOk result (λ it. it ≡ list_all (λ other. values.agrees found.now (types_of K.gives
            self.now most chain.now (module_bounds self.now.schema.now) other found.now)) earlier.now) }
    {
        let canonical = Reading {
            by_names: true,
            ..*self
        };
        for other in earlier {
            match canonical.type_text(most, chain, *other, found.as_str()) {
                Ok(text) => {
                    if *found != text {
                        return Ok(false);
                    }
                }
                Err(TypeFault::NotInType) => {}
                Err(TypeFault::Memory) => return Err(Memory),
            }
        }
        Ok(true)
    }
}
