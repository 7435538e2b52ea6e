//! The schema: data nodes, choices, types, modules and patterns, each named by its number from 0.
ghost use Rattle.std.specs.Prelude.{◌≡◌, ◌<◌, [], ◌∷◌, ◌++◌, length, slice_get, slice_index_or, slice_set, All, IfSome, IfOk, OnOk, OnErr};
ghost use Rattle.std.specs.Option.{option_copied};
ghost use Rattle.nc_schema.specs.Children.{IsFirstChild, child_number, IsAbove, HasLowerParents, HasRoom};
ghost use Rattle.nc_patterns.specs.Admits.{admits, admits_each};
ghost use Rattle.nc_patterns.specs.Makers.{HasCause};
ghost use Rattle.nc_patterns.specs.Reading.{IsPattern};
ghost use Rattle.nc_patterns.specs.Translation.{anchored};
ghost use Rattle.nc_patterns.specs.declared.fault.PatternFault.TheVariants.{Refused as PatternRefused};
ghost use Rattle.nc_schema.specs.Tables.{no_tables, NamesPatterns};

use crate::nodes::Nodes;
use crate::{Choice, Node, ValueType};
use nc_names::{Many, Memory, Module, QName};
use nc_patterns::{Built, Maker, NoMemory, PatternFault};
use std::alloc::Global;
use std::marker::Model;

/// A schema, which contracts see as its five lists: nodes, choices, types, modules and the texts of
/// patterns. Its types name no other patterns.
#[derive(Drop)]
pub struct Schema {
    nodes: Nodes,
    choices: Many<Choice>,
    types: Many<ValueType>,
    modules: Many<Module>,
    built: Built,
}

impl Model for Schema {
    ghost use Rattle.std.specs.Prelude.{All, length};
    ghost use Rattle.nc_schema.specs.Tables.{Tables, NamesPatterns};

    ghost Value = { Tables };

    ghost view = { λ s. record {
      nodes = s.nodes;
      choices = s.choices;
      types = s.types;
      modules = s.modules;
      patterns = s.built;
    } };

    ghost invariant = { λ s. All (NamesPatterns (length s.built)) s.types };
}

impl Schema {
    /// The data node of a number, or `None` past the last.
    pub fn node(&self, number: u32) -> Option<&Node>
        ensures { option_copied result ≡ slice_get self.now.nodes number }
    {
        self.nodes.get(number)
    }

    /// The choice of a number, or `None` past the last.
    pub fn choice(&self, number: u32) -> Option<&Choice>
        ensures { option_copied result ≡ slice_get self.now.choices number }
    {
        self.choices.get(number as usize)
    }

    /// The module of a number, or `None` past the last.
    pub fn module(&self, number: u32) -> Option<&Module>
        ensures { option_copied result ≡ slice_get self.now.modules number }
    {
        self.modules.get(number as usize)
    }

    /// The modules by their numbers.
    pub fn modules(&self) -> &[Module]
        ensures { result.now ≡ self.now.modules }
    {
        self.modules.as_slice()
    }

    /// The choices by their numbers.
    pub fn choices(&self) -> &[Choice]
        ensures { result.now ≡ self.now.choices }
    {
        self.choices.as_slice()
    }

    /// The types by their numbers. The schema has the patterns that they name.
    pub fn types(&self) -> &[ValueType]
        ensures types { result.now ≡ self.now.types }
        ensures patterns { All (NamesPatterns (length self.now.patterns)) result.now }
    {
        self.types.as_slice()
    }

    /// The type of a number, or `None` past the last. The schema has the patterns that it names.
    pub fn value_type(&self, number: u32) -> Option<&ValueType>
        ensures found { option_copied result ≡ slice_get self.now.types number }
        ensures patterns { IfSome (option_copied result) (NamesPatterns (length self.now.patterns)) }
    {
        self.types.get(number as usize)
    }

    /// The number of the first data node of that name in that parent, or at the top where `parent`
    /// is `None`; `None` where there is no such node.
    pub fn child(&self, parent: Option<u32>, name: &QName) -> Option<u32>
        ensures first { IsFirstChild self.now.nodes parent name.now result }
        ensures number { result ≡ child_number self.now parent name.now }
    {
        self.nodes.child(parent, name)
    }

    /// How many data nodes there are. Each node's parent has a lower number than the node.
    pub fn nodes(&self) -> u32
        ensures number { result ≡ length self.now.nodes }
        ensures lower { HasLowerParents self.now.nodes }
    {
        self.nodes.len()
    }

    /// A schema without anything. It takes no memory until it grows.
    pub fn new(alloc: Global) -> Schema
        ensures { result ≡ no_tables }
    {
        Schema {
            nodes: Nodes::new(alloc),
            choices: Many::new(alloc),
            types: Many::new(alloc),
            modules: Many::new(alloc),
            built: Built::new(alloc),
        }
    }

    /// Adds a module and answers its number. With it there are fewer than 2^32.
    pub fn add_module(&mut self, added: Module) -> Result<u32, Memory>
        requires { HasRoom self.old.modules }
        ensures number { IfOk result (λ number. number ≡ length self.old.modules) }
        ensures ok { OnOk result (self.new ≡ record self.old { modules = self.old.modules ++ added ∷ [] }) }
        ensures err { OnErr result (self.new ≡ self.old) }
    {
        let number = self.modules.len() as u32;
        self.modules.push(added)?;
        Ok(number)
    }

    /// Adds a choice and answers its number. With it there are fewer than 2^32.
    pub fn add_choice(&mut self, choice: Choice) -> Result<u32, Memory>
        requires { HasRoom self.old.choices }
        ensures number { IfOk result (λ number. number ≡ length self.old.choices) }
        ensures ok { OnOk result (self.new ≡ record self.old { choices = self.old.choices ++ choice ∷ [] }) }
        ensures err { OnErr result (self.new ≡ self.old) }
    {
        let number = self.choices.len() as u32;
        self.choices.push(choice)?;
        Ok(number)
    }

    /// Adds a type, whose patterns were added before, and answers its number. With it there are
    /// fewer than 2^32.
    pub fn add_type(&mut self, value_type: ValueType) -> Result<u32, Memory>
        requires room { HasRoom self.old.types }
        requires patterns { NamesPatterns (length self.old.patterns) value_type }
        ensures number { IfOk result (λ number. number ≡ length self.old.types) }
        ensures ok { OnOk result (self.new ≡ record self.old { types = self.old.types ++ value_type ∷ [] }) }
        ensures err { OnErr result (self.new ≡ self.old) }
    {
        let number = self.types.len() as u32;
        self.types.push(value_type)?;
        Ok(number)
    }

    /// Adds a data node, whose parent has a lower number, and answers its number. With it there are
    /// fewer than 2^32.
    pub fn add_node(&mut self, node: Node) -> Result<u32, Memory>
        requires room { HasRoom self.old.nodes }
        requires above { IsAbove node.parent (length self.old.nodes) }
        ensures number { IfOk result (λ number. number ≡ length self.old.nodes) }
        ensures ok { OnOk result (self.new ≡ record self.old { nodes = self.old.nodes ++ node ∷ [] }) }
        ensures err { OnErr result (self.new ≡ self.old) }
    {
        let number = self.nodes.len();
        self.nodes.push(node)?;
        Ok(number)
    }

    /// Puts a data node, whose parent has a lower number, in the place of another. It takes no
    /// memory.
    pub fn set_node(&mut self, number: u32, node: Node)
        requires given { number < length self.old.nodes }
        requires above { IsAbove node.parent number }
        ensures { self.new ≡ record self.old { nodes = slice_set self.old.nodes number node } }
    {
        self.nodes.set(number, node);
    }

    /// Puts a type, whose patterns were added before, in the place of another. It takes no memory.
    pub fn set_type(&mut self, number: u32, value_type: ValueType)
        requires given { number < length self.old.types }
        requires patterns { NamesPatterns (length self.old.patterns) value_type }
        ensures { self.new ≡ record self.old { types = slice_set self.old.types number value_type } }
    {
        self.types.set(number as usize, value_type);
    }

    /// Adds a pattern that can be read (RFC 7950 9.4.5), and answers its number.
    ///
    /// `Refused` comes only where the maker's count of refusals rises, and the last text that it
    /// refused is then the pattern's expression. `Memory` comes also where no number is left.
    pub fn add_pattern<M: Maker>(
        &mut self,
        maker: &mut M,
        pattern: &str,
    ) -> Result<u32, PatternFault>
        requires { IsPattern pattern.now }
        ensures number { IfOk result (λ number. number ≡ length self.old.patterns) }
        ensures ok { OnOk result (self.new
            ≡ record self.old { patterns = self.old.patterns ++ pattern.now ∷ [] }) }
        ensures err { OnErr result (self.new ≡ self.old) }
        ensures cause { HasCause (anchored pattern.now) PatternRefused (M.refusals maker.old) (M.refusals
            maker.new) (M.last_refused maker.old) (M.last_refused maker.new) result }
    {
        self.built.add(maker, pattern)
    }

    /// Whether the pattern of that number admits a text.
    pub fn admits(&self, number: u32, text: &str) -> Result<bool, NoMemory>
        requires { number < length self.now.patterns }
        ensures { IfOk result (λ found. found
            ≡ admits (slice_index_or self.now.patterns number []) text.now) }
    {
        self.built.admits(number, text)
    }

    /// Whether each pattern that a type of the schema names by these numbers admits a text.
    pub fn admits_each(&self, numbers: &[u32], text: &str) -> Result<bool, Memory>
        requires { All (λ number. number < length self.now.patterns) numbers.now }
        ensures { IfOk result (λ found. found ≡ admits_each self.now.patterns numbers.now text.now) }
    {
        self.built.admits_each(numbers, text).map_err(|_| Memory)
    }
}
