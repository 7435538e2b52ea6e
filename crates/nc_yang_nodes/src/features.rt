//! Features that are on.
ghost use Rattle.std.specs.Prelude.{◌≡◌, ◌<◌, ◌||◌, ◌&&◌, not, ℕ, List, true, false, IfOk};
ghost use Rattle.nc_yang_nodes.specs.FeaturesOn.{is_on, is_key, size};

use nc_names::Memory;
use std::alloc::Global;
use std::collections::BTreeSet;

/// The features that are on (RFC 7950 7.20.1), each by the text that defines it and its name.
#[derive(Drop)]
pub struct Features<'a> {
    pub(crate) names: BTreeSet<(usize, &'a str)>,
}

impl<'a> Features<'a> {
    /// No feature. It takes no memory.
    pub fn new(alloc: Global) -> Features<'a>
        ensures { (text : ℕ) (word : List ℕ) → is_on result text word ≡ false }
    {
        Features {
            names: BTreeSet::new(alloc),
        }
    }

    /// With a feature more.
    pub fn with(self, text: usize, name: &'a str) -> Result<Features<'a>, Memory>
        ensures { IfOk result (λ it. (other : ℕ) (word : List ℕ) →
            is_on it other word ≡ (is_key text name.now other word || is_on self.entry other word)) }
    {
        let mut features = self;
        features.names.insert((text, name))?;
        Ok(features)
    }

    /// Without a feature.
    pub(crate) fn without(self, text: usize, name: &'a str) -> Features<'a>
        ensures others { (other : ℕ) (word : List ℕ) →
            is_on result other word ≡ (not (is_key text name.now other word) && is_on self.entry other word) }
        ensures fewer { is_on self.entry text name.now ≡ true → size result < size self.entry }
    {
        let mut features = self;
        let _ = features.names.remove(&(text, name));
        features
    }

    /// Whether the feature of that name in a text is on.
    pub fn is_on(&self, text: usize, name: &'a str) -> bool
        ensures { result ≡ is_on self.now text name.now }
    {
        self.names.contains(&(text, name))
    }
}
