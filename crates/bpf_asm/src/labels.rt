//! The labels of a text, each with the index of the instruction after it.

ghost use Rattle.std.specs.Prelude.{◌≡◌, ℕ, List, None, IfOk, OnOk};
ghost use Rattle.bpf_asm.specs.Drafts.{index_in, Defines};

use std::alloc::{AllocError, Global};
use std::collections::BTreeMap;

/// The labels of a text, each with the index of the instruction after it.
#[derive(Drop)]
pub(crate) struct LabelTable<'a> {
    indexes: BTreeMap<&'a [u8], u32>,
}

impl<'a> LabelTable<'a> {
    /// No labels.
    #[tactic(auto, unfolding(crate::specs::Drafts::index_in))]
    pub(crate) fn new(alloc: Global) -> LabelTable<'a>
        ensures empty { (name : List ℕ) → index_in result name ≡ None }
    {
        LabelTable {
            indexes: BTreeMap::new(alloc),
        }
    }

    /// The index of the instruction after the label with this name.
    #[tactic(auto, unfolding(crate::specs::Drafts::index_in))]
    pub(crate) fn index_of(&self, name: &[u8]) -> Option<u32>
        ensures { result ≡ index_in self.now name.now }
    {
        self.indexes.get(name).copied()
    }

    /// Gives this name this index, and returns the index that it had.
    #[tactic(auto, unfolding(crate::specs::Drafts::index_in))]
    pub(crate) fn define(&mut self, name: &'a [u8], at: u32) -> Result<Option<u32>, AllocError>
        ensures earlier { IfOk result (λ earlier. earlier ≡ index_in self.old name.now) }
        ensures set { OnOk result (Defines self.old name.now at self.new) }
    {
        Ok(self.indexes.insert(name, at)?)
    }
}
