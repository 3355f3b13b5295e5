ghost use Rattle.std.specs.Prelude.{◌≡◌, ℕ, List, map, IfOk};
ghost use Rattle.mir_text.specs.NameFaults.{is_among};
ghost use Rattle.mir_bodies.specs.Labels.{AreLabels, label_of};

use crate::Locals;
use mir_names::Names;
use mir_resolve::PathIndex;
use mir_syntax::OutOfMemory;
use mir_tree::BlockText;
use std::alloc::Global;
use std::collections::HashSet;

/// The labels of a function's blocks.
#[derive(Drop)]
pub struct Labels {
    pub numbers: HashSet<u32>,
}

impl Labels {
    /// The labels of these blocks.
    ///
    /// # Errors
    ///
    /// `OutOfMemory`.
    pub fn new(alloc: Global, blocks: &[BlockText]) -> Result<Labels, OutOfMemory>
        ensures { IfOk result (λ labels. AreLabels labels (map label_of blocks.now)) }
    {
        let mut numbers = HashSet::new(alloc);
        let mut left = blocks;
        'labels: while let [block, rest @ ..] = left {
            numbers.insert(block.label)?;
            left = rest;
        }
        Ok(Labels { numbers })
    }

    /// Whether a block has the label, in expected constant time.
    pub fn contains(&self, block: u32) -> bool
        ensures { (labels : List ℕ) → AreLabels self.now labels → result ≡ is_among labels block }
    {
        self.numbers.contains(&block)
    }
}

/// What the names in the bodies of a function mean: the strings of its file, the paths of structs and enums, of functions and of outside
/// functions, the locals that it declares and the labels of its blocks.
#[derive(Clone, Copy)]
pub struct Scope<'a> {
    pub strings: &'a Names,
    pub paths: &'a PathIndex,
    pub functions: &'a PathIndex,
    pub outsides: &'a PathIndex,
    pub locals: &'a Locals,
    pub labels: &'a Labels,
}
