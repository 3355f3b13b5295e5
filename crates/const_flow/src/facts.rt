ghost use Rattle.std.specs.Prelude.{◌≡◌, [], ◌∷◌, OnOk, OnErr, option_map};
ghost use Rattle.mir_syntax.specs.declared.body.Proj.TheVariants.{Field};
ghost use Rattle.mir_syntax.specs.Tree.{trees_of};
ghost use Rattle.mir_syntax.specs.Crate.{rvalue_of, stmt_of};
ghost use Rattle.const_flow.specs.Facts.{known, value_known, after_stmt};
ghost use Rattle.const_flow.specs.Cells.{told};
ghost use Rattle.const_flow.specs.Sights.{text_of};

use crate::cell::Known;
use crate::effects::Walk;
use crate::places::known;
use crate::sight::Sight;
use mir_syntax::{Body, Operand, OutOfMemory, Program, Rvalue, Stmt};
use place_map::PathMap;
use std::alloc::Global;
use std::marker::Model;

/// What is known at a point of a body, carried from statement to statement.
#[derive(Drop)]
pub struct Facts<'a> {
    pub(crate) alloc: Global,
    pub(crate) paths: &'a PathMap,
    pub(crate) walk: Option<Walk>,
}

// Contracts see the facts of the definition, or none in a block that is unreached.
impl<'a> Model for Facts<'a> {
    ghost use Rattle.const_flow.specs.ConstAt.{Reached};
    ghost use Rattle.const_flow.specs.Sights.{walked, Follows};

    ghost Value = { Reached };

    ghost view = { λ facts. walked facts.paths.now facts.walk };

    ghost invariant = { λ facts. Follows facts.paths.now facts.walk };
}

impl Facts<'_> {
    /// Makes of what is known before a statement what is known after it. In a block that is unreached nothing changes. After an `Err` the facts
    /// are as they were.
    ///
    /// # Errors
    ///
    /// `OutOfMemory`.
    pub fn pass(&mut self, program: &Program, body: &Body, stmt: &Stmt) -> Result<(), OutOfMemory>
        ensures ok { OnOk result (self.new ≡ option_map (after_stmt (text_of program.now body.now) (stmt_of (trees_of program.now.types) stmt.now)) self.old) }
        ensures err { OnErr result (self.new ≡ self.old) }
    {
        let Some(walk) = &mut self.walk else {
            return Ok(());
        };
        let sight = Sight {
            program,
            body,
            paths: self.paths,
        };
        walk.pass(self.alloc, sight, stmt)
    }

    /// What is known of an operand.
    pub fn operand(&self, operand: &Operand) -> Known
        ensures { result ≡ told (option_map (λ fs. known fs operand.now) self.now) }
    {
        match &self.walk {
            Some(walk) => Known::of(known(self.paths, walk.cells.as_slice(), operand)),
            None => Known::Unreached,
        }
    }

    /// What is known of the value of an rvalue, where it is a scalar.
    pub fn scalar(&self, program: &Program, body: &Body, rvalue: &Rvalue) -> Known
        ensures { result ≡ told (option_map (λ fs. value_known (text_of program.now body.now) fs (rvalue_of (trees_of program.now.types) rvalue.now) []) self.now) }
    {
        let Some(walk) = &self.walk else {
            return Known::Unreached;
        };
        let sight = Sight {
            program,
            body,
            paths: self.paths,
        };
        Known::of(sight.scalar(walk.cells.as_slice(), rvalue))
    }

    /// What is known of both parts of the value of a `WithOverflow` rvalue.
    pub fn pair(&self, program: &Program, body: &Body, rvalue: &Rvalue) -> (Known, Known)
        ensures first { result.0 ≡ told (option_map (λ fs. value_known (text_of program.now body.now) fs (rvalue_of (trees_of program.now.types) rvalue.now) (Field 0 ∷ [])) self.now) }
        ensures second { result.1 ≡ told (option_map (λ fs. value_known (text_of program.now body.now) fs (rvalue_of (trees_of program.now.types) rvalue.now) (Field 1 ∷ [])) self.now) }
    {
        let Some(walk) = &self.walk else {
            return (Known::Unreached, Known::Unreached);
        };
        let sight = Sight {
            program,
            body,
            paths: self.paths,
        };
        let (first, second) = sight.pair(walk.cells.as_slice(), rvalue);
        (Known::of(first), Known::of(second))
    }
}
