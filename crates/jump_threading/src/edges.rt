//! The edges that are threaded.
ghost use Rattle.std.specs.Prelude.{◌≡◌, ◌<◌, ◌^◌, None, map, length, get_or, option_map, IfOk, OnOk};
ghost use Rattle.mir_syntax.specs.Tree.{trees_of};
ghost use Rattle.mir_syntax.specs.Crate.{crate_of, body_of, stmt_of, block_of};
ghost use Rattle.mir_syntax.specs.Shapes.{shapes_of};
ghost use Rattle.const_flow.specs.Facts.{after_all};
ghost use Rattle.jump_threading.specs.Code.{text_in, trees_in, block_in, arm_told, taken_at, jump_at, is_short_switch, next_number, IsEdgeOf, StandFor};
ghost use Rattle.jump_threading.specs.Threaded as definition;

use crate::thread::Edge;
use const_flow::{ConstRows, Facts, Known, taken_arm};
use mir_syntax::{Arm, Block, Body, List, OutOfMemory, Program, Stmt, Term};
use std::alloc::Global;

/// A block of more statements isn't copied.
const MOST_COPIED: usize = 8;

/// A body has no more blocks.
const MOST_BLOCKS: usize = 10_000;

/// What a walk along a body sees.
#[derive(Clone, Copy)]
pub(crate) struct Sight<'a> {
    pub program: &'a Program,
    pub body: &'a Body,
    pub rows: &'a ConstRows,
}

/// Where a switch on what is known goes.
fn known_arm(known: Known, arms: &[Arm], other: u32) -> Option<u32>
    ensures { result ≡ arm_told known arms.now other }
{
    match known {
        Known::Num(number) => Some(taken_arm(number, arms, other)),
        Known::Unreached | Known::Nothing | Known::Many => None,
    }
}

/// Where a terminator goes that is a switch on a known number.
fn taken(facts: &Facts<'_>, term: &Term) -> Option<u32>
    ensures { result ≡ taken_at facts.now term.now }
{
    match term {
        Term::Switch(operand, arms, other) => {
            known_arm(facts.operand(operand), arms.as_slice(), *other)
        }
        _ => None,
    }
}

/// Whether the block is short and ends in a switch.
fn is_short_switch(block: &Block) -> bool
    ensures { result ≡ is_short_switch block.now }
{
    block.stmts.len() <= MOST_COPIED && matches!(block.term, Term::Switch(_, _, _))
}

/// The block to which a goto leads, where it isn't the first one.
fn goes_through(term: &Term) -> Option<u32>
    ensures { result ≡ next_number term.now }
{
    match term {
        Term::Goto(next) if *next != 0 => Some(*next),
        _ => None,
    }
}

impl Sight<'_> {
    /// Makes of what is known before statements what is known after them.
    fn walk(self, facts: &mut Facts<'_>, stmts: &[Stmt]) -> Result<(), OutOfMemory>
        ensures { OnOk result (facts.new ≡ option_map (after_all (text_in self.entry) (map (stmt_of (trees_in self.entry)) stmts.now)) facts.old) }
    {
        for stmt in stmts {
            facts.pass(self.program, self.body, stmt)?;
        }
        Ok(())
    }

    /// Where the switch at the end of the second of two blocks goes, when both are walked from the start of the first, which is given by its
    /// number too.
    fn jump(
        self,
        alloc: Global,
        from: u32,
        block: &Block,
        through: &Block,
    ) -> Result<Option<u32>, OutOfMemory>
        ensures { IfOk result (λ to. to ≡ jump_at (text_in self.entry) (get_or self.entry.rows.now from None) (block_in self.entry block.now) (block_in self.entry through.now)) }
    {
        if !is_short_switch(through) {
            return Ok(None);
        }
        let mut facts = self.rows.facts(alloc, from)?;
        self.walk(&mut facts, block.stmts.as_slice())?;
        self.walk(&mut facts, through.stmts.as_slice())?;
        Ok(taken(&facts, &through.term))
    }

    /// The edge out of a block, where it is threaded.
    fn edge(self, alloc: Global, from: u32, block: &Block) -> Result<Option<Edge>, OutOfMemory>
        ensures { IfOk result (λ edge. IsEdgeOf (map (block_in self.entry) self.entry.body.now.blocks) edge (definition.thread_of (text_in self.entry) (map (block_in self.entry) self.entry.body.now.blocks) from (block_in self.entry block.now) (get_or self.entry.rows.now from None))) }
    {
        let Some(through) = goes_through(&block.term) else {
            return Ok(None);
        };
        let Some(next) = self.body.blocks.get(through as usize) else {
            return Ok(None);
        };
        match self.jump(alloc, from, block, next)? {
            Some(to) => Ok(Some(Edge { from, through, to })),
            None => Ok(None),
        }
    }
}

/// The edges that are threaded, in the order of the blocks that they leave: as many as the body has room for.
pub(crate) fn edges(
    alloc: Global,
    program: &Program,
    body: &Body,
    rows: &ConstRows,
) -> Result<List<Edge>, OutOfMemory>
    requires { length body.now.blocks < 2 ^ 30 }
    ensures { IfOk result (λ edges. StandFor (map (block_of (trees_of program.now.types)) body.now.blocks) edges (definition.threads (shapes_of (crate_of program.now)) rows.now (body_of (trees_of program.now.types) body.now))) }
{
    let sight = Sight {
        program,
        body,
        rows,
    };
    let mut edges = List::new(alloc);
    for (from, block) in body.blocks.as_slice().iter().enumerate() {
        if let Some(edge) = sight.edge(alloc, from as u32, block)? {
            edges.push(edge)?;
        }
    }
    edges.truncate(MOST_BLOCKS.saturating_sub(body.blocks.len()));
    Ok(edges)
}
