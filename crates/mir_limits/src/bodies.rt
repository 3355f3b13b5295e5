ghost use Rattle.std.specs.Prelude.{◌≡◌, ℕ, ◌+◌, ◌*◌, ◌<◌, ◌≤◌, IsTrue, List, Some, nat_lt, map, length, slice_get, option_map, count_by};
ghost use Rattle.mir_syntax.specs.declared.body.Function.{Function as FunctionData};
ghost use Rattle.mir_syntax.specs.Tree.{Tree, at_id, trees_of};
ghost use Rattle.mir_syntax.specs.Ids.{BodyInTable};
ghost use Rattle.mir_syntax.specs.Crate.{crate_of, block_of, body_of};
ghost use Rattle.mir_syntax.specs.Shapes.{shapes_of};
ghost use Rattle.mir_text.specs.NameFaults.{first_fault};
ghost use Rattle.mir_rules.specs.Formed.{term_formed, body_formed};
ghost use Rattle.mir_rules.specs.Broken.{gather};
ghost use Rattle.mir_rules.specs.Faults.{by_code};
ghost use Rattle.mir_rules.specs.Limits.{most_in_body, term_weight, body_weight, is_call, ends_in_call, blocks_count, locals_count, count_passed};
ghost use Rattle.type_sizes.specs.UpTo.{Tells};
ghost use Rattle.mir_limits.specs.Answer.{at_code};

use crate::passed::earlier;
use crate::search::Search;
use mir_syntax::{Block, Body, Term};
use type_sizes::drop_weight;

/// The first line of a body that has too much of one kind.
#[derive(Clone, Copy, Debug, Drop)]
pub struct BodyLines {
    pub blocks: Option<u32>,
    pub locals: Option<u32>,
}

/// Of which kind a body has too much.
#[derive(Clone, Copy, Debug, Drop)]
pub struct TooMany {
    pub blocks: bool,
    pub locals: bool,
}

fn is_call(term: &Term) -> bool
    ensures { result ≡ is_call term.now }
{
    matches!(term, Term::Call(..))
}

/// How many of the blocks end in a call.
fn calls(blocks: &[Block]) -> usize
    ensures few { result ≤ length blocks.now }
    ensures counted { (trees : List Tree) → result ≡ count_by ends_in_call (map (block_of trees) blocks.now) }
{
    let mut found = 0;
    let mut rest = blocks;
    'walk: while let [block, others @ ..] = rest {
        if is_call(&block.term) {
            found += 1;
        }
        rest = others;
    }
    found
}

/// The sum, up to one above the limit.
fn add(total: u32, weight: u32) -> u32
    requires total { total ≤ 10001 }
    requires weight { weight ≤ 10001 }
    ensures { Tells 10001 result (total + weight) }
{
    let sum = total + weight;
    if 10_001 < sum { 10_001 } else { sum }
}

/// Whether blocks and calls, or locals, are too many beside four for each unit of drop weight.
fn is_too_many(parts: usize, calls: usize, weight: u32) -> bool
    requires few { calls ≤ parts }
    requires bounded { weight ≤ 10001 }
    ensures { (n : ℕ) → Tells 10001 weight n → result ≡ nat_lt 10000 (parts + calls + 4 * n) }
{
    10_000 < parts || 10_000 < parts + calls + 4 * weight as usize
}

impl Search<'_> {
    /// The drop weight of what a terminator drops, up to 10,001.
    fn term_weight(&self, body: &Body, term: &Term) -> u32
        requires in_table { BodyInTable self.now.program.now.types body.now }
        requires formed { IsTrue (term_formed (crate_of self.now.program.now) (body_of (trees_of self.now.program.now.types) body.now) term.now) }
        ensures { Tells 10001 result (term_weight (shapes_of (crate_of self.now.program.now)) (map (at_id (trees_of self.now.program.now.types)) body.now.locals) term.now) }
    {
        let Term::Drop(place, _) = term else {
            return 0;
        };
        match self.program.place_ty(body, place) {
            Some(id) => drop_weight(self.program, self.sizes, id),
            None => 0,
        }
    }

    /// The drop weight of all that a body drops, up to 10,001.
    fn body_weight(&self, body: &Body) -> u32
        requires in_table { BodyInTable self.now.program.now.types body.now }
        requires formed { IsTrue (body_formed (crate_of self.now.program.now) (body_of (trees_of self.now.program.now.types) body.now)) }
        ensures { Tells 10001 result (body_weight (shapes_of (crate_of self.now.program.now)) (body_of (trees_of self.now.program.now.types) body.now)) }
    {
        let mut total = 0;
        let mut rest = body.blocks.as_slice();
        'walk: while let [block, others @ ..] = rest {
            total = add(total, self.term_weight(body, &block.term));
            rest = others;
        }
        total
    }

    fn too_many(&self, at: usize) -> TooMany
        requires there { at < length self.now.program.now.functions }
        ensures blocks { (function : FunctionData) → slice_get self.now.program.now.functions at ≡ Some function
            → result.blocks ≡ nat_lt most_in_body (blocks_count (shapes_of (crate_of self.now.program.now)) (body_of (trees_of self.now.program.now.types) function.body)) }
        ensures locals { (function : FunctionData) → slice_get self.now.program.now.functions at ≡ Some function
            → result.locals ≡ nat_lt most_in_body (locals_count (shapes_of (crate_of self.now.program.now)) (body_of (trees_of self.now.program.now.types) function.body)) }
    {
        let body = &self.program.functions.as_slice()[at].body;
        let weight = self.body_weight(body);
        let blocks = body.blocks.as_slice();
        TooMany {
            blocks: is_too_many(blocks.len(), calls(blocks), weight),
            locals: is_too_many(body.locals.len(), 0, weight),
        }
    }

    /// The first line of a body with too many blocks and calls, and that of one with too many locals.
    pub fn bodies_lines(&self) -> BodyLines
        ensures blocks { option_map (at_code 4) result.blocks ≡ first_fault (map (by_code self.now.lines.now) (gather (count_passed 4 (blocks_count (shapes_of (crate_of self.now.program.now)))) 0 (crate_of self.now.program.now).functions)) }
        ensures locals { option_map (at_code 5) result.locals ≡ first_fault (map (by_code self.now.lines.now) (gather (count_passed 5 (locals_count (shapes_of (crate_of self.now.program.now)))) 0 (crate_of self.now.program.now).functions)) }
    {
        let mut blocks = None;
        let mut locals = None;
        for at in 0..self.program.functions.len() {
            let many = self.too_many(at);
            let line = self.lines.functions.as_slice()[at].head;
            blocks = earlier(blocks, many.blocks.then_some(line));
            locals = earlier(locals, many.locals.then_some(line));
        }
        BodyLines { blocks, locals }
    }
}
