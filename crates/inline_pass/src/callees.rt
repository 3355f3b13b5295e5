//! Which function's body is inlined for a call.
ghost use Rattle.std.specs.Prelude.{◌≡◌, ◌≢◌, ◌<◌, length, slice_get, ℕ, Bool, List as ListOf, Option as OptionOf, None, Some, option_map, option_copied, IfSome};
ghost use Rattle.mir_syntax.specs.declared.body.Block.{Block as AnyBlock};
ghost use Rattle.mir_syntax.specs.declared.body.Body.{Body as AnyBody};
ghost use Rattle.mir_syntax.specs.Tree.{Tree, trees_of};
ghost use Rattle.mir_syntax.specs.Crate.{body_of};
ghost use Rattle.inline_pass.specs.Takes.{most_cost, takes, taken_in, Inlinable, AllInlinable};
ghost use Rattle.inline_pass.specs.Code.{taken_at};

use call_graph::cost_flat;
use mir_syntax::{Block, Callee, FlatBody, FnId, Inline, Program, Term};

/// The bodies that may be inlined into a function.
pub trait CalleeBodies {
    // The body of a function, as far as it is lent.
    ghost lent: { Self → ℕ → OptionOf AnyBody };

    // Whether the body of a function is inlined more freely.
    ghost qualifies: { Self → ℕ → Bool };

    /// The body of a function that is asked for.
    fn body(&self, g: FnId) -> Option<&FlatBody>
        ensures { option_copied result ≡ lent self.now g.0 };

    /// Whether a function whose body is lent is plain enough to be inlined more freely.
    fn qualif(&self, g: FnId) -> bool
        requires { lent self.now g.0 ≢ None }
        ensures { result ≡ qualifies self.now g.0 };
}

/// What a callee may cost.
fn most_cost(large: bool, free: bool) -> u64
    ensures { result ≡ most_cost large free }
{
    match (large, free) {
        (false, true) => 100,
        (false, false) => 50,
        (true, true) => 50,
        (true, false) => 25,
    }
}

/// Whether a body is inlined into a caller that is large or isn't, by the attribute of its function and by whether that one qualifies to be
/// inlined more freely.
pub fn takes(large: bool, inline: Inline, qualifies: bool, body: &FlatBody) -> bool
    ensures { (trees : ListOf Tree) → result ≡ takes large inline qualifies (body_of trees body.now) }
{
    match inline {
        Inline::Always => true,
        Inline::Never => false,
        Inline::Hint => cost_flat(body) <= most_cost(large, true),
        Inline::Plain => cost_flat(body) <= most_cost(large, qualifies),
    }
}

/// The body that is inlined for a call of the function.
fn taken<'a, C: CalleeBodies>(
    program: &Program,
    large: bool,
    bodies: &'a C,
    g: FnId,
) -> Option<&'a FlatBody>
    ensures taken { option_map (body_of (trees_of program.now.types)) (option_copied result) ≡ taken_in program.now large (C.lent bodies.now) (C.qualifies bodies.now) g.0 }
    ensures lent { IfSome result (λ body. Some body.now ≡ C.lent bodies.now g.0) }
{
    let function = program.functions.get(g.0 as usize)?;
    let body = bodies.body(g)?;
    if takes(large, function.inline, bodies.qualif(g), body) {
        Some(body)
    } else {
        None
    }
}

/// The body that is inlined for the call that a terminator is.
fn callee_of<'a, C: CalleeBodies>(
    program: &Program,
    large: bool,
    bodies: &'a C,
    term: &Term,
) -> Option<&'a FlatBody>
    requires { AllInlinable program.now (C.lent bodies.now) }
    ensures taken { option_map (body_of (trees_of program.now.types)) (option_copied result) ≡ taken_at (taken_in program.now large (C.lent bodies.now) (C.qualifies bodies.now)) term.now }
    ensures inlinable { IfSome result (λ body. Inlinable program.now body.now) }
{
    match term {
        Term::Call(_, Callee::Local(g), _, _) => taken(program, large, bodies, *g),
        _ => None,
    }
}

/// The same for the terminator of a block.
pub(crate) fn callee_at<'a, C: CalleeBodies>(
    program: &Program,
    large: bool,
    bodies: &'a C,
    blocks: &[Block],
    block: u32,
) -> Option<&'a FlatBody>
    requires lent { AllInlinable program.now (C.lent bodies.now) }
    requires block { block < length blocks.now }
    ensures taken { (k : AnyBlock) → slice_get blocks.now block ≡ Some k → option_map (body_of (trees_of program.now.types)) (option_copied result) ≡ taken_at (taken_in program.now large (C.lent bodies.now) (C.qualifies bodies.now)) k.term }
    ensures inlinable { IfSome result (λ body. Inlinable program.now body.now) }
{
    callee_of(program, large, bodies, &blocks[block as usize].term)
}
