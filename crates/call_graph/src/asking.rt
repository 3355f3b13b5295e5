//! Whom a function asks for.
ghost use Rattle.std.specs.Prelude.{◌≡◌, ◌≤◌, ◌<◌, ℕ, Bool, List as ListOf, length, true, false};
ghost use Rattle.bit_rows.specs.Rows.{row_at, stands};
ghost use Rattle.mir_syntax.specs.Crate.{Crate, crate_of};
ghost use Rattle.call_graph.specs.Graph.{Graph, IsGraph, IsComponents, component_in, graph_of, reach as reach_of, some_reaches, asks as asks_for, asks_by, weight, path_below};
ghost use Rattle.call_graph.specs.Reaching.{rows_of};

use crate::components::Components;
use crate::paths::below;
use crate::reach::Reach;
use mir_syntax::{FnId, Program};

/// Whether a function asks for another, which a callee of it reaches: its path is below that one's, or that one doesn't reach it.
/// The reach is that of the other function, finished.
pub fn asks(program: &Program, f: FnId, g: FnId, reach: &Reach) -> bool
    requires first { f.0 < length program.now.functions }
    requires second { g.0 < length program.now.functions }
    requires same_functions { length (row_at reach.now 0) ≡ length program.now.functions }
    ensures { (callees : ℕ → ListOf ℕ) → IsGraph (graph_of (crate_of program.now) callees)
        → reach.now ≡ rows_of (graph_of (crate_of program.now) callees) g.0 (reach_of (graph_of (crate_of program.now) callees) g.0)
        → some_reaches (graph_of (crate_of program.now) callees) (callees f.0) g.0 ≡ true
        → result ≡ asks_for (graph_of (crate_of program.now) callees) f.0 g.0 }
{
    below(program, f, g) || !reach.has(f)
}

/// The same, told by the components of the call graph, so that nobody has to search anew for each function.
pub fn asks_by_components(program: &Program, f: FnId, g: FnId, components: &Components) -> bool
    requires first { f.0 < length program.now.functions }
    requires second { g.0 < length program.now.functions }
    requires same_functions { length components.now ≡ length program.now.functions }
    ensures { (callees : ℕ → ListOf ℕ) → IsGraph (graph_of (crate_of program.now) callees)
        → IsComponents (graph_of (crate_of program.now) callees) (component_in components.now)
        → some_reaches (graph_of (crate_of program.now) callees) (callees f.0) g.0 ≡ true
        → result ≡ asks_for (graph_of (crate_of program.now) callees) f.0 g.0 }
{
    below(program, f, g) || !components.same(&f, &g)
}

/// Paths are in order, so a crate has a call graph as soon as each call leads to one of its functions.
pub fn paths_are_in_order()
    ensures { (C : Crate) (callees : ℕ → ListOf ℕ) → ((f g : ℕ) → stands g (callees f) ≡ true → g < length C.functions) → IsGraph (graph_of C callees) }
{}

/// Asking falls: who is asked for has the lesser weight. So along asking no way leads back, and no function asks for itself.
pub fn asking_falls()
    ensures falls { (G : Graph) → IsGraph G → (f g : ℕ) → f < G.functions → asks_for G f g ≡ true → weight G g < weight G f }
    ensures not_itself { (G : Graph) → IsGraph G → (f : ℕ) → f < G.functions → asks_for G f f ≡ false }
{}

/// Of a function that is reached by some call, the components alone tell whether it is asked for.
pub fn components_tell()
    ensures { (G : Graph) (component : ℕ → ℕ) → IsGraph G → IsComponents G component → (f g : ℕ) → f < G.functions → some_reaches G (G.callees f) g ≡ true → asks_for G f g ≡ asks_by G component f g }
{}
