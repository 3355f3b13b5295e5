ghost use Rattle.std.specs.Prelude.{ℕ, ◌≡◌, ◌≢◌, ◌↔◌, IsTrue, IfOk};
ghost use Rattle.flow_engine.specs.Flow.{Lawful};

use mir_syntax::OutOfMemory;
use std::alloc::Global;

/// The facts of a flow problem, their joins and their flows (data-flow analysis over a lattice, as in rustc-dev-guide, MIR dataflow).
pub trait Analysis {
    /// What is known of a block.
    type Fact: Drop;

    // The facts of this problem: those of its shape.
    ghost is_fact: { Self → Self.Fact → Type 0 };

    // The order of facts, from less to more.
    ghost below: { Self → Self.Fact → Self.Fact → Type 0 };

    // Where a block starts.
    ghost begun: { Self → ℕ → Self.Fact };

    // Two facts joined.
    ghost joined: { Self → Self.Fact → Self.Fact → Self.Fact };

    // What an edge makes of a fact.
    ghost sent: { Self → ℕ → Self.Fact → Self.Fact };

    // How high a fact is.
    ghost rank: { Self → Self.Fact → ℕ };

    // How high facts can be.
    ghost most: { Self → ℕ };

    /// The fact that a block has at least.
    fn start(&self, alloc: Global, block: u32) -> Result<Self::Fact, OutOfMemory>
        ensures { IfOk result (λ fact. fact ≡ begun self.now block) };

    /// Joins a fact to another, and tells whether that one changed. After an `Err`, `into` is some fact that can only be dropped.
    fn join(
        &self,
        alloc: Global,
        into: &mut Self::Fact,
        from: &Self::Fact,
    ) -> Result<bool, OutOfMemory>
        requires { is_fact self.now into.old × is_fact self.now from.now }
        ensures joined { IfOk result (λ changed. into.new ≡ joined self.now into.old from.now) }
        ensures changed { IfOk result (λ changed. IsTrue changed ↔ (into.new ≢ into.old)) };

    /// What the edge with this number makes of the fact of the block where it begins.
    fn flow(&self, alloc: Global, edge: usize, fact: &Self::Fact) -> Result<Self::Fact, OutOfMemory>
        requires { is_fact self.now fact.now }
        ensures { IfOk result (λ flown. flown ≡ sent self.now edge fact.now) };

    /// No chain of facts, each less than the next, has more than this many steps.
    fn height(&self) -> u64
        ensures { result ≡ most self.now };

    ghost lawful: { (a : Self) → Lawful (is_fact a) (below a) (rank a) (most a) (begun a) (joined a) (sent a) };
}
