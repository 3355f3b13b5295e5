/// The kinds of a crate's queries, in the order of their numbers. Each is asked of a function.
#[derive(Clone, Copy, Debug, PartialEq, Eq)]
pub enum Kind {
    /// The body as it was read.
    Built,
    /// Whether the body as it was read has no call, no drop, no assert and no cycle of blocks.
    Qualif,
    /// The body with its control flow cleaned.
    Prom,
    /// Whom that body calls, or may run by a drop.
    Callees,
    /// What that body costs.
    Cost,
    /// What chains of calls lead to.
    Reach,
    /// The body with its drops elaborated.
    Elab,
    /// The body after all steps.
    Opt,
}
