/// A step on the way of one body through the pipeline: the body as it is right after that step.
#[derive(Clone, Copy, Debug, Drop, PartialEq, Eq)]
pub enum Stage {
    Built,
    Promoted,
    Elaborated,
    Spliced,
    Split,
    Folded,
    Threaded,
    Merged,
    Pruned,
    Optimised,
}
