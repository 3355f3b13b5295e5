use std::sync::Wait;

/// Is told of each claim that is won and of each query that is published. A gate of a test may hold a worker there.
pub trait Gate: Sync {
    /// The worker has won a claim of the query.
    fn claimed<R: Wait>(&self, rt: &R, worker: u32, query: u32);

    /// The worker has published the query.
    fn published<R: Wait>(&self, rt: &R, worker: u32, query: u32);
}

/// A gate that lets every worker pass.
#[derive(Clone, Copy, Debug, Drop, PartialEq, Eq)]
pub struct OpenGate;

impl Gate for OpenGate {
    fn claimed<R: Wait>(&self, _rt: &R, _worker: u32, _query: u32) {}

    fn published<R: Wait>(&self, _rt: &R, _worker: u32, _query: u32) {}
}
