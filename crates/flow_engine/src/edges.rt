/// An edge along which facts flow, by the numbers of the blocks where it begins and ends.
#[derive(Clone, Copy, Debug, Drop, PartialEq, Eq)]
pub struct Edge {
    pub from: u32,
    pub to: u32,
}
