/// A whole number as it is written on a command line or shown by a run: its sign and its size.
#[derive(Clone, Copy, Debug, Drop, PartialEq, Eq)]
pub struct Number {
    pub negative: bool,
    pub size: u128,
}
