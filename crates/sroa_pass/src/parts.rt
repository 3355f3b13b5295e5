//! The locals of fields.
ghost use Rattle.std.specs.Prelude.{◌<◌, ◌^◌};

/// The new locals of a split local: the first one, and how many.
#[derive(Clone, Copy, Debug, Drop)]
pub(crate) struct Parts {
    pub first: u32,
    pub count: u32,
    pub ghost low: { first < 2 ^ 31 },
    pub ghost few: { count < 2 ^ 31 },
}
