ghost use Rattle.std.specs.Prelude.{◌≡◌};
ghost use Rattle.mir_syntax.specs.Parts.{has_deref, is_direct};

use crate::{Place, Proj};

impl Place {
    /// Whether the place has a dereference.
    #[tactic(auto, using(crate::proofs::Parts::deref_other))]
    pub fn has_deref(&self) -> bool
        ensures { result ≡ has_deref self.now.proj }
    {
        for proj in self.proj.as_slice() {
            if let Proj::Deref = proj {
                return true;
            }
        }
        false
    }

    /// Whether the place has no dereference and no downcast.
    pub fn is_direct(&self) -> bool
        ensures { result ≡ is_direct self.now.proj }
    {
        for proj in self.proj.as_slice() {
            match proj {
                Proj::Field(_) => {}
                Proj::Downcast(_) | Proj::Deref => return false,
            }
        }
        true
    }
}
