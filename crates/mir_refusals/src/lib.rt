//! Texts that are refused, each with its code and its line, shown on the definition of refusals (`IsReadFault`, `specs/ReadFaults.antt` of
//! `mir_text`): one for each of the codes S06, S08 and S09. The texts stand in `specs/Texts.antt`. The functions here run nothing; their
//! contracts are the facts.
#![tactic(auto)]

ghost use Rattle.mir_text.specs.ReadFaults.{IsReadFault};
ghost use Rattle.mir_refusals.specs.Texts.{deep_type, unfit_number, large_local};

/// A type stands in at most 64 others. The line is that of the item.
pub fn deep_type_is_refused()
    ensures { IsReadFault deep_type 6 2 }
{}

/// A constant fits its type. The line is that of the statement.
pub fn unfit_number_is_refused()
    ensures { IsReadFault unfit_number 8 3 }
{}

/// The number of a local is at most 4294967295.
pub fn large_local_is_refused()
    ensures { IsReadFault large_local 9 2 }
{}
