ghost use Rattle.std.specs.Prelude.{◌≡◌, List, Option, None};
ghost use Rattle.mir_text.specs.NameFaults.{Fault, first_fault};
ghost use Rattle.mir_resolve.specs.Faults.{noted};

/// What is kept after a list of faults is the first of them, and two lists may be noted in either order.
pub fn faults_in_any_order()
    ensures first { (faults : List Fault) → noted None faults ≡ first_fault faults }
    ensures swap { (kept : Option Fault) (some others : List Fault) → noted (noted kept some) others ≡ noted (noted kept others) some }
{}
