//! A reading gives a formed crate, and lines of its shape.
//!
//! The function here runs nothing; its contract is the two laws. The crate that a text names is formed (`is_formed`, `specs/Formed.antt`
//! of `mir_rules`: each number lies in its list, and the parts are there), and the lines that are read with it fit it (`lines_fit`,
//! `specs/Faults.antt` of `mir_rules`: one for each item, local, block and statement). What a text names stands in `specs/Reads.antt` of
//! `mir_text`: its names have no fault, and from this both follow.
#![tactic(auto)]

ghost use Rattle.std.specs.Prelude.{ℕ, List, IsTrue};
ghost use Rattle.mir_syntax.specs.declared.lines.Lines.{Lines};
ghost use Rattle.mir_syntax.specs.Crate.{Crate};
ghost use Rattle.mir_text.specs.Reads.{ReadsWith};
ghost use Rattle.mir_rules.specs.Formed.{is_formed};
ghost use Rattle.mir_rules.specs.Faults.{lines_fit};

/// The crate that a text names is formed, and the lines that are read fit it.
pub fn readings_are_formed()
    ensures formed { (bytes : List ℕ) (C : Crate) (lines : Lines) → ReadsWith bytes C lines → IsTrue (is_formed C) }
    ensures fit { (bytes : List ℕ) (C : Crate) (lines : Lines) → ReadsWith bytes C lines → IsTrue (lines_fit lines C) }
{}
