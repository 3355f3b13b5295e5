//! Laws of the crates that are made. The functions here run nothing; their contracts are the laws.

ghost use Rattle.std.specs.Prelude.{◌<◌, ◌≤◌, ℕ, IsTrue};
ghost use Rattle.mir_text.specs.Text.{text};
ghost use Rattle.mir_text.specs.Reads.{Reads};
ghost use Rattle.mir_rules.specs.Valid.{Valid, Within};
ghost use Rattle.mir_rules.specs.Faults.{lines_fit};
ghost use Rattle.crate_gen.specs.Made.{made_crate, made_lines};

/// A crate that is made keeps all rules, and is within the limits.
pub fn made_crates_are_valid()
    ensures valid { (start functions : ℕ) → Valid (made_crate start functions) }
    ensures within { (start functions : ℕ) → functions ≤ 10000 → Within (made_crate start functions) }
{}

/// A crate that is made is read back from its canonical text.
pub fn made_crates_are_read_back()
    ensures { (start functions : ℕ) → 0 < functions → functions ≤ 10000 → Reads (text (made_crate start functions)) (made_crate start functions) }
{}

/// The lines that come with a made crate are one for each of its parts.
pub fn made_lines_fit()
    ensures { (start functions : ℕ) → IsTrue (lines_fit (made_lines functions) (made_crate start functions)) }
{}
