ghost use Rattle.std.specs.Prelude.{◌≡◌, ◌∷◌, [], None, option_map};
ghost use Rattle.mir_text.specs.NameFaults.{on_line, unless};
ghost use Rattle.mir_resolve.specs.Faults.{noted};

use std::marker::Model;

/// A fault of the names of a file: its code, 10 to 15, and its line.
#[derive(Clone, Copy, Debug, Drop, PartialEq, Eq)]
pub struct NameFault {
    pub code: u8,
    pub line: u32,
}

/// The first fault of those that were noted: that of the least line, and there that of the least code.
#[derive(Debug, Drop)]
pub struct Noted {
    first: Option<NameFault>,
}

impl Model for Noted {
    ghost use Rattle.std.specs.Prelude.{Option, option_map};
    ghost use Rattle.mir_text.specs.NameFaults.{Fault};

    ghost Value = { Option Fault };

    ghost view = { λ n. option_map (λ f. (f.line, f.code)) n.first };
}

impl Noted {
    /// No fault is noted.
    pub fn new() -> Noted
        ensures { result ≡ None }
    {
        Noted { first: None }
    }

    /// The first of the faults that were noted, if any was.
    pub fn first(&self) -> Option<NameFault>
        ensures { option_map (λ f. (f.line, f.code)) result ≡ self.now }
    {
        self.first
    }

    #[tactic(auto, unfolding(crate::specs::Faults::noted))]
    fn note(&mut self, line: u32, code: u8)
        ensures { self.new ≡ noted self.old ((line, code) ∷ []) }
    {
        let comes_first = match self.first {
            Some(kept) => !(kept.line < line || (kept.line == line && kept.code < code)),
            None => true,
        };
        if comes_first {
            self.first = Some(NameFault { code, line });
        }
    }

    /// Notes a code on a line, where something isn't so.
    #[tactic(auto, unfolding(crate::specs::Faults::noted))]
    pub fn note_unless(&mut self, holds: bool, line: u32, code: u8)
        ensures { self.new ≡ noted self.old (on_line line (unless holds code)) }
    {
        if !holds {
            self.note(line, code);
        }
    }
}
