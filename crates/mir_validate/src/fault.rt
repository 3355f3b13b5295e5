ghost use Rattle.std.specs.Prelude.{◌≡◌, option_map};
ghost use Rattle.mir_validate.specs.Walk.{place_of, on_line};
ghost use Rattle.mir_limits.specs.Answer.{either};
ghost use Rattle.mir_text.specs.NameFaults.{comes_first};

/// A rule that is broken: the line, and the rule's code.
#[derive(Clone, Copy, Debug, Drop)]
pub struct Broken {
    pub line: u32,
    pub code: u8,
}

fn is_sooner(a: Broken, b: Broken) -> bool
    ensures { result ≡ comes_first (place_of a) (place_of b) }
{
    a.line < b.line || (a.line == b.line && a.code < b.code)
}

/// The one that is answered of two: on the first line, and there the one of least code.
pub fn sooner(a: Option<Broken>, b: Option<Broken>) -> Option<Broken>
    ensures { option_map place_of result ≡ either (option_map place_of a) (option_map place_of b) }
{
    match (a, b) {
        (Some(first), Some(second)) => {
            if is_sooner(second, first) {
                Some(second)
            } else {
                Some(first)
            }
        }
        (Some(first), None) => Some(first),
        (None, second) => second,
    }
}

/// The rule on its line.
pub fn on_line(line: u32, code: Option<u8>) -> Option<Broken>
    ensures { option_map place_of result ≡ on_line line code }
{
    match code {
        Some(code) => Some(Broken { line, code }),
        None => None,
    }
}
