ghost use Rattle.std.specs.Prelude.{◌≡◌, ℕ, option_map};
ghost use Rattle.mir_limits.specs.Answer.{at_code, answer_of, either};

/// A limit that is passed: its number, and the line.
#[derive(Clone, Copy, Debug, Drop)]
pub struct Passed {
    pub code: u8,
    pub line: u32,
}

/// The limit on its line.
pub fn at_code(code: u8, line: Option<u32>) -> Option<Passed>
    ensures { option_map answer_of result ≡ option_map (at_code code) line }
{
    match line {
        Some(line) => Some(Passed { code, line }),
        None => None,
    }
}

/// The first of two lines at which one limit is passed.
pub fn earlier(a: Option<u32>, b: Option<u32>) -> Option<u32>
    ensures { (code : ℕ) → option_map (at_code code) result ≡ either (option_map (at_code code) a) (option_map (at_code code) b) }
{
    match (a, b) {
        (Some(first), Some(second)) => {
            if second < first {
                Some(second)
            } else {
                Some(first)
            }
        }
        (Some(first), None) => Some(first),
        (None, second) => second,
    }
}
