ghost use Rattle.std.specs.Prelude.{◌≡◌, ◌<◌, length};
ghost use Rattle.mir_syntax.specs.Crate.{crate_of};
ghost use Rattle.call_graph.specs.Graph.{bytes_below, path_below};

use mir_syntax::{FnId, Program};

fn is_below(xs: &[u8], ys: &[u8]) -> bool
    ensures { result ≡ bytes_below xs.now ys.now }
{
    for i in 0..ys.len() {
        if i >= xs.len() {
            return true;
        }
        if xs[i] != ys[i] {
            return xs[i] < ys[i];
        }
    }
    false
}

/// Whether the path of the first function is below that of the second, byte by byte.
pub fn below(program: &Program, f: FnId, g: FnId) -> bool
    requires first { f.0 < length program.now.functions }
    requires second { g.0 < length program.now.functions }
    ensures { result ≡ path_below (crate_of program.now) f.0 g.0 }
{
    let functions = program.functions.as_slice();
    let first = functions[f.0 as usize].path.as_slice();
    let second = functions[g.0 as usize].path.as_slice();
    is_below(first, second)
}
