ghost use Rattle.std.specs.Prelude.{◌≡◌, ◌<◌, suc, [], map, take, length, IfOk};
ghost use Rattle.std.specs.List.{All};
ghost use Rattle.mir_syntax.specs.declared.body.Function.{Function};
ghost use Rattle.pass_order.specs.Programs.{header_body as body_alone, header_function as function_alone, HasHeader};

use mir_syntax::{Block, Body, Function, List, OutOfMemory, Term};
use std::alloc::Global;

/// A body's header with one block, which is never run.
fn header_body(alloc: Global, body: &Body) -> Result<Body, OutOfMemory>
    requires { body.now.args < length body.now.locals }
    ensures { IfOk result (λ header. header ≡ body_alone body.now) }
{
    let mut locals = List::new(alloc);
    locals.extend(&body.locals.as_slice()[..=body.args as usize])?;
    let mut blocks = List::new(alloc);
    blocks.push(Block {
        stmts: List::new(alloc),
        term: Term::Unreachable,
    })?;
    Ok(Body {
        args: body.args,
        locals,
        blocks,
    })
}

fn header_function(alloc: Global, function: &Function) -> Result<Function, OutOfMemory>
    requires { HasHeader function.now }
    ensures { IfOk result (λ header. header ≡ function_alone function.now) }
{
    Ok(Function {
        path: List::new(alloc),
        inline: function.inline,
        is_drop: function.is_drop,
        body: header_body(alloc, &function.body)?,
    })
}

/// The headers of functions, so that a program is seen as before while its bodies are worked on.
pub(crate) fn header_functions(
    alloc: Global,
    functions: &[Function],
) -> Result<List<Function>, OutOfMemory>
    requires { All HasHeader functions.now }
    ensures { IfOk result (λ headers. headers ≡ map function_alone functions.now) }
{
    let mut headers = List::with_capacity(alloc, functions.len())?;
    for function in functions {
        headers.push(header_function(alloc, function)?)?;
    }
    Ok(headers)
}
