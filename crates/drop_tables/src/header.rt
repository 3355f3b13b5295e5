ghost use Rattle.std.specs.Prelude.{◌≡◌, ℕ, List, ◌<◌, ◌&&◌, ◌∷◌, not, IsTrue, MatchOption, None, Some, IfSome, length, map};
ghost use Rattle.std.specs.List.{list_all};
ghost use Rattle.mir_syntax.specs.declared.types.TyId.{TyId as TyIdData};
ghost use Rattle.mir_syntax.specs.Tree.{at_id, trees_of};
ghost use Rattle.mir_syntax.specs.Tree as tree;
ghost use Rattle.mir_syntax.specs.Table.{all_below};
ghost use Rattle.mir_syntax.specs.Ids.{outside_below, BodyInTable};
ghost use Rattle.mir_syntax.specs.Crate.{outside_of, function_of, body_of};
ghost use Rattle.mir_rules.specs.Same.{same_tree};
ghost use Rattle.mir_rules.specs.DefinitionRules.{is_scalar, is_scalar_or_unit, breaks_v02, dropped_by_args, breaks_v03};
ghost use Rattle.drop_tables.specs.Headers.{dropped_definition};

use mir_syntax::{Body, Function, Outside, Program, Ty, TyId};

fn is_scalar(program: &Program, id: TyId) -> bool
    requires in_table { id.0 < length program.now.types }
    ensures { result ≡ is_scalar (at_id (trees_of program.now.types) id) }
{
    match program.ty(id) {
        Ty::Scalar(_) => true,
        _ => false,
    }
}

fn is_unit(program: &Program, id: TyId) -> bool
    requires in_table { id.0 < length program.now.types }
    ensures { result ≡ same_tree tree.empty (at_id (trees_of program.now.types) id) }
{
    match program.ty(id) {
        Ty::Tuple(parts) => parts.is_empty(),
        _ => false,
    }
}

fn are_scalar(program: &Program, ids: &[TyId]) -> bool
    requires in_table { IsTrue (all_below (length program.now.types) ids.now) }
    ensures { result ≡ list_all is_scalar (map (at_id (trees_of program.now.types)) ids.now) }
{
    let mut rest = ids;
    'ids: while let [id, others @ ..] = rest {
        if !is_scalar(program, *id) {
            return false;
        }
        rest = others;
    }
    true
}

fn is_scalar_or_unit(program: &Program, id: TyId) -> bool
    requires in_table { id.0 < length program.now.types }
    ensures { result ≡ is_scalar_or_unit (at_id (trees_of program.now.types) id) }
{
    is_scalar(program, id) || is_unit(program, id)
}

/// Whether an outside function has an argument that isn't scalar, or a result that is neither scalar nor `()`.
pub fn breaks_v02(program: &Program, outside: &Outside) -> bool
    requires below { IsTrue (outside_below (length program.now.types) outside.now) }
    ensures { result ≡ breaks_v02 (outside_of (trees_of program.now.types) outside.now) }
{
    !are_scalar(program, outside.args.as_slice()) || !is_scalar_or_unit(program, outside.result)
}

/// The definition that the type is a mutable reference to.
fn referred_definition(program: &Program, id: TyId) -> Option<u32>
    requires in_table { id.0 < length program.now.types }
    ensures { result ≡ dropped_definition (at_id (trees_of program.now.types) id) }
{
    let Ty::RefMut(to) = program.ty(id) else {
        return None;
    };
    match program.ty(*to) {
        Ty::Named(def) => Some(*def),
        _ => None,
    }
}

/// The definition that a header of a destructor names: the one argument is `&mut` of it, and the result `()`.
pub fn dropped_by(program: &Program, body: &Body) -> Option<u32>
    requires in_table { BodyInTable program.now.types body.now }
    ensures { result ≡ dropped_by_args body.now.args (map (at_id (trees_of program.now.types)) body.now.locals) }
{
    if body.args != 1 {
        return None;
    }
    let first = body.locals.get(0)?;
    let arg = body.locals.get(1)?;
    if is_unit(program, *first) {
        referred_definition(program, *arg)
    } else {
        None
    }
}

/// Whether a `drop fn` hasn't the header of a destructor.
pub fn breaks_v03(program: &Program, function: &Function) -> bool
    requires in_table { BodyInTable program.now.types function.now.body }
    ensures { result ≡ breaks_v03 (function_of (trees_of program.now.types) function.now) }
{
    function.is_drop && dropped_by(program, &function.body).is_none()
}
