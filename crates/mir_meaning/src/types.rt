ghost use Rattle.std.specs.Prelude.{◌≡◌, ◌<◌, IsTrue, MatchOption, IfSome, length, option_map, option_copied};
ghost use Rattle.mir_syntax.specs.Tree.{scalar, node, named, trees_of};
ghost use Rattle.mir_syntax.specs.declared.types.ScalarTy.TheVariants as scalar_ty;
ghost use Rattle.mir_syntax.specs.Table.{ids_below};
ghost use Rattle.mir_syntax.specs.Shapes.{needs_drop as needs, destructor_of, fields_tree};
ghost use Rattle.mir_syntax.specs.Drops.{fn_number, KnowsDrops};
ghost use Rattle.std.specs.Prelude.{slice_get};
ghost use Rattle.mir_meaning.specs.Programs.{shapes_in, type_in, parts_of};

use mir_syntax::{Field, FnId, Program, Ty, TyId};

/// The type of an id, made of smaller ids. An id that is not in the table stands for `bool`.
#[tactic(auto, using(crate::proofs::IdTypes::type_past))]
pub fn ty(program: &Program, id: TyId) -> Option<&Ty>
    ensures stands { MatchOption result (type_in program.now id ≡ scalar scalar_ty.Bool) (λ ty. type_in program.now id ≡ node (trees_of program.now.types) ty.now) }
    ensures made { IfSome result (λ ty. IsTrue (ids_below id.0 ty.now)) }
{
    if id.0 < program.types() {
        Some(program.ty(id))
    } else {
        None
    }
}

/// Whether a value of the type is dropped by more than forgetting it.
#[tactic(auto, using(crate::proofs::IdTypes::needs_past))]
pub fn needs_drop(program: &Program, id: TyId) -> bool
    requires { KnowsDrops program.now }
    ensures { result ≡ needs (shapes_in program.now) (type_in program.now id) }
{
    id.0 < program.types() && program.needs_drop(id)
}

/// The function that is the destructor of the type, if it has one.
#[tactic(auto, using(crate::proofs::IdTypes::destructor_past))]
pub fn destructor(program: &Program, id: TyId) -> Option<FnId>
    requires { KnowsDrops program.now }
    ensures { option_map fn_number result ≡ destructor_of (shapes_in program.now) (type_in program.now id) }
{
    if id.0 < program.types() {
        program.destructor(id)
    } else {
        None
    }
}

/// The fields of a struct that has no destructor of its own, and so is moved and dropped by its parts.
pub fn plain_fields(program: &Program, id: TyId, def: u32) -> Option<&[Field]>
    requires knows { KnowsDrops program.now }
    requires named { type_in program.now id ≡ named def }
    ensures { option_map (fields_tree (trees_of program.now.types)) (option_copied result) ≡ parts_of (slice_get (shapes_in program.now) def) }
{
    if destructor(program, id).is_some() {
        return None;
    }
    program.struct_fields(def)
}
