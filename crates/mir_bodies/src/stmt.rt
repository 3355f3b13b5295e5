ghost use Rattle.std.specs.Prelude.{◌≡◌, IsTrue, length, IfOk, OnOk};
ghost use Rattle.std.specs.List.{list_all};
ghost use Rattle.mir_syntax.specs.Tree.{trees_of};
ghost use Rattle.mir_syntax.specs.Ids.{stmt_below};
ghost use Rattle.mir_text.specs.GrammarStatements as r;
ghost use Rattle.mir_text.specs.NamedBodies.{stmt_named};
ghost use Rattle.mir_text.specs.NameFaults.{local_codes, stmt_codes};
ghost use Rattle.mir_text.specs.ReadLines.{any_wrong, stmt_places};
ghost use Rattle.mir_tree.specs.Bodies.{place_rule, rvalue_rule, stmt_rule};
ghost use Rattle.mir_resolve.specs.Definitions.{Went};
ghost use Rattle.mir_bodies.specs.Scope.{Sense, Tells};
ghost use Rattle.mir_bodies.specs.Statements.{listed, stmts_in};

use crate::place::{either, read_place};
use crate::rvalue::read_rvalue;
use crate::{Read, Scope};
use mir_resolve::Draft;
use mir_syntax::{OutOfMemory, Stmt};
use mir_tree::{PlaceText, RvalueText, StmtText};
use std::alloc::Global;

/// Notes S14 where a local isn't declared.
fn note_local(scope: &Scope, draft: &mut Draft, line: u32, local: u32)
    ghost sense: { Sense }
    requires { Tells scope.now draft.old.program sense }
    ensures went { Went draft.old draft.new line (local_codes sense.locals local) }
    ensures tells { Tells scope.now draft.new.program sense }
{
    let ty = scope.locals.get(local);
    draft.notes.note_unless(ty.is_some(), line, 14);
}

fn read_assign(
    alloc: Global,
    scope: &Scope,
    draft: &mut Draft,
    line: u32,
    place: &PlaceText,
    value: &RvalueText,
) -> Result<Read<Option<Stmt>>, OutOfMemory>
    ghost sense: { Sense }
    requires { Tells scope.now draft.old.program sense }
    ensures stmt { IfOk result (λ read. stmts_in (trees_of draft.new.program.types) read.part
        ≡ stmt_named sense.names sense.locals (r.assign (place_rule place.now) (rvalue_rule value.now))) }
    ensures wrong { IfOk result (λ read. read.wrong ≡ any_wrong sense.names sense.locals (stmt_places (r.assign (place_rule place.now) (rvalue_rule value.now)))) }
    ensures inside { IfOk result (λ read. IsTrue (list_all (stmt_below (length draft.new.program.types)) (listed read.part))) }
    ensures went { OnOk result (Went draft.old draft.new line (stmt_codes sense.names sense.locals (r.assign (place_rule place.now) (rvalue_rule value.now)))) }
    ensures tells { OnOk result (Tells scope.now draft.new.program sense) }
{
    let place = read_place(alloc, scope, draft, line, place)?;
    let value = read_rvalue(alloc, scope, draft, line, value)?;
    Ok(Read {
        part: Some(Stmt::Assign(place.part, value.part)),
        wrong: either(place.wrong, value.wrong),
    })
}

/// A statement, or none for `nop`; faults are noted as for its parts.
///
/// # Errors
///
/// `OutOfMemory`.
pub fn read_stmt(
    alloc: Global,
    scope: &Scope,
    draft: &mut Draft,
    line: u32,
    text: &StmtText,
) -> Result<Read<Option<Stmt>>, OutOfMemory>
    ghost sense: { Sense }
    requires { Tells scope.now draft.old.program sense }
    ensures stmt { IfOk result (λ read. stmts_in (trees_of draft.new.program.types) read.part ≡ stmt_named sense.names sense.locals (stmt_rule text.now)) }
    ensures wrong { IfOk result (λ read. read.wrong ≡ any_wrong sense.names sense.locals (stmt_places (stmt_rule text.now))) }
    ensures inside { IfOk result (λ read. IsTrue (list_all (stmt_below (length draft.new.program.types)) (listed read.part))) }
    ensures went { OnOk result (Went draft.old draft.new line (stmt_codes sense.names sense.locals (stmt_rule text.now))) }
    ensures tells { OnOk result (Tells scope.now draft.new.program sense) }
{
    match text {
        StmtText::Assign(place, value) => read_assign(alloc, scope, draft, line, place, value),
        StmtText::Nop => Ok(Read {
            part: None,
            wrong: false,
        }),
        StmtText::StorageLive(local) => {
            note_local(scope, draft, line, *local);
            Ok(Read {
                part: Some(Stmt::StorageLive(*local)),
                wrong: false,
            })
        }
        StmtText::StorageDead(local) => {
            note_local(scope, draft, line, *local);
            Ok(Read {
                part: Some(Stmt::StorageDead(*local)),
                wrong: false,
            })
        }
        StmtText::SetDiscriminant(place, variant) => {
            let place = read_place(alloc, scope, draft, line, place)?;
            Ok(Read {
                part: Some(Stmt::SetDiscriminant(place.part, *variant)),
                wrong: place.wrong,
            })
        }
    }
}
