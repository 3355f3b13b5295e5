ghost use Rattle.std.specs.Prelude.{◌≡◌, ℕ, List, IsTrue, length, IfOk, OnOk};
ghost use Rattle.mir_syntax.specs.Tree.{Tree, trees_of};
ghost use Rattle.mir_syntax.specs.Crate as c;
ghost use Rattle.mir_syntax.specs.Ids.{rvalue_below};
ghost use Rattle.mir_text.specs.NamedBodies.{parts_named, rvalue_named, ref_named};
ghost use Rattle.mir_text.specs.NameFaults.{parts_codes, rvalue_codes};
ghost use Rattle.mir_text.specs.ReadLines.{any_wrong, parts_places, rvalue_places};
ghost use Rattle.mir_text.specs.GrammarStatements as r;
ghost use Rattle.mir_tree.specs.Types.{path_rule, type_rule};
ghost use Rattle.mir_tree.specs.Lists.{items_rule};
ghost use Rattle.mir_tree.specs.Bodies.{operand_rule, build_rule, rvalue_rule};
ghost use Rattle.mir_resolve.specs.Definitions.{Went};
ghost use Rattle.mir_bodies.specs.Scope.{Sense, Tells};

use crate::build::{Built, built_by, fits};
use crate::operand::{read_named, read_operand, read_operands};
use crate::place::{either, read_place};
use crate::{Read, Scope};
use mir_resolve::{Draft, read_noted};
use mir_syntax::{BinOp, Const, List, Operand, OutOfMemory, OverOp, Place, Rvalue};
use mir_tree::{BuildText, Items, OperandText, PathText, RvalueText, TypeText};
use std::alloc::Global;

/// A cast, with S12 noted where a path in its type isn't known.
fn read_cast(
    alloc: Global,
    scope: &Scope,
    draft: &mut Draft,
    line: u32,
    operand: &OperandText,
    ty: &TypeText,
) -> Result<Read<Rvalue>, OutOfMemory>
    ghost sense: { Sense }
    requires { Tells scope.now draft.old.program sense }
    ensures rvalue { IfOk result (λ read. c.rvalue_of (trees_of draft.new.program.types) read.part
        ≡ rvalue_named sense.names sense.locals (r.cast (operand_rule operand.now) (type_rule ty.now))) }
    ensures wrong { IfOk result (λ read. read.wrong ≡ any_wrong sense.names sense.locals (rvalue_places (r.cast (operand_rule operand.now) (type_rule ty.now)))) }
    ensures inside { IfOk result (λ read. IsTrue (rvalue_below (length draft.new.program.types) read.part)) }
    ensures went { OnOk result (Went draft.old draft.new line (rvalue_codes sense.names sense.locals (r.cast (operand_rule operand.now) (type_rule ty.now)))) }
    ensures tells { OnOk result (Tells scope.now draft.new.program sense) }
{
    let operand = read_operand(alloc, scope, draft, line, operand)?;
    let ty = read_noted(alloc, scope.strings, scope.paths, draft, line, ty)?;
    Ok(Read {
        part: Rvalue::Cast(operand.part, ty),
        wrong: operand.wrong,
    })
}

fn read_binary(
    alloc: Global,
    scope: &Scope,
    draft: &mut Draft,
    line: u32,
    op: BinOp,
    left: &OperandText,
    right: &OperandText,
) -> Result<Read<Rvalue>, OutOfMemory>
    ghost sense: { Sense }
    requires { Tells scope.now draft.old.program sense }
    ensures rvalue { IfOk result (λ read. c.rvalue_of (trees_of draft.new.program.types) read.part
        ≡ rvalue_named sense.names sense.locals (r.binary op (operand_rule left.now) (operand_rule right.now))) }
    ensures wrong { IfOk result (λ read. read.wrong
        ≡ any_wrong sense.names sense.locals (rvalue_places (r.binary op (operand_rule left.now) (operand_rule right.now)))) }
    ensures inside { IfOk result (λ read. IsTrue (rvalue_below (length draft.new.program.types) read.part)) }
    ensures went { OnOk result (Went draft.old draft.new line (rvalue_codes sense.names sense.locals (r.binary op (operand_rule left.now) (operand_rule right.now)))) }
    ensures tells { OnOk result (Tells scope.now draft.new.program sense) }
{
    let a = read_operand(alloc, scope, draft, line, left)?;
    let b = read_operand(alloc, scope, draft, line, right)?;
    Ok(Read {
        part: Rvalue::Binary(op, a.part, b.part),
        wrong: either(a.wrong, b.wrong),
    })
}

fn read_overflow(
    alloc: Global,
    scope: &Scope,
    draft: &mut Draft,
    line: u32,
    op: OverOp,
    left: &OperandText,
    right: &OperandText,
) -> Result<Read<Rvalue>, OutOfMemory>
    ghost sense: { Sense }
    requires { Tells scope.now draft.old.program sense }
    ensures rvalue { IfOk result (λ read. c.rvalue_of (trees_of draft.new.program.types) read.part
        ≡ rvalue_named sense.names sense.locals (r.overflow op (operand_rule left.now) (operand_rule right.now))) }
    ensures wrong { IfOk result (λ read. read.wrong
        ≡ any_wrong sense.names sense.locals (rvalue_places (r.overflow op (operand_rule left.now) (operand_rule right.now)))) }
    ensures inside { IfOk result (λ read. IsTrue (rvalue_below (length draft.new.program.types) read.part)) }
    ensures went { OnOk result (Went draft.old draft.new line (rvalue_codes sense.names sense.locals (r.overflow op (operand_rule left.now) (operand_rule right.now)))) }
    ensures tells { OnOk result (Tells scope.now draft.new.program sense) }
{
    let a = read_operand(alloc, scope, draft, line, left)?;
    let b = read_operand(alloc, scope, draft, line, right)?;
    Ok(Read {
        part: Rvalue::Overflow(op, a.part, b.part),
        wrong: either(a.wrong, b.wrong),
    })
}

fn read_tuple(
    alloc: Global,
    scope: &Scope,
    draft: &mut Draft,
    line: u32,
    first: &OperandText,
    others: &Items<OperandText>,
) -> Result<Read<Rvalue>, OutOfMemory>
    ghost sense: { Sense }
    requires { Tells scope.now draft.old.program sense }
    ensures rvalue { IfOk result (λ read. c.rvalue_of (trees_of draft.new.program.types) read.part
        ≡ rvalue_named sense.names sense.locals (r.tuple_of (operand_rule first.now) (items_rule operand_rule others.now))) }
    ensures wrong { IfOk result (λ read. read.wrong
        ≡ any_wrong sense.names sense.locals (rvalue_places (r.tuple_of (operand_rule first.now) (items_rule operand_rule others.now)))) }
    ensures inside { IfOk result (λ read. IsTrue (rvalue_below (length draft.new.program.types) read.part)) }
    ensures went { OnOk result (Went draft.old draft.new line (rvalue_codes sense.names sense.locals (r.tuple_of (operand_rule first.now) (items_rule operand_rule others.now)))) }
    ensures tells { OnOk result (Tells scope.now draft.new.program sense) }
{
    let a = read_operand(alloc, scope, draft, line, first)?;
    let more = read_operands(alloc, scope, draft, line, others.items.as_slice())?;
    let mut parts = List::new(alloc);
    parts.push(a.part)?;
    parts.append(more.part)?;
    Ok(Read {
        part: Rvalue::Tuple(parts),
        wrong: either(a.wrong, more.wrong),
    })
}

/// The operands of a build, in their order.
fn read_parts(
    alloc: Global,
    scope: &Scope,
    draft: &mut Draft,
    line: u32,
    parts: &BuildText,
) -> Result<Read<List<Operand>>, OutOfMemory>
    ghost sense: { Sense }
    requires { Tells scope.now draft.old.program sense }
    ensures parts { IfOk result (λ read. read.part ≡ parts_named sense.names sense.locals (build_rule parts.now)) }
    ensures wrong { IfOk result (λ read. read.wrong ≡ any_wrong sense.names sense.locals (parts_places (build_rule parts.now))) }
    ensures went { OnOk result (Went draft.old draft.new line (parts_codes sense.names sense.locals (build_rule parts.now))) }
    ensures tells { OnOk result (Tells scope.now draft.new.program sense) }
{
    match parts {
        BuildText::Plain => Ok(Read {
            part: List::new(alloc),
            wrong: false,
        }),
        BuildText::Tupled(operands) => {
            let read = read_operands(alloc, scope, draft, line, operands.items.as_slice())?;
            Ok(read)
        }
        BuildText::Labelled(named) => {
            let read = read_named(alloc, scope, draft, line, named.items.as_slice())?;
            Ok(read)
        }
    }
}

/// A build, with S13 noted where it names no struct or variant in its form.
fn read_build(
    alloc: Global,
    scope: &Scope,
    draft: &mut Draft,
    line: u32,
    path: &PathText,
    parts: &BuildText,
) -> Result<Read<Rvalue>, OutOfMemory>
    ghost sense: { Sense }
    requires { Tells scope.now draft.old.program sense }
    ensures rvalue { IfOk result (λ read. c.rvalue_of (trees_of draft.new.program.types) read.part
        ≡ rvalue_named sense.names sense.locals (r.build (path_rule path.now) (build_rule parts.now))) }
    ensures wrong { IfOk result (λ read. read.wrong
        ≡ any_wrong sense.names sense.locals (rvalue_places (r.build (path_rule path.now) (build_rule parts.now)))) }
    ensures inside { IfOk result (λ read. IsTrue (rvalue_below (length draft.new.program.types) read.part)) }
    ensures went { OnOk result (Went draft.old draft.new line (rvalue_codes sense.names sense.locals (r.build (path_rule path.now) (build_rule parts.now)))) }
    ensures tells { OnOk result (Tells scope.now draft.new.program sense) }
{
    let built = built_by(scope, &draft.program, &mut draft.scratch.path, path)?;
    let fits = fits(scope, &draft.program, built, parts);
    draft.notes.note_unless(fits, line, 13);
    let parts = read_parts(alloc, scope, draft, line, parts)?;
    let Built { def, variant } = built.unwrap_or(Built { def: 0, variant: 0 });
    Ok(Read {
        part: Rvalue::Build(def, variant, parts.part),
        wrong: parts.wrong,
    })
}

fn borrow(mutable: bool, place: Place) -> Rvalue
    ensures value { (trees : List Tree) → c.rvalue_of trees result ≡ ref_named mutable place }
    ensures inside { (n : ℕ) → IsTrue (rvalue_below n result) }
{
    if mutable {
        Rvalue::RefMut(place)
    } else {
        Rvalue::Ref(place)
    }
}

/// An rvalue, with faults noted as for its parts.
///
/// # Errors
///
/// `OutOfMemory`.
pub fn read_rvalue(
    alloc: Global,
    scope: &Scope,
    draft: &mut Draft,
    line: u32,
    text: &RvalueText,
) -> Result<Read<Rvalue>, OutOfMemory>
    ghost sense: { Sense }
    requires { Tells scope.now draft.old.program sense }
    ensures rvalue { IfOk result (λ read. c.rvalue_of (trees_of draft.new.program.types) read.part ≡ rvalue_named sense.names sense.locals (rvalue_rule text.now)) }
    ensures wrong { IfOk result (λ read. read.wrong ≡ any_wrong sense.names sense.locals (rvalue_places (rvalue_rule text.now))) }
    ensures inside { IfOk result (λ read. IsTrue (rvalue_below (length draft.new.program.types) read.part)) }
    ensures went { OnOk result (Went draft.old draft.new line (rvalue_codes sense.names sense.locals (rvalue_rule text.now))) }
    ensures tells { OnOk result (Tells scope.now draft.new.program sense) }
{
    match text {
        RvalueText::Use(operand) => {
            let read = read_operand(alloc, scope, draft, line, operand)?;
            Ok(Read {
                part: Rvalue::Use(read.part),
                wrong: read.wrong,
            })
        }
        RvalueText::Cast(operand, ty) => read_cast(alloc, scope, draft, line, operand, ty),
        RvalueText::Binary(op, a, b) => read_binary(alloc, scope, draft, line, *op, a, b),
        RvalueText::Overflow(op, a, b) => read_overflow(alloc, scope, draft, line, *op, a, b),
        RvalueText::Unary(op, operand) => {
            let read = read_operand(alloc, scope, draft, line, operand)?;
            Ok(Read {
                part: Rvalue::Unary(*op, read.part),
                wrong: read.wrong,
            })
        }
        RvalueText::Ref(mutable, place) => {
            let read = read_place(alloc, scope, draft, line, place)?;
            Ok(Read {
                part: borrow(*mutable, read.part),
                wrong: read.wrong,
            })
        }
        RvalueText::Discriminant(place) => {
            let read = read_place(alloc, scope, draft, line, place)?;
            Ok(Read {
                part: Rvalue::Discriminant(read.part),
                wrong: read.wrong,
            })
        }
        RvalueText::Nothing => Ok(Read {
            part: Rvalue::Use(Operand::Const(Const::Unit)),
            wrong: false,
        }),
        RvalueText::Tuple(first, others) => read_tuple(alloc, scope, draft, line, first, others),
        RvalueText::Build(path, parts) => read_build(alloc, scope, draft, line, path, parts),
    }
}
