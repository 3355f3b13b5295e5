//! The locals that are used as a whole, so that they stay.
ghost use Rattle.std.specs.Prelude.{◌≡◌, ◌<◌, ◌^◌, set, length};
ghost use Rattle.std.specs.List.{flat_map, list_all};
ghost use Rattle.bit_rows.specs.Rows.{row_at, marked};
ghost use Rattle.sroa_pass.specs.Code as code;
ghost use Rattle.mir_syntax.specs.Parts.{begins_with_field};

use bit_rows::BitRows;
use mir_syntax::{Block, Operand, Place, Proj, Rvalue, Stmt, Term};

fn begins_in_field(place: &Place) -> bool
    ensures { result ≡ begins_with_field place.now.proj }
{
    match place.proj.as_slice() {
        [Proj::Field(_), ..] => true,
        _ => false,
    }
}

/// Marks the local of a place that doesn't begin in a field.
fn hold_place(rows: &mut BitRows, place: &Place)
    requires { 0 < length rows.old }
    ensures { rows.new ≡ set rows.old 0 (marked (row_at rows.old 0) (code.held_place place.now)) }
{
    if !begins_in_field(place) {
        rows.write(0, place.local, true);
    }
}

fn hold_operand(rows: &mut BitRows, operand: &Operand)
    requires { 0 < length rows.old }
    ensures { rows.new ≡ set rows.old 0 (marked (row_at rows.old 0) (code.held_operand operand.now)) }
{
    match operand {
        Operand::Copy(place) => hold_place(rows, place),
        Operand::Move(place) => hold_place(rows, place),
        Operand::Const(_) => {}
    }
}

fn hold_operands(rows: &mut BitRows, operands: &[Operand])
    requires { 0 < length rows.old }
    ensures { rows.new ≡ set rows.old 0 (marked (row_at rows.old 0) (flat_map code.held_operand operands.now)) }
{
    for operand in operands {
        hold_operand(rows, operand);
    }
}

fn hold_rvalue(rows: &mut BitRows, rvalue: &Rvalue)
    requires { 0 < length rows.old }
    ensures { rows.new ≡ set rows.old 0 (marked (row_at rows.old 0) (code.held_rvalue rvalue.now)) }
{
    match rvalue {
        Rvalue::Use(operand) => hold_operand(rows, operand),
        Rvalue::Unary(_, operand) => hold_operand(rows, operand),
        Rvalue::Cast(operand, _) => hold_operand(rows, operand),
        Rvalue::Binary(_, left, right) => {
            hold_operand(rows, left);
            hold_operand(rows, right);
        }
        Rvalue::Overflow(_, left, right) => {
            hold_operand(rows, left);
            hold_operand(rows, right);
        }
        Rvalue::Ref(place) => hold_place(rows, place),
        Rvalue::RefMut(place) => hold_place(rows, place),
        Rvalue::Discriminant(place) => hold_place(rows, place),
        Rvalue::Tuple(parts) => hold_operands(rows, parts.as_slice()),
        Rvalue::Build(_, _, parts) => hold_operands(rows, parts.as_slice()),
    }
}

fn operand_apart(local: u32, operand: &Operand) -> bool
    ensures { result ≡ code.operand_apart local operand.now }
{
    match operand {
        Operand::Copy(place) => place.local != local,
        Operand::Move(place) => place.local != local,
        Operand::Const(_) => true,
    }
}

fn all_apart(local: u32, operands: &[Operand]) -> bool
    ensures { result ≡ list_all (code.operand_apart local) operands.now }
{
    for operand in operands {
        if !operand_apart(local, operand) {
            return false;
        }
    }
    true
}

/// Whether the rvalue is given, or put together, of values at other locals.
fn fills_from(local: u32, rvalue: &Rvalue) -> bool
    ensures { result ≡ code.fills_from local rvalue.now }
{
    match rvalue {
        Rvalue::Use(operand) => operand_apart(local, operand),
        Rvalue::Tuple(parts) => all_apart(local, parts.as_slice()),
        Rvalue::Build(_, _, parts) => all_apart(local, parts.as_slice()),
        _ => false,
    }
}

/// Whether the whole of a local gets its fields.
fn fills_whole(place: &Place, rvalue: &Rvalue) -> bool
    ensures { result ≡ code.fills_whole place.now rvalue.now }
{
    place.proj.is_empty() && fills_from(place.local, rvalue)
}

fn hands_place(to: &Place, from: &Place) -> bool
    ensures { result ≡ code.hands_place to.now from.now }
{
    from.proj.is_empty() && to.local != from.local && !to.has_deref()
}

/// Whether the whole of a local is handed on to a place of another one.
fn hands_whole(place: &Place, rvalue: &Rvalue) -> bool
    ensures { result ≡ code.hands_whole place.now rvalue.now }
{
    match rvalue {
        Rvalue::Use(Operand::Copy(from)) => hands_place(place, from),
        Rvalue::Use(Operand::Move(from)) => hands_place(place, from),
        _ => false,
    }
}

fn hold_target(rows: &mut BitRows, place: &Place, rvalue: &Rvalue)
    requires { 0 < length rows.old }
    ensures { rows.new ≡ set rows.old 0 (marked (row_at rows.old 0) (code.held_target place.now rvalue.now)) }
{
    if !fills_whole(place, rvalue) {
        hold_place(rows, place);
    }
}

fn hold_source(rows: &mut BitRows, place: &Place, rvalue: &Rvalue)
    requires { 0 < length rows.old }
    ensures { rows.new ≡ set rows.old 0 (marked (row_at rows.old 0) (code.held_source place.now rvalue.now)) }
{
    if !hands_whole(place, rvalue) {
        hold_rvalue(rows, rvalue);
    }
}

fn hold_stmt(rows: &mut BitRows, stmt: &Stmt)
    requires { 0 < length rows.old }
    ensures { rows.new ≡ set rows.old 0 (marked (row_at rows.old 0) (code.held_stmt stmt.now)) }
{
    match stmt {
        Stmt::Assign(place, rvalue) => {
            hold_target(rows, place, rvalue);
            hold_source(rows, place, rvalue);
        }
        Stmt::StorageLive(_) => {}
        Stmt::StorageDead(_) => {}
        Stmt::SetDiscriminant(place, _) => hold_place(rows, place),
    }
}

fn hold_stmts(rows: &mut BitRows, stmts: &[Stmt])
    requires { 0 < length rows.old }
    ensures { rows.new ≡ set rows.old 0 (marked (row_at rows.old 0) (flat_map code.held_stmt stmts.now)) }
{
    for stmt in stmts {
        hold_stmt(rows, stmt);
    }
}

fn hold_term(rows: &mut BitRows, term: &Term)
    requires { 0 < length rows.old }
    ensures { rows.new ≡ set rows.old 0 (marked (row_at rows.old 0) (code.held_term term.now)) }
{
    match term {
        Term::Switch(operand, _, _) => hold_operand(rows, operand),
        Term::Drop(place, _) => hold_place(rows, place),
        Term::Call(place, _, args, _) => {
            hold_place(rows, place);
            hold_operands(rows, args.as_slice());
        }
        Term::Assert(operand, _, _, values, _) => {
            hold_operand(rows, operand);
            hold_operands(rows, values.as_slice());
        }
        Term::Goto(_) => {}
        Term::Return => {}
        Term::Unreachable => {}
    }
}

fn hold_block(rows: &mut BitRows, block: &Block)
    requires { 0 < length rows.old }
    ensures { rows.new ≡ set rows.old 0 (marked (row_at rows.old 0) (code.held_block block.now)) }
{
    hold_stmts(rows, block.stmts.as_slice());
    hold_term(rows, &block.term);
}

/// Marks the locals of which a block uses the whole otherwise than to fill it or to hand it on.
pub(crate) fn hold_blocks(rows: &mut BitRows, blocks: &[Block])
    requires { 0 < length rows.old }
    ensures { rows.new ≡ set rows.old 0 (marked (row_at rows.old 0) (flat_map code.held_block blocks.now)) }
{
    for block in blocks {
        hold_block(rows, block);
    }
}
