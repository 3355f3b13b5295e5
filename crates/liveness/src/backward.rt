ghost use Rattle.std.specs.Prelude.{◌≡◌, ◌<◌, [], ◌∷◌, ◌++◌, List, set, length};
ghost use Rattle.std.specs.List.{flat_map};
ghost use Rattle.bit_rows.specs.Rows.{row_at, marked};
ghost use Rattle.mir_syntax.specs.Tree.{Tree};
ghost use Rattle.mir_syntax.specs.Crate.{stmt_of};
ghost use Rattle.liveness.specs.Live.{operand_locals, written_reads, whole};
ghost use Rattle.liveness.specs.Rows.{cleared, before_stmt, bare_rvalue_reads};

use bit_rows::BitRows;
use mir_syntax::{Operand, Place, Rvalue, Stmt};

/// Adds to a row the local that an operand reads.
pub fn read_operand(operand: &Operand, rows: &mut BitRows, row: u32)
    requires { row < length rows.old }
    ensures { rows.new ≡ set rows.old row (marked (row_at rows.old row) (operand_locals operand.now)) }
{
    match operand {
        Operand::Copy(place) => rows.write(row, place.local, true),
        Operand::Move(place) => rows.write(row, place.local, true),
        Operand::Const(_) => {}
    }
}

/// Adds to a row the locals that operands read.
pub fn read_operands(operands: &[Operand], rows: &mut BitRows, row: u32)
    requires { row < length rows.old }
    ensures { rows.new ≡ set rows.old row (marked (row_at rows.old row) (flat_map operand_locals operands.now)) }
{
    for operand in operands {
        read_operand(operand, rows, row);
    }
}

fn read_both(a: &Operand, b: &Operand, rows: &mut BitRows, row: u32)
    requires { row < length rows.old }
    ensures { rows.new ≡ set rows.old row (marked (row_at rows.old row) (operand_locals a.now ++ operand_locals b.now)) }
{
    read_operand(a, rows, row);
    read_operand(b, rows, row);
}

/// Adds to a row the locals that an rvalue reads.
pub fn read_rvalue(rvalue: &Rvalue, rows: &mut BitRows, row: u32)
    requires { row < length rows.old }
    ensures { rows.new ≡ set rows.old row (marked (row_at rows.old row) (bare_rvalue_reads rvalue.now)) }
{
    match rvalue {
        Rvalue::Use(a) => read_operand(a, rows, row),
        Rvalue::Unary(_, a) => read_operand(a, rows, row),
        Rvalue::Cast(a, _) => read_operand(a, rows, row),
        Rvalue::Binary(_, a, b) => read_both(a, b, rows, row),
        Rvalue::Overflow(_, a, b) => read_both(a, b, rows, row),
        Rvalue::Ref(place) => rows.write(row, place.local, true),
        Rvalue::RefMut(place) => rows.write(row, place.local, true),
        Rvalue::Discriminant(place) => rows.write(row, place.local, true),
        Rvalue::Tuple(parts) => read_operands(parts.as_slice(), rows, row),
        Rvalue::Build(_, _, parts) => read_operands(parts.as_slice(), rows, row),
    }
}

/// Writing a place with a dereference or a downcast reads its local.
pub(crate) fn read_written(place: &Place, rows: &mut BitRows, row: u32)
    requires { row < length rows.old }
    ensures { rows.new ≡ set rows.old row (marked (row_at rows.old row) (written_reads place.now)) }
{
    if !place.is_direct() {
        rows.write(row, place.local, true);
    }
}

/// Writing a whole local ends what was live in it.
pub(crate) fn fill(place: &Place, rows: &mut BitRows, row: u32)
    requires { row < length rows.old }
    ensures { rows.new ≡ set rows.old row (cleared (row_at rows.old row) (whole place.now)) }
{
    if place.proj.is_empty() {
        rows.write(row, place.local, false);
    }
}

/// Carries a row of live locals over a statement: it has those that are live after the statement, and then those that are live before it.
pub fn back(stmt: &Stmt, rows: &mut BitRows, row: u32)
    requires { row < length rows.old }
    ensures { (trees : List Tree) → rows.new ≡ set rows.old row (before_stmt (stmt_of trees stmt.now) (row_at rows.old row)) }
{
    match stmt {
        Stmt::Assign(place, rvalue) => {
            fill(place, rows, row);
            read_rvalue(rvalue, rows, row);
            read_written(place, rows, row);
        }
        Stmt::StorageLive(local) => rows.write(row, *local, false),
        Stmt::StorageDead(local) => rows.write(row, *local, false),
        Stmt::SetDiscriminant(place, _) => rows.write(row, place.local, true),
    }
}
