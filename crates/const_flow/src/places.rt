//! What is known of places and operands.
ghost use Rattle.mir_syntax.specs.declared.body.Operand.TheVariants as operand;
ghost use Rattle.const_flow.specs.Facts.{Facts};
ghost use Rattle.std.specs.Prelude.{◌≡◌, [], length};
ghost use Rattle.place_map.specs.Tracked.{beyond};
ghost use Rattle.const_flow.specs.Facts.{look, part_known, known};
ghost use Rattle.const_flow.specs.Cells.{facts_of};

use crate::cell::Cell;
use mir_syntax::{Const, Operand, Place, Proj};
use place_map::PathMap;

/// What is known of the place at the end of a way from another.
pub(crate) fn place_known(paths: &PathMap, cells: &[Cell], place: &Place, way: &[Proj]) -> Cell
    requires { length cells.now ≡ length paths.now }
    ensures { result ≡ look (facts_of paths.now cells.now) (beyond place.now way.now) }
{
    match paths.find_part(place, way) {
        Some(path) => cells[path as usize],
        None => Cell::Many,
    }
}

#[tactic(auto, unfolding(crate::specs::Facts::part_known, mir_num::specs::Numbers::flag))]
fn const_known(value: Const) -> Cell
    ensures { (fs : Facts) → result ≡ part_known fs (operand.Const value) [] }
{
    match value {
        Const::Int(_, bits) => Cell::Num(bits),
        Const::Bool(true) => Cell::Num(1),
        Const::Bool(false) => Cell::Num(0),
        Const::Unit => Cell::Many,
    }
}

/// What is known of a part of an operand.
pub(crate) fn part_known(paths: &PathMap, cells: &[Cell], operand: &Operand, way: &[Proj]) -> Cell
    requires { length cells.now ≡ length paths.now }
    ensures { result ≡ part_known (facts_of paths.now cells.now) operand.now way.now }
{
    match operand {
        Operand::Copy(place) => place_known(paths, cells, place, way),
        Operand::Move(place) => place_known(paths, cells, place, way),
        Operand::Const(value) => {
            if way.is_empty() {
                const_known(*value)
            } else {
                Cell::Many
            }
        }
    }
}

/// What is known of an operand.
#[tactic(auto, unfolding(crate::specs::Facts::known))]
pub(crate) fn known(paths: &PathMap, cells: &[Cell], operand: &Operand) -> Cell
    requires { length cells.now ≡ length paths.now }
    ensures { result ≡ known (facts_of paths.now cells.now) operand.now }
{
    part_known(paths, cells, operand, &[])
}
