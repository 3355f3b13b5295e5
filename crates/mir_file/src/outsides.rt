ghost use Rattle.std.specs.Prelude.{◌≡◌, ◌∷◌, ◌++◌, [], map, length, IsTrue, IfOk, OnOk};
ghost use Rattle.std.specs.List.{list_all};
ghost use Rattle.mir_syntax.specs.Tree.{trees_of};
ghost use Rattle.mir_syntax.specs.Crate.{outside_of};
ghost use Rattle.mir_syntax.specs.Ids.{outside_below};
ghost use Rattle.mir_text.specs.Naming.{outside_in, outsides_in};
ghost use Rattle.mir_text.specs.NameFaults.{each};
ghost use Rattle.mir_text.specs.ReadLines.{outside_line_in};
ghost use Rattle.mir_tree.specs.Rules.{lined_item, lined_item_at, item_of};
ghost use Rattle.mir_resolve.specs.Definitions.{before_defs, Went};
ghost use Rattle.mir_file.specs.Items.{rules_of, outside_codes, outside_faults, Noticed};

use mir_names::Names;
use mir_resolve::{Draft, PathIndex, read_outside};
use mir_syntax::{List, OutOfMemory, Outside};
use mir_tree::{ItemText, Lined};
use std::alloc::Global;

/// Outside functions, and their lines.
#[derive(Drop)]
pub struct ReadOutsides {
    pub outsides: List<Outside>,
    pub lines: List<u32>,
}

impl ReadOutsides {
    fn push(&mut self, outside: Outside, line: u32) -> Result<(), OutOfMemory>
        ensures outsides { OnOk result (self.new.outsides ≡ self.old.outsides ++ outside ∷ []) }
        ensures lines { OnOk result (self.new.lines ≡ self.old.lines ++ line ∷ []) }
    {
        self.outsides.push(outside)?;
        self.lines.push(line)?;
        Ok(())
    }
}

/// Reads an item where it is an outside function.
fn read_extern(
    alloc: Global,
    strings: &Names,
    paths: &PathIndex,
    draft: &mut Draft,
    found: &mut ReadOutsides,
    line: u32,
    part: &ItemText,
) -> Result<(), OutOfMemory>
    requires { IsTrue (list_all (outside_below (length draft.old.program.types)) found.old.outsides) }
    ensures outsides { OnOk result (map (outside_of (trees_of draft.new.program.types)) found.new.outsides
        ≡ map (outside_of (trees_of draft.old.program.types)) found.old.outsides ++ outside_in (before_defs strings.now paths.now) (item_of (lined_item_at line part.now))) }
    ensures inside { OnOk result (IsTrue (list_all (outside_below (length draft.new.program.types)) found.new.outsides)) }
    ensures lines { OnOk result (found.new.lines ≡ found.old.lines ++ outside_line_in (lined_item_at line part.now)) }
    ensures went { OnOk result (Went draft.old draft.new line (outside_codes (before_defs strings.now paths.now) (item_of (lined_item_at line part.now)))) }
{
    match part {
        ItemText::Struct(_, _) => Ok(()),
        ItemText::Enum(_, _) => Ok(()),
        ItemText::Extern(path, args, ty) => {
            let outside = read_outside(alloc, strings, paths, draft, line, path, args, ty)?;
            found.push(outside, line)?;
            Ok(())
        }
        ItemText::Function(_) => Ok(()),
    }
}

/// The outside functions of a file. S12 is noted where the path of a type isn't known.
///
/// # Errors
///
/// `OutOfMemory`.
pub fn read_outsides(
    alloc: Global,
    strings: &Names,
    paths: &PathIndex,
    draft: &mut Draft,
    items: &[Lined<ItemText>],
) -> Result<ReadOutsides, OutOfMemory>
    ensures outsides { IfOk result (λ found. map (outside_of (trees_of draft.new.program.types)) found.outsides ≡ outsides_in (before_defs strings.now paths.now) (rules_of items.now)) }
    ensures inside { IfOk result (λ found. IsTrue (list_all (outside_below (length draft.new.program.types)) found.outsides)) }
    ensures lines { IfOk result (λ found. found.lines ≡ each outside_line_in (map lined_item items.now)) }
    ensures went { OnOk result (Noticed draft.old draft.new (each (outside_faults (before_defs strings.now paths.now)) items.now)) }
{
    let mut found = ReadOutsides {
        outsides: List::new(alloc),
        lines: List::new(alloc),
    };
    let mut left = items;
    'items: while let [item, rest @ ..] = left {
        read_extern(
            alloc, strings, paths, draft, &mut found, item.line, &item.part,
        )?;
        left = rest;
    }
    Ok(found)
}
