ghost use Rattle.std.specs.Prelude.{◌≡◌, ◌∷◌, ◌++◌, [], map, length, IsTrue, IfOk, OnOk};
ghost use Rattle.std.specs.List.{list_all};
ghost use Rattle.mir_syntax.specs.Tree.{trees_of};
ghost use Rattle.mir_syntax.specs.Crate.{def_of};
ghost use Rattle.mir_syntax.specs.Ids.{def_below};
ghost use Rattle.mir_text.specs.Names.{def_named, def_in, defs_in};
ghost use Rattle.mir_text.specs.NameFaults.{each};
ghost use Rattle.mir_text.specs.ReadLines.{def_line_in};
ghost use Rattle.mir_tree.specs.Rules.{lined_item, lined_item_at, item_of};
ghost use Rattle.mir_resolve.specs.Definitions.{before_defs, Went};
ghost use Rattle.mir_file.specs.Items.{rules_of, def_codes, def_faults, Noticed};

use mir_names::Names;
use mir_resolve::{Draft, PathIndex, read_enum, read_struct};
use mir_syntax::{Def, List, OutOfMemory};
use mir_tree::{ItemText, Lined};
use std::alloc::Global;

/// Structs and enums, and their lines.
#[derive(Drop)]
pub struct ReadDefs {
    pub defs: List<Def>,
    pub lines: List<u32>,
}

impl ReadDefs {
    fn push(&mut self, def: Def, line: u32) -> Result<(), OutOfMemory>
        ensures defs { OnOk result (self.new.defs ≡ self.old.defs ++ def ∷ []) }
        ensures lines { OnOk result (self.new.lines ≡ self.old.lines ++ line ∷ []) }
    {
        self.defs.push(def)?;
        self.lines.push(line)?;
        Ok(())
    }
}

/// Reads an item where it is a struct or an enum.
fn read_def(
    alloc: Global,
    strings: &Names,
    paths: &PathIndex,
    draft: &mut Draft,
    found: &mut ReadDefs,
    line: u32,
    part: &ItemText,
) -> Result<(), OutOfMemory>
    requires { IsTrue (list_all (def_below (length draft.old.program.types)) found.old.defs) }
    ensures defs { OnOk result (map (def_of (trees_of draft.new.program.types)) found.new.defs
        ≡ map (def_of (trees_of draft.old.program.types)) found.old.defs ++ map (def_named strings.now paths.now) (def_in (item_of (lined_item_at line part.now)))) }
    ensures inside { OnOk result (IsTrue (list_all (def_below (length draft.new.program.types)) found.new.defs)) }
    ensures lines { OnOk result (found.new.lines ≡ found.old.lines ++ def_line_in (lined_item_at line part.now)) }
    ensures went { OnOk result (Went draft.old draft.new line (def_codes (before_defs strings.now paths.now) (item_of (lined_item_at line part.now)))) }
{
    match part {
        ItemText::Struct(path, fields) => {
            let def = read_struct(alloc, strings, paths, draft, line, path, fields)?;
            found.push(def, line)?;
            Ok(())
        }
        ItemText::Enum(path, variants) => {
            let def = read_enum(alloc, strings, paths, draft, line, path, variants)?;
            found.push(def, line)?;
            Ok(())
        }
        ItemText::Extern(_, _, _) => Ok(()),
        ItemText::Function(_) => Ok(()),
    }
}

/// The structs and enums of a file. S10 is noted where a name stands twice in one of them, and S12 where the path of a type isn't known.
///
/// # Errors
///
/// `OutOfMemory`.
pub fn read_defs(
    alloc: Global,
    strings: &Names,
    paths: &PathIndex,
    draft: &mut Draft,
    items: &[Lined<ItemText>],
) -> Result<ReadDefs, OutOfMemory>
    ensures defs { IfOk result (λ found. map (def_of (trees_of draft.new.program.types)) found.defs ≡ map (def_named strings.now paths.now) (defs_in (rules_of items.now))) }
    ensures inside { IfOk result (λ found. IsTrue (list_all (def_below (length draft.new.program.types)) found.defs)) }
    ensures lines { IfOk result (λ found. found.lines ≡ each def_line_in (map lined_item items.now)) }
    ensures went { OnOk result (Noticed draft.old draft.new (each (def_faults (before_defs strings.now paths.now)) items.now)) }
{
    let mut found = ReadDefs {
        defs: List::new(alloc),
        lines: List::new(alloc),
    };
    let mut left = items;
    'items: while let [item, rest @ ..] = left {
        read_def(
            alloc, strings, paths, draft, &mut found, item.line, &item.part,
        )?;
        left = rest;
    }
    Ok(found)
}
