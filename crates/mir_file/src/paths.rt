ghost use Rattle.std.specs.Prelude.{◌≡◌, ◌∷◌, ◌++◌, [], IfOk};
ghost use Rattle.mir_text.specs.Names.{path_bytes, def_paths, function_path_in, function_paths_in, outside_path_in, outside_paths_in};
ghost use Rattle.mir_tree.specs.Types.{path_rule};
ghost use Rattle.mir_tree.specs.Rules.{lined_item_at, item_of};
ghost use Rattle.mir_file.specs.Items.{rules_of, def_path_in};

use mir_names::Names;
use mir_resolve::{Added, PathIndex, put_path};
use mir_syntax::{List, OutOfMemory};
use mir_tree::{ItemText, Lined, PathText};
use std::alloc::Global;

/// The paths of a file's items, each kind in the order of the file. A path that stands twice is found at its first place.
#[derive(Drop)]
pub struct FilePaths {
    /// Of structs and enums.
    pub defs: PathIndex,
    pub functions: PathIndex,
    pub outsides: PathIndex,
}

fn with_path(
    index: PathIndex,
    buffer: &mut List<u8>,
    strings: &Names,
    path: &PathText,
) -> Result<PathIndex, OutOfMemory>
    ensures { IfOk result (λ more. more ≡ index ++ path_bytes strings.now (path_rule path.now) ∷ []) }
{
    put_path(buffer, strings, path)?;
    let Added { index, stood: _ } = index.with(buffer.as_slice())?;
    Ok(index)
}

/// Puts the path of an item to those of its kind.
fn with_item(
    paths: FilePaths,
    buffer: &mut List<u8>,
    strings: &Names,
    line: u32,
    part: &ItemText,
) -> Result<FilePaths, OutOfMemory>
    ensures defs { IfOk result (λ more. more.defs ≡ paths.defs ++ def_path_in strings.now (item_of (lined_item_at line part.now))) }
    ensures functions { IfOk result (λ more. more.functions ≡ paths.functions ++ function_path_in strings.now (item_of (lined_item_at line part.now))) }
    ensures outsides { IfOk result (λ more. more.outsides ≡ paths.outsides ++ outside_path_in strings.now (item_of (lined_item_at line part.now))) }
{
    let FilePaths {
        defs,
        functions,
        outsides,
    } = paths;
    match part {
        ItemText::Struct(path, _) => {
            let defs = with_path(defs, buffer, strings, path)?;
            Ok(FilePaths {
                defs,
                functions,
                outsides,
            })
        }
        ItemText::Enum(path, _) => {
            let defs = with_path(defs, buffer, strings, path)?;
            Ok(FilePaths {
                defs,
                functions,
                outsides,
            })
        }
        ItemText::Extern(path, _, _) => {
            let outsides = with_path(outsides, buffer, strings, path)?;
            Ok(FilePaths {
                defs,
                functions,
                outsides,
            })
        }
        ItemText::Function(function) => {
            let functions = with_path(functions, buffer, strings, &function.path)?;
            Ok(FilePaths {
                defs,
                functions,
                outsides,
            })
        }
    }
}

/// The paths of a file's items.
///
/// # Errors
///
/// `OutOfMemory`.
pub fn read_paths(
    alloc: Global,
    strings: &Names,
    items: &[Lined<ItemText>],
) -> Result<FilePaths, OutOfMemory>
    ensures defs { IfOk result (λ paths. paths.defs ≡ def_paths strings.now (rules_of items.now)) }
    ensures functions { IfOk result (λ paths. paths.functions ≡ function_paths_in strings.now (rules_of items.now)) }
    ensures outsides { IfOk result (λ paths. paths.outsides ≡ outside_paths_in strings.now (rules_of items.now)) }
{
    let mut paths = FilePaths {
        defs: PathIndex::new(alloc),
        functions: PathIndex::new(alloc),
        outsides: PathIndex::new(alloc),
    };
    let mut buffer = List::new(alloc);
    let mut left = items;
    'items: while let [item, rest @ ..] = left {
        paths = with_item(paths, &mut buffer, strings, item.line, &item.part)?;
        left = rest;
    }
    Ok(paths)
}
