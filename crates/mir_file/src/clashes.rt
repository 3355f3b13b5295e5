ghost use Rattle.std.specs.Prelude.{◌≡◌, ◌∷◌, ◌++◌, ◌||◌, [], codes, map, not, take, IfOk, OnOk};
ghost use Rattle.mir_text.specs.Names.{path_bytes, string_at};
ghost use Rattle.mir_text.specs.NameFaults.{stands_in, on_line, unless, path_faults};
ghost use Rattle.mir_tree.specs.Types.{path_rule};
ghost use Rattle.mir_resolve.specs.Faults.{noted};
ghost use Rattle.mir_resolve.specs.Once.{SameTexts};
ghost use Rattle.mir_file.specs.Clashes.{defined_at, defined_as, variant_path, any_stands, meets, Saw};

use mir_names::Names;
use mir_resolve::{Noted, is_new, put_name, put_path};
use mir_syntax::{List, OutOfMemory};
use mir_tree::{ItemText, Lined, PathText, VariantText};
use std::alloc::Global;

/// The paths of the items that were seen.
#[derive(Drop)]
struct SeenPaths {
    /// Of structs and enums.
    types: Names,
    /// Of functions and outside functions.
    functions: Names,
    structs: Names,
    /// Of the variants of enums.
    variants: Names,
}

fn stands(names: &Names, text: &[u8]) -> bool
    ensures { result ≡ stands_in names.now text.now }
{
    names.find(text).is_some()
}

fn any(a: bool, b: bool) -> bool
    ensures { result ≡ (a || b) }
{
    a || b
}

/// Whether a struct's path was taken before.
fn see_struct(seen: &mut SeenPaths, path: &[u8]) -> Result<bool, OutOfMemory>
    ensures taken { IfOk result (λ taken. taken ≡ (stands_in seen.old.types path.now || stands_in seen.old.variants path.now)) }
    ensures types { OnOk result (SameTexts seen.new.types (path.now ∷ seen.old.types)) }
    ensures functions { OnOk result (seen.new.functions ≡ seen.old.functions) }
    ensures structs { OnOk result (SameTexts seen.new.structs (path.now ∷ seen.old.structs)) }
    ensures variants { OnOk result (seen.new.variants ≡ seen.old.variants) }
{
    let is_variant = stands(&seen.variants, path);
    let new_type = is_new(&mut seen.types, path)?;
    let _ = is_new(&mut seen.structs, path)?;
    Ok(any(!new_type, is_variant))
}

/// Whether the path of a variant is that of a struct.
fn see_variant(structs: &Names, variants: &mut Names, path: &[u8]) -> Result<bool, OutOfMemory>
    ensures taken { IfOk result (λ taken. taken ≡ stands_in structs.now path.now) }
    ensures seen { OnOk result (SameTexts variants.new (path.now ∷ variants.old)) }
{
    let taken = stands(structs, path);
    let _ = is_new(variants, path)?;
    Ok(taken)
}

/// Puts the name of a variant behind the path of its enum, which is the front of the buffer.
fn put_variant(
    buffer: &mut List<u8>,
    strings: &Names,
    len: usize,
    name: u32,
) -> Result<(), OutOfMemory>
    ensures { OnOk result (buffer.new ≡ take len buffer.old ++ (codes "::" ++ string_at strings.now name)) }
{
    buffer.truncate(len);
    put_name(buffer, strings, name)
}

/// Whether the path of one of the variants is that of a struct. The buffer has the path of the enum.
fn see_variants(
    buffer: &mut List<u8>,
    strings: &Names,
    structs: &Names,
    variants: &mut Names,
    texts: &[VariantText],
) -> Result<bool, OutOfMemory>
    ensures taken { IfOk result (λ taken. taken ≡ any_stands structs.now (map (variant_path strings.now buffer.old) texts.now)) }
    ensures seen { OnOk result (SameTexts variants.new (map (variant_path strings.now buffer.old) texts.now ++ variants.old)) }
{
    let len = buffer.len();
    let mut taken = false;
    let mut left = texts;
    'variants: while let [text, rest @ ..] = left {
        put_variant(buffer, strings, len, text.name)?;
        let is_struct = see_variant(structs, variants, buffer.as_slice())?;
        taken = any(taken, is_struct);
        left = rest;
    }
    Ok(taken)
}

/// Whether an enum's path was taken before, or that of one of its variants.
fn see_enum(
    buffer: &mut List<u8>,
    strings: &Names,
    seen: &mut SeenPaths,
    texts: &[VariantText],
) -> Result<bool, OutOfMemory>
    ensures taken { IfOk result (λ taken. taken ≡ (stands_in seen.old.types buffer.old || any_stands seen.old.structs (map (variant_path strings.now buffer.old) texts.now))) }
    ensures types { OnOk result (SameTexts seen.new.types (buffer.old ∷ seen.old.types)) }
    ensures functions { OnOk result (seen.new.functions ≡ seen.old.functions) }
    ensures structs { OnOk result (seen.new.structs ≡ seen.old.structs) }
    ensures variants { OnOk result (SameTexts seen.new.variants (map (variant_path strings.now buffer.old) texts.now ++ seen.old.variants)) }
{
    let new_type = is_new(&mut seen.types, buffer.as_slice())?;
    let taken = see_variants(buffer, strings, &seen.structs, &mut seen.variants, texts)?;
    Ok(any(!new_type, taken))
}

/// Whether the path of a function or an outside function was taken before.
fn see_function(seen: &mut SeenPaths, path: &[u8]) -> Result<bool, OutOfMemory>
    ensures taken { IfOk result (λ taken. taken ≡ stands_in seen.old.functions path.now) }
    ensures types { OnOk result (seen.new.types ≡ seen.old.types) }
    ensures functions { OnOk result (SameTexts seen.new.functions (path.now ∷ seen.old.functions)) }
    ensures structs { OnOk result (seen.new.structs ≡ seen.old.structs) }
    ensures variants { OnOk result (seen.new.variants ≡ seen.old.variants) }
{
    let new_function = is_new(&mut seen.functions, path)?;
    Ok(!new_function)
}

/// Notes S10 where an item clashes with one that was seen, and sees it.
fn note_clash(
    buffer: &mut List<u8>,
    strings: &Names,
    seen: &mut SeenPaths,
    notes: &mut Noted,
    line: u32,
    part: &ItemText,
) -> Result<(), OutOfMemory>
    ensures notes { OnOk result (notes.new ≡ noted notes.old (on_line line (unless (not (meets seen.old (defined_at strings.now line part.now))) 10))) }
    ensures saw { OnOk result (Saw seen.old seen.new (defined_at strings.now line part.now)) }
{
    match part {
        ItemText::Struct(path, _) => {
            put_path(buffer, strings, path)?;
            let taken = see_struct(seen, buffer.as_slice())?;
            notes.note_unless(!taken, line, 10);
            Ok(())
        }
        ItemText::Enum(path, variants) => {
            put_path(buffer, strings, path)?;
            let taken = see_enum(buffer, strings, seen, variants.items.as_slice())?;
            notes.note_unless(!taken, line, 10);
            Ok(())
        }
        ItemText::Extern(path, _, _) => {
            put_path(buffer, strings, path)?;
            let taken = see_function(seen, buffer.as_slice())?;
            notes.note_unless(!taken, line, 10);
            Ok(())
        }
        ItemText::Function(function) => {
            put_path(buffer, strings, &function.path)?;
            let taken = see_function(seen, buffer.as_slice())?;
            notes.note_unless(!taken, line, 10);
            Ok(())
        }
    }
}

/// Notes S10 on the line of each item whose path stands twice: a struct or an enum, or a function, of the same path stands before it, or
/// an enum with such a variant before a struct, or the other way round.
///
/// # Errors
///
/// `OutOfMemory`.
pub fn note_clashes(
    alloc: Global,
    strings: &Names,
    notes: &mut Noted,
    items: &[Lined<ItemText>],
) -> Result<(), OutOfMemory>
    ensures { OnOk result (notes.new ≡ noted notes.old (path_faults [] (map (defined_as strings.now) items.now))) }
{
    let mut seen = SeenPaths {
        types: Names::new(alloc),
        functions: Names::new(alloc),
        structs: Names::new(alloc),
        variants: Names::new(alloc),
    };
    let mut buffer = List::new(alloc);
    let mut left = items;
    'items: while let [item, rest @ ..] = left {
        note_clash(
            &mut buffer,
            strings,
            &mut seen,
            notes,
            item.line,
            &item.part,
        )?;
        left = rest;
    }
    Ok(())
}
