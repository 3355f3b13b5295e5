ghost use Rattle.std.specs.Prelude.{◌≡◌, ◌&&◌, ◌∷◌, [], map, not, IfOk, OnOk};
ghost use Rattle.mir_text.specs.Names.{string_at};
ghost use Rattle.mir_text.specs.NameFaults.{stands_in, none_twice};
ghost use Rattle.mir_resolve.specs.Once.{SameTexts};

use crate::fields::both;
use crate::paths::string_of;
use mir_names::{NameFault, Names};
use mir_syntax::OutOfMemory;
use mir_tree::{FieldText, VariantText};
use std::alloc::Global;

/// Adds a text to those that stood before it, and says whether it is a new one.
///
/// # Errors
///
/// `OutOfMemory`.
pub fn is_new(seen: &mut Names, text: &[u8]) -> Result<bool, OutOfMemory>
    ensures new { IfOk result (λ new. new ≡ not (stands_in seen.old text.now)) }
    ensures seen { OnOk result (SameTexts seen.new (text.now ∷ seen.old)) }
{
    if seen.len() >= 1 << 30 {
        return Err(OutOfMemory);
    }
    match seen.add(text) {
        Ok(_) => Ok(true),
        Err(NameFault::Twice(_)) => Ok(false),
        Err(NameFault::OutOfMemory) => Err(OutOfMemory),
    }
}

/// Whether no name of a field stands twice.
///
/// # Errors
///
/// `OutOfMemory`.
pub fn fields_once(
    alloc: Global,
    strings: &Names,
    fields: &[FieldText],
) -> Result<bool, OutOfMemory>
    ensures { IfOk result (λ once. once ≡ none_twice [] (map (λ f. string_at strings.now f.name) fields.now)) }
{
    let mut seen = Names::new(alloc);
    let mut once = true;
    let mut left = fields;
    'names: while let [field, rest @ ..] = left {
        let new = is_new(&mut seen, string_of(strings, field.name))?;
        once = both(once, new);
        left = rest;
    }
    Ok(once)
}

/// Whether no name of a variant stands twice.
///
/// # Errors
///
/// `OutOfMemory`.
pub fn variants_once(
    alloc: Global,
    strings: &Names,
    variants: &[VariantText],
) -> Result<bool, OutOfMemory>
    ensures { IfOk result (λ once. once ≡ none_twice [] (map (λ v. string_at strings.now v.name) variants.now)) }
{
    let mut seen = Names::new(alloc);
    let mut once = true;
    let mut left = variants;
    'names: while let [variant, rest @ ..] = left {
        let new = is_new(&mut seen, string_of(strings, variant.name))?;
        once = both(once, new);
        left = rest;
    }
    Ok(once)
}
