ghost use Rattle.std.specs.Prelude.{◌≡◌, ◌+◌, ◌-◌, take, length, List, map, IfOk, IfSome, OnOk, option_copied, option_map};
ghost use Rattle.mir_syntax.specs.Tree.{Tree, trees_of};
ghost use Rattle.mir_syntax.specs.Crate.{def_of, variant_of, field_of};
ghost use Rattle.mir_text.specs.Names.{string_at};
ghost use Rattle.mir_text.specs.Names as n;
ghost use Rattle.mir_text.specs.NamedBodies as named;
ghost use Rattle.mir_text.specs.NameFaults as faults;
ghost use Rattle.mir_tree.specs.Types.{path_rule};
ghost use Rattle.mir_tree.specs.Bodies.{build_rule};
ghost use Rattle.mir_bodies.specs.Scope.{Sense, Tells};
ghost use Rattle.mir_bodies.specs.Places.{name_of};
ghost use Rattle.mir_bodies.specs.Builds.{pair_of, pair_with, struct_by_path, variant_by_path, variant_by_rule, variant_of_pair, name_before, field_name};

use crate::Scope;
use crate::place::{variant_number, variants_of_def};
use mir_names::Names;
use mir_resolve::{put_path, string_of};
use mir_syntax::{Field, Form, List, OutOfMemory, Program, Variant};
use mir_tree::{BuildText, NamedText, PathText};

/// What is built: a struct, which has the variant 0, or an enum's variant.
#[derive(Clone, Copy, Debug, Drop)]
pub struct Built {
    pub def: u32,
    pub variant: u32,
}

/// The struct that a path names.
fn struct_named(scope: &Scope, program: &Program, path: &[u8]) -> Option<Built>
    ghost sense: { Sense }
    requires { Tells scope.now program.now sense }
    ensures { option_map pair_of result ≡ struct_by_path sense.names path.now }
{
    let def = scope.paths.find(path)?;
    let found = program.defs.get(def as usize)?;
    if found.is_enum {
        None
    } else {
        Some(Built { def, variant: 0 })
    }
}

fn with_variant(def: u32, variant: Option<u32>) -> Option<Built>
    ensures { option_map pair_of result ≡ option_map (pair_with def) variant }
{
    match variant {
        Some(variant) => Some(Built { def, variant }),
        None => None,
    }
}

/// The variant with a name of the enum with a number.
fn enum_variant(
    scope: &Scope,
    program: &Program,
    def: u32,
    name: u32,
) -> Result<Option<Built>, OutOfMemory>
    ghost sense: { Sense }
    requires { Tells scope.now program.now sense }
    ensures { IfOk result (λ built. option_map pair_of built ≡ named.enum_variant_at sense.names (string_at sense.names.strings name) def) }
{
    match variants_of_def(program, def) {
        Some(variants) => {
            let number = variant_number(variants, string_of(scope.strings, name))?;
            Ok(with_variant(def, number))
        }
        None => Ok(None),
    }
}

/// The variant with a name of the enum that a path names.
fn variant_named(
    scope: &Scope,
    program: &Program,
    path: &[u8],
    name: u32,
) -> Result<Option<Built>, OutOfMemory>
    ghost sense: { Sense }
    requires { Tells scope.now program.now sense }
    ensures { IfOk result (λ built. option_map pair_of built ≡ variant_by_path sense.names path.now (string_at sense.names.strings name)) }
{
    match scope.paths.find(path) {
        Some(def) => {
            let built = enum_variant(scope, program, def, name)?;
            Ok(built)
        }
        None => Ok(None),
    }
}

/// The bytes of a path without its last name, given those of the whole.
fn without_last<'a>(whole: &'a [u8], name: &[u8]) -> &'a [u8]
    ensures { result.now ≡ take (length whole.now - (length name.now + 2)) whole.now }
{
    let (front, _) = whole.split_at(whole.len().saturating_sub(name.len() + 2));
    front
}

/// The variant that a path names: of the enum before its last name, given the bytes of the path.
fn variant_by_last(
    scope: &Scope,
    program: &Program,
    whole: &[u8],
    path: &PathText,
) -> Result<Option<Built>, OutOfMemory>
    ghost sense: { Sense }
    requires tells { Tells scope.now program.now sense }
    requires bytes { whole.now ≡ n.path_bytes sense.names.strings (path_rule path.now) }
    ensures { IfOk result (λ built. option_map pair_of built ≡ variant_by_rule sense.names (path_rule path.now)) }
{
    match path.rest.as_slice().split_last() {
        Some((last, _)) => {
            let front = without_last(whole, string_of(scope.strings, *last));
            let built = variant_named(scope, program, front, *last)?;
            Ok(built)
        }
        None => Ok(None),
    }
}

/// What a path builds: a struct, or else a variant of the enum before its last name.
///
/// # Errors
///
/// `OutOfMemory`.
pub fn built_by(
    scope: &Scope,
    program: &Program,
    buffer: &mut List<u8>,
    path: &PathText,
) -> Result<Option<Built>, OutOfMemory>
    ghost sense: { Sense }
    requires { Tells scope.now program.now sense }
    ensures { IfOk result (λ built. option_map pair_of built ≡ named.built_by sense.names (path_rule path.now)) }
{
    put_path(buffer, scope.strings, path)?;
    match struct_named(scope, program, buffer.as_slice()) {
        Some(built) => Ok(Some(built)),
        None => {
            let built = variant_by_last(scope, program, buffer.as_slice(), path)?;
            Ok(built)
        }
    }
}

/// The variant that is built.
fn built_variant(program: &Program, built: Option<Built>) -> Option<&Variant>
    ensures { (names : n.Names) → names.defs ≡ map (def_of (trees_of program.now.types)) program.now.defs
        → option_map (variant_of (trees_of program.now.types)) (option_copied result) ≡ variant_of_pair names (option_map pair_of built) }
{
    let built = built?;
    let def = program.defs.get(built.def as usize)?;
    def.variants.get(built.variant as usize)
}

/// Whether the names before the operands are those of the fields, in order.
fn same_names(strings: &Names, named: &[NamedText], fields: &[Field]) -> bool
    ensures { result ≡ faults.same_texts (map (name_before strings.now) named.now) (map field_name fields.now) }
{
    let mut left = named;
    let mut others = fields;
    'names: while let [text, rest @ ..] = left {
        let [field, more @ ..] = others else {
            return false;
        };
        if string_of(strings, text.name) != field.name.as_slice() {
            return false;
        }
        left = rest;
        others = more;
    }
    others.is_empty()
}

/// Whether a build has the form of its variant, and its fields by their names in their order.
fn has_form(strings: &Names, variant: &Variant, parts: &BuildText) -> bool
    ensures { (names : n.Names) (trees : List Tree) → names.strings ≡ strings.now
        → result ≡ faults.has_form names variant.now.form (map (field_of trees) variant.now.fields) (build_rule parts.now) }
{
    match variant.form {
        Form::Unit => match parts {
            BuildText::Plain => true,
            BuildText::Tupled(_) | BuildText::Labelled(_) => false,
        },
        Form::Tuple => match parts {
            BuildText::Tupled(_) => true,
            BuildText::Plain | BuildText::Labelled(_) => false,
        },
        Form::Named => match parts {
            BuildText::Labelled(named) => {
                same_names(strings, named.items.as_slice(), variant.fields.as_slice())
            }
            BuildText::Plain | BuildText::Tupled(_) => false,
        },
    }
}

/// Whether a build names a struct or a variant, in its form.
pub fn fits(scope: &Scope, program: &Program, built: Option<Built>, parts: &BuildText) -> bool
    ghost sense: { Sense }
    requires { Tells scope.now program.now sense }
    ensures { result ≡ faults.variant_fits sense.names (build_rule parts.now) (variant_of_pair sense.names (option_map pair_of built)) }
{
    match built_variant(program, built) {
        Some(variant) => has_form(scope.strings, variant, parts),
        None => false,
    }
}
