ghost use Rattle.std.specs.Prelude.{◌≡◌, ◌∷◌, ◌++◌, [], map, length, IsTrue, IfOk, OnOk};
ghost use Rattle.std.specs.List.{list_all};
ghost use Rattle.mir_syntax.specs.Tree.{trees_of};
ghost use Rattle.mir_text.specs.Naming.{declares, declared};
ghost use Rattle.mir_tree.specs.Bodies.{lined};
ghost use Rattle.mir_tree.specs.Rules.{arg_rule, part_arg, fn_rule};
ghost use Rattle.mir_resolve.specs.Definitions.{before_defs, Went};
ghost use Rattle.mir_bodies.specs.Locals.{declared_in};
ghost use Rattle.mir_file.specs.Items.{Noticed};
ghost use Rattle.mir_file.specs.Declarations.{declared_below, declaration_codes, declarations_faults};

use mir_bodies::Locals;
use mir_names::Names;
use mir_resolve::{Draft, PathIndex, read_noted};
use mir_syntax::OutOfMemory;
use mir_tree::{ArgText, FnText, Lined};
use std::alloc::Global;

/// Reads a declaration. S12 is noted where a path in its type isn't known, and S14 where its local is declared already.
fn read_declaration(
    alloc: Global,
    strings: &Names,
    paths: &PathIndex,
    draft: &mut Draft,
    locals: Locals,
    line: u32,
    text: &ArgText,
) -> Result<Locals, OutOfMemory>
    requires { IsTrue (list_all (declared_below (length draft.old.program.types)) locals) }
    ensures declared { IfOk result (λ more. declared_in (trees_of draft.new.program.types) more
        ≡ declared_in (trees_of draft.old.program.types) locals ++ declares (before_defs strings.now paths.now) (arg_rule text.now) ∷ []) }
    ensures inside { IfOk result (λ more. IsTrue (list_all (declared_below (length draft.new.program.types)) more)) }
    ensures went { OnOk result (Went draft.old draft.new line (declaration_codes (before_defs strings.now paths.now) (declared_in (trees_of draft.old.program.types) locals) (arg_rule text.now))) }
{
    let stood = locals.get(text.local).is_some();
    let ty = read_noted(alloc, strings, paths, draft, line, &text.ty)?;
    draft.notes.note_unless(!stood, line, 14);
    let more = locals.with(text.local, ty)?;
    Ok(more)
}

fn read_declarations(
    alloc: Global,
    strings: &Names,
    paths: &PathIndex,
    draft: &mut Draft,
    mut locals: Locals,
    texts: &[Lined<ArgText>],
) -> Result<Locals, OutOfMemory>
    requires { IsTrue (list_all (declared_below (length draft.old.program.types)) locals) }
    ensures declared { IfOk result (λ more. declared_in (trees_of draft.new.program.types) more
        ≡ declared_in (trees_of draft.old.program.types) locals ++ map (λ a. declares (before_defs strings.now paths.now) (part_arg a)) texts.now) }
    ensures inside { IfOk result (λ more. IsTrue (list_all (declared_below (length draft.new.program.types)) more)) }
    ensures went { OnOk result (Noticed draft.old draft.new (declarations_faults (before_defs strings.now paths.now) (declared_in (trees_of draft.old.program.types) locals) (map (lined arg_rule) texts.now))) }
{
    let mut left = texts;
    'texts: while let [text, rest @ ..] = left {
        locals = read_declaration(alloc, strings, paths, draft, locals, text.line, &text.part)?;
        left = rest;
    }
    Ok(locals)
}

/// The locals that a function declares, its arguments first. S12 is noted where a path in a type isn't known, and S14 where a local is declared
/// again.
///
/// # Errors
///
/// `OutOfMemory`.
pub fn read_locals(
    alloc: Global,
    strings: &Names,
    paths: &PathIndex,
    draft: &mut Draft,
    function: &FnText,
) -> Result<Locals, OutOfMemory>
    ensures declared { IfOk result (λ locals. declared_in (trees_of draft.new.program.types) locals ≡ declared (before_defs strings.now paths.now) (fn_rule function.now)) }
    ensures inside { IfOk result (λ locals. IsTrue (list_all (declared_below (length draft.new.program.types)) locals)) }
    ensures went { OnOk result (Noticed draft.old draft.new (declarations_faults (before_defs strings.now paths.now) [] (map (lined arg_rule) function.now.args.items ++ map (lined arg_rule) function.now.lets))) }
{
    let none = Locals::new(alloc);
    let args = read_declarations(
        alloc,
        strings,
        paths,
        draft,
        none,
        function.args.items.as_slice(),
    )?;
    let locals = read_declarations(alloc, strings, paths, draft, args, function.lets.as_slice())?;
    Ok(locals)
}
