ghost use Rattle.std.specs.Prelude.{◌≡◌, ◌∷◌, ◌++◌, [], map, length, IsTrue, IfOk, OnOk};
ghost use Rattle.std.specs.List.{list_all};
ghost use Rattle.mir_syntax.specs.Tree.{trees_of};
ghost use Rattle.mir_syntax.specs.Crate.{function_of};
ghost use Rattle.mir_syntax.specs.Ids.{function_below};
ghost use Rattle.mir_text.specs.Names as n;
ghost use Rattle.mir_text.specs.Naming.{function_named, function_in, functions_in};
ghost use Rattle.mir_text.specs.NamedBodies.{or_else};
ghost use Rattle.mir_text.specs.NameFaults.{each, fn_faults};
ghost use Rattle.mir_text.specs.PartLines as p;
ghost use Rattle.mir_text.specs.ReadLines.{fn_lines, fn_lines_in, first_of, wrong_in_item, wrong_field_in};
ghost use Rattle.mir_tree.specs.Rules.{fn_rule, lined_fn, lined_item, lined_item_at, item_of};
ghost use Rattle.mir_file.specs.Items.{rules_of, fn_faults_in, fn_text_faults, Noticed};
ghost use Rattle.mir_file.specs.Functions.{Knows};

use crate::blocks::{first_line_of, read_blocks};
use crate::heads::read_head;
use crate::paths::FilePaths;
use mir_bodies::{Labels, Scope};
use mir_names::Names;
use mir_resolve::{Draft, copy_path};
use mir_syntax::{Body, FnLines, Function, List, OutOfMemory};
use mir_tree::{ArgText, FnText, ItemText, Lined};
use std::alloc::Global;

/// A function with the lines of its parts, and the first line of a field that is written with another type than the definition's.
#[derive(Drop)]
struct ReadFunction {
    function: Function,
    lines: FnLines,
    wrong_field: Option<u32>,
}

/// Functions with the lines of their parts, and the first line of a field that is written with another type than the definition's.
#[derive(Drop)]
pub struct ReadFunctions {
    pub functions: List<Function>,
    pub lines: List<FnLines>,
    pub wrong_field: Option<u32>,
}

impl ReadFunctions {
    fn push(&mut self, read: ReadFunction) -> Result<(), OutOfMemory>
        ensures functions { OnOk result (self.new.functions ≡ self.old.functions ++ read.function ∷ []) }
        ensures lines { OnOk result (self.new.lines ≡ self.old.lines ++ read.lines ∷ []) }
        ensures wrong { OnOk result (self.new.wrong_field ≡ or_else self.old.wrong_field read.wrong_field) }
    {
        self.functions.push(read.function)?;
        self.lines.push(read.lines)?;
        self.wrong_field = first_line_of(self.wrong_field, read.wrong_field);
        Ok(())
    }
}

/// How many arguments there are. So many that a `u32` doesn't count them are want of memory.
fn count_args(args: &[Lined<ArgText>]) -> Result<u32, OutOfMemory>
    ensures { IfOk result (λ count. count ≡ length args.now) }
{
    let count = args.len();
    if count >= 1 << 31 {
        return Err(OutOfMemory);
    }
    Ok(count as u32)
}

/// Reads a function, with its faults noted on their lines.
fn read_function(
    alloc: Global,
    strings: &Names,
    paths: &FilePaths,
    draft: &mut Draft,
    line: u32,
    text: &FnText,
) -> Result<ReadFunction, OutOfMemory>
    ghost names: { n.Names }
    requires { Knows strings.now paths.now draft.old.program names }
    ensures function { IfOk result (λ read. function_of (trees_of draft.new.program.types) read.function ≡ function_named names (fn_rule text.now)) }
    ensures inside { IfOk result (λ read. IsTrue (function_below (length draft.new.program.types) read.function)) }
    ensures lines { IfOk result (λ read. read.lines ≡ fn_lines (lined_fn line text.now)) }
    ensures wrong { IfOk result (λ read. read.wrong_field ≡ first_of (wrong_in_item names (p.function (lined_fn line text.now)))) }
    ensures went { OnOk result (Noticed draft.old draft.new (fn_faults names (lined_fn line text.now))) }
{
    let head = read_head(alloc, strings, &paths.defs, draft, line, text)?;
    let blocks = text.blocks.as_slice();
    let labels = Labels::new(alloc, blocks)?;
    let scope = Scope {
        strings,
        paths: &paths.defs,
        functions: &paths.functions,
        outsides: &paths.outsides,
        locals: &head.locals,
        labels: &labels,
    };
    let found = read_blocks(alloc, &scope, draft, blocks)?;
    let path = copy_path(alloc, &mut draft.scratch.path, strings, &text.path)?;
    let args = count_args(text.args.items.as_slice())?;
    let function = Function {
        path,
        inline: text.inline,
        is_drop: text.is_drop,
        body: Body {
            args,
            locals: head.types,
            blocks: found.blocks,
        },
    };
    let lines = FnLines {
        head: line,
        locals: head.lines,
        blocks: found.lines,
    };
    Ok(ReadFunction {
        function,
        lines,
        wrong_field: found.wrong_field,
    })
}

/// Reads an item where it is a function.
fn read_item(
    alloc: Global,
    strings: &Names,
    paths: &FilePaths,
    draft: &mut Draft,
    found: &mut ReadFunctions,
    line: u32,
    part: &ItemText,
) -> Result<(), OutOfMemory>
    ghost names: { n.Names }
    requires knows { Knows strings.now paths.now draft.old.program names }
    requires inside { IsTrue (list_all (function_below (length draft.old.program.types)) found.old.functions) }
    ensures functions { OnOk result (map (function_of (trees_of draft.new.program.types)) found.new.functions
        ≡ map (function_of (trees_of draft.old.program.types)) found.old.functions ++ function_in names (item_of (lined_item_at line part.now))) }
    ensures inside { OnOk result (IsTrue (list_all (function_below (length draft.new.program.types)) found.new.functions)) }
    ensures lines { OnOk result (found.new.lines ≡ found.old.lines ++ fn_lines_in (lined_item_at line part.now)) }
    ensures wrong { OnOk result (found.new.wrong_field ≡ or_else found.old.wrong_field (first_of (wrong_in_item names (lined_item_at line part.now)))) }
    ensures went { OnOk result (Noticed draft.old draft.new (fn_faults_in names (lined_item_at line part.now))) }
{
    match part {
        ItemText::Struct(_, _) => Ok(()),
        ItemText::Enum(_, _) => Ok(()),
        ItemText::Extern(_, _, _) => Ok(()),
        ItemText::Function(text) => {
            let read = read_function(alloc, strings, paths, draft, line, text)?;
            found.push(read)?;
            Ok(())
        }
    }
}

/// The functions of a file, over a program with its definitions. Their faults are noted on their lines. Each item is let go once it is read.
///
/// # Errors
///
/// `OutOfMemory`.
pub fn read_functions(
    alloc: Global,
    strings: &Names,
    paths: &FilePaths,
    draft: &mut Draft,
    items: List<Lined<ItemText>>,
) -> Result<ReadFunctions, OutOfMemory>
    ghost names: { n.Names }
    requires { Knows strings.now paths.now draft.old.program names }
    ensures functions { IfOk result (λ found. map (function_of (trees_of draft.new.program.types)) found.functions ≡ functions_in names (rules_of items)) }
    ensures inside { IfOk result (λ found. IsTrue (list_all (function_below (length draft.new.program.types)) found.functions)) }
    ensures lines { IfOk result (λ found. found.lines ≡ each fn_lines_in (map lined_item items)) }
    ensures wrong { IfOk result (λ found. found.wrong_field ≡ wrong_field_in names (map lined_item items)) }
    ensures went { OnOk result (Noticed draft.old draft.new (each (fn_text_faults names) items)) }
{
    let mut found = ReadFunctions {
        functions: List::new(alloc),
        lines: List::new(alloc),
        wrong_field: None,
    };
    'items: for item in items.into_vec() {
        read_item(
            alloc, strings, paths, draft, &mut found, item.line, &item.part,
        )?;
        drop(item);
    }
    Ok(found)
}
