ghost use Rattle.std.specs.Prelude.{◌≡◌, ℕ, ◌<◌, ◌||◌, IsTrue, Some, map, length, slice_get, option_map};
ghost use Rattle.std.specs.List.{list_any};
ghost use Rattle.mir_syntax.specs.declared.body.Function.{Function as FunctionData};
ghost use Rattle.mir_syntax.specs.declared.types.Outside.{Outside as OutsideData};
ghost use Rattle.mir_syntax.specs.Tree.{at_id, trees_of};
ghost use Rattle.mir_syntax.specs.Table.{all_below};
ghost use Rattle.mir_syntax.specs.Crate.{crate_of, function_of};
ghost use Rattle.mir_syntax.specs.Shapes.{shapes_of};
ghost use Rattle.mir_text.specs.NameFaults.{first_fault};
ghost use Rattle.mir_rules.specs.Broken.{gather};
ghost use Rattle.mir_rules.specs.Faults.{by_code};
ghost use Rattle.mir_rules.specs.Limits.{is_large_type, definition_passed, outside_passed, locals_passed, types_passed};
ghost use Rattle.mir_limits.specs.Answer.{at_code};

use crate::passed::earlier;
use crate::search::Search;
use mir_syntax::TyId;
use type_sizes::{is_large_def, is_large_type};

impl Search<'_> {
    fn any_large(&self, ids: &[TyId]) -> bool
        requires below { IsTrue (all_below (length self.now.program.now.types) ids.now) }
        ensures { result ≡ list_any (is_large_type (shapes_of (crate_of self.now.program.now))) (map (at_id (trees_of self.now.program.now.types)) ids.now) }
    {
        let mut rest = ids;
        'ids: while let [id, others @ ..] = rest {
            if is_large_type(self.program, self.sizes, *id) {
                return true;
            }
            rest = others;
        }
        false
    }

    fn definitions_line(&self) -> Option<u32>
        ensures { option_map (at_code 3) result ≡ first_fault (map (by_code self.now.lines.now) (gather (definition_passed (shapes_of (crate_of self.now.program.now))) 0 (crate_of self.now.program.now).defs)) }
    {
        let mut found = None;
        for at in 0..self.program.defs.len() {
            let is_large = is_large_def(self.program, self.sizes, at as u32);
            let line = self.lines.defs.as_slice()[at];
            found = earlier(found, is_large.then_some(line));
        }
        found
    }

    fn outside_is_large(&self, at: usize) -> bool
        requires there { at < length self.now.program.now.outsides }
        ensures { (out : OutsideData) → slice_get self.now.program.now.outsides at ≡ Some out
            → result ≡ (list_any (is_large_type (shapes_of (crate_of self.now.program.now))) (map (at_id (trees_of self.now.program.now.types)) out.args) || is_large_type (shapes_of (crate_of self.now.program.now)) (at_id (trees_of self.now.program.now.types) out.result)) }
    {
        let outside = &self.program.outsides.as_slice()[at];
        self.any_large(outside.args.as_slice())
            || is_large_type(self.program, self.sizes, outside.result)
    }

    fn outsides_line(&self) -> Option<u32>
        ensures { option_map (at_code 3) result ≡ first_fault (map (by_code self.now.lines.now) (gather (outside_passed (shapes_of (crate_of self.now.program.now))) 0 (crate_of self.now.program.now).outsides)) }
    {
        let mut found = None;
        for at in 0..self.program.outsides.len() {
            let is_large = self.outside_is_large(at);
            let line = self.lines.outsides.as_slice()[at];
            found = earlier(found, is_large.then_some(line));
        }
        found
    }

    /// The first line of a local of a function that has too large a type.
    fn function_locals_line(&self, at: usize) -> Option<u32>
        requires there { at < length self.now.program.now.functions }
        ensures { (function : FunctionData) → slice_get self.now.program.now.functions at ≡ Some function
            → option_map (at_code 3) result ≡ first_fault (map (by_code self.now.lines.now) (locals_passed (shapes_of (crate_of self.now.program.now)) at (function_of (trees_of self.now.program.now.types) function))) }
    {
        let locals = self.program.functions.as_slice()[at].body.locals.as_slice();
        let lines = self.lines.functions.as_slice()[at].locals.as_slice();
        let mut found = None;
        for x in 0..locals.len() {
            let is_large = is_large_type(self.program, self.sizes, locals[x]);
            found = earlier(found, is_large.then_some(lines[x]));
        }
        found
    }

    fn locals_line(&self) -> Option<u32>
        ensures { option_map (at_code 3) result ≡ first_fault (map (by_code self.now.lines.now) (gather (locals_passed (shapes_of (crate_of self.now.program.now))) 0 (crate_of self.now.program.now).functions)) }
    {
        let mut found = None;
        for at in 0..self.program.functions.len() {
            found = earlier(found, self.function_locals_line(at));
        }
        found
    }

    /// The first line at which too large a type stands: of a definition, an outside function or a local.
    pub fn types_line(&self) -> Option<u32>
        ensures { option_map (at_code 3) result ≡ first_fault (map (by_code self.now.lines.now) (types_passed (crate_of self.now.program.now))) }
    {
        let signatures = earlier(self.definitions_line(), self.outsides_line());
        earlier(signatures, self.locals_line())
    }
}
