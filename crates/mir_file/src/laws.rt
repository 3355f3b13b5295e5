ghost use Rattle.std.specs.Prelude.{◌≡◌, List};
ghost use Rattle.mir_text.specs.Names.{Strings, Names, names_of};
ghost use Rattle.mir_text.specs.Naming.{crate_named};
ghost use Rattle.mir_text.specs.NameFaults.{name_faults};
ghost use Rattle.mir_text.specs.PartLines.{LinedItem};
ghost use Rattle.mir_text.specs.ReadLines.{lines_named};
ghost use Rattle.mir_tree.specs.declared.item.FileText.{FileText};
ghost use Rattle.mir_tree.specs.Rules.{lined_items, file_of, IsTreeOf};

/// What a file names doesn't depend on its `debug` lines and scopes: each derivation that a tree is one of names what the tree's own does.
pub fn scopes_name_nothing()
    ensures names { (strings : Strings) (file : FileText) (items : List LinedItem) → IsTreeOf file items → names_of strings (file_of (lined_items file)) ≡ names_of strings (file_of items) }
    ensures crate_is { (strings : Strings) (file : FileText) (items : List LinedItem) → IsTreeOf file items → crate_named strings (file_of (lined_items file)) ≡ crate_named strings (file_of items) }
    ensures lines { (names : Names) (file : FileText) (items : List LinedItem) → IsTreeOf file items → lines_named names (lined_items file) ≡ lines_named names items }
    ensures faults { (names : Names) (file : FileText) (items : List LinedItem) → IsTreeOf file items → name_faults names (lined_items file) ≡ name_faults names items }
{}
