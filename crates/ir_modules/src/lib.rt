//! What a module is, in laws and examples; modules that are made by code.
#![tactic(auto)]

ghost use Rattle.text_lex.specs.Layout.{text_of};
ghost use Rattle.ir_types.specs.declared.module.Module.{Module};
ghost use Rattle.ir_types.specs.Denotes.{tree_of};
ghost use Rattle.ir_types.specs.Reads.{Reads};
ghost use Rattle.ir_shape.specs.Modules.{IsModule};
ghost use Rattle.ir_rules.specs.WellFormed.{KeepsRules};
ghost use Rattle.ir_printer.specs.Print.{module_pieces};
ghost use Rattle.ir_modules.specs.Examples.{example, named_twice, part_behind, without_extent, stray_type_name, stray_symbol, used_with_text, other_place, name_lacking, without_end, greatest_as_word};

mod examples;

pub use examples::made;

/// What is a module, and breaks no rule, is printed as a text that reads as its tree, whether it was read or made by code.
pub fn what_keeps_the_rules_is_printed()
    ensures { (m : Module) → IsModule m → KeepsRules (tree_of m) → Reads (text_of (module_pieces (tree_of m))) (tree_of m) }
{}

/// A small module is one. Others that lack one part each are none: with a name that stands in a function's table twice, a type before its part, a
/// type without its extent, a name of a type or a symbol that nothing uses, a symbol that is only used and has a text, a function's symbol for
/// another place, a name that the table lacks, a block without a terminator, an operator that no word spells.
pub fn worked_modules()
    ensures one { IsModule example }
    ensures tables { IsModule named_twice → ⊥ }
    ensures types { IsModule part_behind → ⊥ }
    ensures extents { IsModule without_extent → ⊥ }
    ensures type_names { IsModule stray_type_name → ⊥ }
    ensures symbols { IsModule stray_symbol → ⊥ }
    ensures bare { IsModule used_with_text → ⊥ }
    ensures functions { IsModule other_place → ⊥ }
    ensures names { IsModule name_lacking → ⊥ }
    ensures ending { IsModule without_end → ⊥ }
    ensures operators { IsModule greatest_as_word → ⊥ }
{}
