//! What is known of each module, and of what texts read as, in laws: functions with empty bodies.
#![tactic(auto)]

ghost use Rattle.std.specs.Prelude.{ℕ, List};
ghost use Rattle.ir_types.specs.declared.module.Module.{Module};
ghost use Rattle.ir_types.specs.Tree.{ModuleTree};
ghost use Rattle.ir_types.specs.Denotes.{tree_of, Denotes};
ghost use Rattle.ir_types.specs.Reads.{Reads};
ghost use Rattle.ir_shape.specs.Shape.{HasShape, IsPrintable};
ghost use Rattle.ir_shape.specs.Narrow.{IsNarrow};
ghost use Rattle.ir_shape.specs.Modules.{IsModule};
ghost use Rattle.ir_shape.specs.Placed.{IsPlaced};

/// The tree that a text reads as has the shape of a module: it is what items are collected to, whose names are proper ones, whose types are
/// written, and whose kept tokens are those of their forms; each instruction has the operands, the labels and the result of its kind, and
/// each block ends with its one terminator. Only an instruction that is wide has an operand that is out of range.
pub fn what_is_read_has_shape()
    ensures { (text : List ℕ) (tree : ModuleTree) → Reads text tree → HasShape tree }
{}

/// What denotes the tree that a text reads as is a module.
pub fn what_is_read_is_a_module()
    ensures { (text : List ℕ) (m : Module) → Reads text (tree_of m) → Denotes m (tree_of m) → IsModule m }
{}

/// A tree with the shape of a module can be printed where no instruction is wide: then none has an operand that is out of range.
pub fn narrow_is_printable()
    ensures { (tree : ModuleTree) → HasShape tree → IsNarrow tree → IsPrintable tree }
{}

/// In a module each position is one of its list: that of a local name in its function's table of names, those of types, of their names, of
/// symbols and of functions in the module's lists; and each type stands behind its parts.
pub fn module_is_placed()
    ensures { (m : Module) → IsModule m → IsPlaced m }
{}
