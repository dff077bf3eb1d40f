//! Laws on what texts read as, as functions with empty bodies.
#![tactic(auto)]

ghost use Rattle.std.specs.Prelude.{◌≡◌, ℕ, List, map, length, None};
ghost use Rattle.text_forms.specs.Form.{Lexeme};
ghost use Rattle.text_forms.specs.Lexical.{Lexes, StopsAt};
ghost use Rattle.ir_types.specs.declared.memory_type.TypeName.{TypeName};
ghost use Rattle.ir_types.specs.declared.memory_type.NamedType.TheVariants.{Missing as MissingType};
ghost use Rattle.ir_types.specs.declared.module.Symbol.{Symbol};
ghost use Rattle.ir_types.specs.declared.module.SymbolKind.TheVariants.{Missing};
ghost use Rattle.ir_types.specs.declared.module.Module.{Module};
ghost use Rattle.ir_types.specs.Denotes.{type_names_of, Denotes};
ghost use Rattle.ir_types.specs.ItemForms.{SpellsModule};
ghost use Rattle.ir_types.specs.Numbered.{numbered_module};
ghost use Rattle.ir_types.specs.Reads.{Reads};
ghost use Rattle.ir_types.specs.Tree.{WrittenFunction, Item, ModuleTree};
ghost use Rattle.ir_text_laws.specs.Readings.{ReadsAsNone, SpellNone, AreFrom};

/// A text reads as at most one tree, and has at most one list of items.
pub fn one_reading()
    ensures tree { (text : List ℕ) (t u : ModuleTree) → Reads text t → Reads text u → t ≡ u }
    ensures items { (text : List ℕ) (t u : ModuleTree)
        → (r : Reads text t) (s : Reads text u) → r.numbered ≡ s.numbered }
{}

/// No tree is read where at some place there is no token, or where the tokens spell no module, or where a thing without a
/// name finds no number.
pub fn no_reading()
    ensures stopped { (text : List ℕ) (place : ℕ) → StopsAt text place → ReadsAsNone text }
    ensures unspelled { (text : List ℕ) (tokens : List Lexeme)
        → Lexes text tokens → SpellNone tokens → ReadsAsNone text }
    ensures unnumbered { (text : List ℕ) (tokens : List Lexeme) (written : List (Item WrittenFunction))
        → Lexes text tokens → SpellsModule written tokens → numbered_module written ≡ None
        → ReadsAsNone text }
{}

/// A text has at most one list of tokens.
pub fn one_list_of_tokens()
    ensures { (text : List ℕ) (ts us : List Lexeme) → Lexes text ts → Lexes text us → ts ≡ us }
{}

/// A text has no token at one place at most, up to which it has tokens.
pub fn one_stop()
    ensures { (text : List ℕ) (i j : ℕ) → StopsAt text i → StopsAt text j → i ≡ j }
{}

/// A text with tokens has no place with none.
pub fn tokens_without_a_stop()
    ensures { (text : List ℕ) (tokens : List Lexeme) (place : ℕ)
        → Lexes text tokens → StopsAt text place → ⊥ }
{}

/// In a module's lists the names that are only used stand behind those that are defined or declared, and nowhere else.
pub fn only_used_names_stand_behind()
    ensures types { (m : Module) (tree : ModuleTree) → Denotes m tree
        → AreFrom TypeName (λ n. n.ty ≡ MissingType) (length tree.type_names) m.type_names }
    ensures symbols { (m : Module) (tree : ModuleTree) → Denotes m tree
        → AreFrom Symbol (λ s. s.kind ≡ Missing) (length tree.symbols) m.symbols }
{}

/// Modules that denote one tree have the same names of types and of symbols, in the same order.
pub fn same_modules_have_the_same_names()
    ensures types { (m n : Module) (tree : ModuleTree) → Denotes m tree → Denotes n tree
        → type_names_of m ≡ type_names_of n }
    ensures symbols { (m n : Module) (tree : ModuleTree) → Denotes m tree → Denotes n tree
        → map (λ (s : Symbol). s.name) m.symbols ≡ map (λ (s : Symbol). s.name) n.symbols }
{}
