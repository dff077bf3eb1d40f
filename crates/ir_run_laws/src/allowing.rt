// What a module allows.

ghost use Rattle.std.specs.Prelude.{◌+◌, ◌*◌, ◌≤◌, ℕ};
ghost use Rattle.ir_types.specs.Tree.{ModuleTree};
ghost use Rattle.ir_meaning.specs.Allows.{Allows};
ghost use Rattle.ir_run_laws.specs.Courses.{OneWorldServes};

/// A module allows itself.
pub fn module_allows_itself()
    ensures { (m : ModuleTree) → Allows m m 1 }
{}

/// What an allowed module allows is allowed: with the factors i and j, j at least 1, with the factor j(i + 1).
pub fn allowing_composes()
    ensures { (a b c : ModuleTree) (i j : ℕ) → 1 ≤ j
        → Allows a b i → Allows b c j → Allows a c (j * (i + 1)) }
{}

/// What is allowed with a factor is allowed with each greater one.
pub fn allowing_grows()
    ensures { (a b : ModuleTree) (c d : ℕ) → c ≤ d → Allows a b c → Allows a b d }
{}

/// Where a module allows another, one world of the read module serves at all horizons: that none does is absurd.
pub fn one_world_serves()
    ensures { (read printed : ModuleTree) (c : ℕ) → Allows read printed c → OneWorldServes read printed c }
{}
