// How modules run.

ghost use Rattle.ir_types.specs.Tree.{ModuleTree};
ghost use Rattle.ir_run_laws.specs.Courses.{RunsGoOn};

/// A run that is undefined or has returned stays so, and the events of a run only grow.
pub fn runs_go_on()
    ensures { (m : ModuleTree) → RunsGoOn m }
{}
