// Why nothing is lost by the shape.

ghost use Rattle.std.specs.Prelude.{◌≡◌, List, Some};
ghost use Rattle.ss_core.specs.Tree.{ClassTree};
ghost use Rattle.ss_logic.specs.Formulas.{Formula};
ghost use Rattle.ss_logic_means.specs.Steps as tree;
ghost use Rattle.ss_logic_means.specs.Steps.{Derives};
ghost use Rattle.ss_deriv.specs.Trees.{EndsEachCase};

/// What derives a goal ends each case: lines of another shape derive nothing.
pub fn what_derives_ends_each_case()
    ensures { (cs : List ClassTree) (premises : List Formula) (goal : Formula) (lines : List tree.Line) → Derives cs premises goal lines → EndsEachCase lines }
{}
