// A law over the obligations of a formed program.

ghost use Rattle.ss_core.specs.Tree.{CoreTree};
ghost use Rattle.ss_store_rules.specs.Formed.{IsFormed};
ghost use Rattle.ss_vcgen_heaps.specs.Obligations.{obligations};
ghost use Rattle.ss_vcgen_safe.specs.Formed.{AreFormed};

/// Each premise and each goal of the obligations of a formed program is a well formed formula.
pub fn obligations_are_well_formed()
    ensures { (c : CoreTree) → IsFormed c → AreFormed c.classes (obligations c) }
{}
