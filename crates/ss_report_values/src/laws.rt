//! Laws: what is told of a term, or of a field, is so in the model.

ghost use Rattle.std.specs.Prelude.{◌≡◌, ℕ, List, Bool, Some};
ghost use Rattle.ss_logic.specs.Terms.{Term};
ghost use Rattle.ss_logic.specs.Formulas.{Formula};
ghost use Rattle.ss_logic.specs.Occurring.{terms};
ghost use Rattle.ss_logic_countermodels.specs.Refuting.{Agrees, model_of};
ghost use Rattle.ss_report_values.specs.declared.literals.Value.{Value};
ghost use Rattle.ss_report_values.specs.Fields.{read_term, HasFieldValue};
ghost use Rattle.ss_report_values.specs.Literals.{value_at};
ghost use Rattle.ss_report_values.specs.Said.{Occurs, IsTheValue};

/// Where a model agrees with a ground form, the value told of a term is that of the only literal in its class.
pub fn values_are_those_of_the_model()
    ensures { (fs : List Formula) (classes : List ℕ) (truths : List Bool) → Agrees (model_of fs classes truths) fs → (t : Term) (v : Value) → value_at (terms fs) classes t ≡ Some v → IsTheValue (model_of fs classes truths) fs t v }
{}

/// Where a model agrees with a ground form, the value that is told of a field is right. Each term that reads it of an object and in a
/// store of these classes has it.
pub fn fields_are_those_of_the_model()
    ensures { (fs : List Formula) (classes : List ℕ) (truths : List Bool) → Agrees (model_of fs classes truths) fs → (store object field : ℕ) (v : Value) → HasFieldValue (terms fs) classes store object field v →
        (s o : Term) → Occurs fs (read_term field s o) → (model_of fs classes truths).class s ≡ store → (model_of fs classes truths).class o ≡ object → IsTheValue (model_of fs classes truths) fs (read_term field s o) v }
{}
