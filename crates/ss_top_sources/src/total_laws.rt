// What holds of every source. No step of the program calls this.

ghost use Rattle.std.specs.Prelude.{ℕ, List};
ghost use Rattle.ss_top_sources.specs.Total.{IsAnswered};

/// Every source, however long and of whatever bytes, is accepted or refused: it has tokens and a resolved program, or a
/// rule that it breaks first and the place.
pub fn accepted_or_refused()
    ensures { (source : List ℕ) → IsAnswered source }
{}
