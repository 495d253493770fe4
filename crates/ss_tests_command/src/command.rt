// The top call.

ghost use Rattle.std.specs.Prelude.{◌≡◌, ◌↔◌, None};
ghost use Rattle.ss_top_sources.specs.Sources.{IsRefused};
ghost use Rattle.ss_top.specs.Runs.{FailsAt};
ghost use Rattle.ss_top.specs.Answers.{asked_by, OfFile, IsHeadline, IsExpanded, IsSpent, IsToldUnproved, IsRunUnverified, IsExpand, Verifies, IfRefused, IfUnproved, IfFailed, IsVerified};

use ss_io::{Files, Sink};
use ss_report::Status;
use ss_top::specsharp;
use std::alloc::Global;

/// The answer to the words.
pub fn answer_to_words<F: Files, S: Sink>(
    alloc: Global,
    words: &[String],
    files: &mut F,
    out: &mut S,
) -> Status
    ensures bad_words { (result ≡ Status.BadWords) ↔ (asked_by words.now ≡ None) }
    ensures refused { IfRefused result (λ rule at. OfFile (asked_by words.now) (F.told files.old) (λ asked source. IsRefused source rule at)) }
    ensures headline { IsVerified result → OfFile (asked_by words.now) (F.told files.old) (λ asked source. Verifies asked.command → IsHeadline source) }
    ensures expanded { result ≡ Status.Ended → OfFile (asked_by words.now) (F.told files.old) (λ asked source. IsExpand asked.command → IsExpanded (S.taken out.old) (S.taken out.new) source) }
    ensures steps_spent { result ≡ Status.StepsSpent → OfFile (asked_by words.now) (F.told files.old) (λ asked source. IsSpent asked.command asked.steps asked.input (S.taken out.old) (S.taken out.new) source) }
    ensures failed { IfFailed result (λ kind place. OfFile (asked_by words.now) (F.told files.old) (λ asked source. IsRunUnverified asked.command × FailsAt kind place asked.steps asked.input (S.taken out.old) (S.taken out.new) source)) }
    ensures unproved { IfUnproved result (λ countered undecided. OfFile (asked_by words.now) (F.told files.old) (λ asked source. Verifies asked.command × IsToldUnproved asked.limits countered undecided (S.taken out.old) (S.taken out.new) source)) }
{
    specsharp(alloc, words, files, out)
}
