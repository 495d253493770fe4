// The top call.

ghost use Rattle.std.specs.Prelude.{◌≡◌, ◌<◌, ◌≤◌, ◌⊎◌, ◌↔◌, [], None, IsSomeAnd};
ghost use Rattle.ss_io.specs.Outside.{Rose, Grew};
ghost use Rattle.ss_top_sources.specs.Sources.{IsRefused};
ghost use Rattle.ss_top.specs.Runs.{HasRun, FailsAt};
ghost use Rattle.ss_top.specs.Answers.{asked_by, file_of, OfFile, IsHeadline, IsToldVerified, IsExpanded, IsSpent, IsStopped, IsUnadmitted, IsToldUnproved, IsToldUndecided, IsWrittenInPart, IsVerify, IsRun, IsRunUnverified, IsExpand, Verifies, IfRefused, IfUnproved, IfUndecided, IfStopped, IfFailed, IsVerified, IsSilent, WhereWithinReach, Concludes, ReadsOnly};

use crate::source::answer_source;
use ss_io::{Files, ReadStop, Sink};
use ss_lexer::MAX_BYTES;
use ss_report::Status;
use ss_top_words::read_words;
use std::alloc::Global;

/// Does what the words say. `verify FILE` verifies the program of the file and writes the verdict. `run FILE` verifies it and runs it where
/// it is verified, and `run FILE --unverified` runs it with all its checks. `expand FILE` writes its core program. Verification searches
/// as far as `--rounds`, `--splits` and `--instances` say. A run has as many steps as `--steps` says, and the numbers after FILE are its
/// input.
pub fn specsharp<F: Files, S: Sink>(
    alloc: Global,
    words: &[String],
    files: &mut F,
    out: &mut S,
) -> Status
    ensures bad_words { (result ≡ Status.BadWords) ↔ (asked_by words.now ≡ None) }
    ensures read_fault { result ≡ Status.ReadFault → IsSomeAnd (file_of words.now) (λ name. F.faults files.old name < F.faults files.new name) }
    ensures refused { IfRefused result (λ rule at. OfFile (asked_by words.now) (F.told files.old) (λ asked source. IsRefused source rule at)) }

    ensures headline { IsVerified result → OfFile (asked_by words.now) (F.told files.old) (λ asked source. Verifies asked.command → IsHeadline source) }
    ensures verified { result ≡ Status.Ended → OfFile (asked_by words.now) (F.told files.old) (λ asked source. IsVerify asked.command → IsToldVerified (S.taken out.old) (S.taken out.new) source) }
    ensures ended { result ≡ Status.Ended → OfFile (asked_by words.now) (F.told files.old) (λ asked source. IsRun asked.command → IsHeadline source × HasRun asked.steps asked.input (S.taken out.old) (S.taken out.new) source) }
    ensures ran { result ≡ Status.Ended → OfFile (asked_by words.now) (F.told files.old) (λ asked source. IsRunUnverified asked.command → HasRun asked.steps asked.input (S.taken out.old) (S.taken out.new) source) }
    ensures expanded { result ≡ Status.Ended → OfFile (asked_by words.now) (F.told files.old) (λ asked source. IsExpand asked.command → IsExpanded (S.taken out.old) (S.taken out.new) source) }
    ensures steps_spent { result ≡ Status.StepsSpent → OfFile (asked_by words.now) (F.told files.old) (λ asked source. IsSpent asked.command asked.steps asked.input (S.taken out.old) (S.taken out.new) source) }
    ensures stopped { IfStopped result (λ place. OfFile (asked_by words.now) (F.told files.old) (λ asked source. IsStopped place asked.command asked.steps asked.input (S.taken out.old) (S.taken out.new) source)) }
    ensures failed { IfFailed result (λ kind place. OfFile (asked_by words.now) (F.told files.old) (λ asked source. IsRunUnverified asked.command × FailsAt kind place asked.steps asked.input (S.taken out.old) (S.taken out.new) source)) }
    ensures not_admitted { result ≡ Status.NotAdmitted → OfFile (asked_by words.now) (F.told files.old) (λ asked source. IsUnadmitted asked.command asked.input (S.taken out.old) (S.taken out.new) source) }
    ensures unproved { IfUnproved result (λ countered undecided. OfFile (asked_by words.now) (F.told files.old) (λ asked source. Verifies asked.command × IsToldUnproved asked.limits countered undecided (S.taken out.old) (S.taken out.new) source)) }
    ensures undecided { IfUndecided result (λ undecided. OfFile (asked_by words.now) (F.told files.old) (λ asked source. Verifies asked.command × IsToldUndecided asked.limits undecided (S.taken out.old) (S.taken out.new) source)) }

    ensures complete { WhereWithinReach (asked_by words.now) (F.told files.old) (Concludes result) }

    ensures write_fault { result ≡ Status.WriteFault → Rose (S.faults out.old) (S.faults out.new) }
    ensures written { result ≡ Status.WriteFault → OfFile (asked_by words.now) (F.told files.old) (λ asked source. IsWrittenInPart asked.limits asked.steps asked.input (S.taken out.old) (S.taken out.new) asked.command source) }
    ensures memory { result ≡ Status.Memory → Grew (S.taken out.old) (S.taken out.new) []
        ⊎ OfFile (asked_by words.now) (F.told files.old) (λ asked source. IsWrittenInPart asked.limits asked.steps asked.input (S.taken out.old) (S.taken out.new) asked.command source) }
    ensures silent { IsSilent result → Grew (S.taken out.old) (S.taken out.new) [] }

    ensures stays { F.told files.new ≡ F.told files.old }
    ensures reads { ReadsOnly (file_of words.now) (F.faults files.old) (F.faults files.new) }
    ensures writes { S.faults out.old ≤ S.faults out.new }
{
    let asked = match read_words(alloc, words) {
        Ok(Some(asked)) => asked,
        Ok(None) => return Status::BadWords,
        Err(_) => return Status::Memory,
    };
    match files.read(alloc, asked.file, MAX_BYTES + 1) {
        Ok(source) => answer_source(alloc, &asked, &source, out),
        Err(ReadStop::Failed) => Status::ReadFault,
        Err(ReadStop::Memory) => Status::Memory,
    }
}
