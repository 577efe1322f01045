//! What answers mean for marks and for the files that readers are shown.

ghost use Rattle.std.specs.Prelude.{◌≡◌, ◌+◌, ◌-◌, ◌≤◌, ℕ, Bool, IsTrue, List, length};
ghost use Rattle.flow_manifest.specs.Following.{front_of, messages_of, sources_of};
ghost use Rattle.flow_manifest.specs.Manifest.{IsValidManifest};
ghost use Rattle.flow_model.specs.Changes.{applied, Change};
ghost use Rattle.flow_model.specs.Changes.Change.{added};
ghost use Rattle.flow_model.specs.Shelf.{Rollup, Segment};
ghost use Rattle.flow_model.specs.Shelved.{shelf_of};
ghost use Rattle.flow_model.specs.State.{Job, StagedFile, State};
ghost use Rattle.flow_archive.specs.declared.event.Answer.{Answer};
ghost use Rattle.flow_archive.specs.Answers.{AnswersAppend, AnswersSeal};
ghost use Rattle.flow_archive.specs.JobAnswers.{AnswersInstall};
ghost use Rattle.flow_archive.specs.Marks.{made_change, made_mark, HasMark};

use flow_snapshot::Mark;

/// After the call that makes a step its mark may be asked for: after an append or a batch with the numbers of its
/// messages, after a seal with the sealed file, after an install with the file that the job had made and the count of
/// its sources.
pub fn marks_of_answers()
    ensures appended { (closed : Bool) (s after : State) (octets : List (List ℕ)) (position : ℕ) → 1 ≤ length octets
        → AnswersAppend closed s octets (Ok position) after
        → HasMark after (Mark.Added (position + 1 - length octets) position) }
    ensures sealed { (honest closed : Bool) (s after : State) (file : ℕ) → AnswersSeal honest closed s (Ok file) after
        → HasMark after (Mark.Sealed file) }
    ensures installed { (honest closed : Bool) (s after : State) (job : Job) (staged : StagedFile) (answer : Answer)
        → IsValidManifest s.manifest → s.job ≡ Some job → job.staged ≡ Some staged
        → AnswersInstall honest closed s (Ok answer) after
        → HasMark after (made_mark job.kind staged.file job.sources) }
{}

/// What an event makes of the files that readers are shown, on every disk: an append adds its messages; a seal closes a
/// segment of the sealed file's number, and the new one has its prefix; an install puts a file of the number that the
/// job had made in place of so many sources. On an honest disk they hold what the archive wrote; on any other a sealed
/// file, and an installed one, may hold anything.
pub fn shelves_of_answers()
    ensures appended { (closed : Bool) (s after : State) (octets : List (List ℕ)) (position : ℕ)
        → AnswersAppend closed s octets (Ok position) after → shelf_of after ≡ applied (shelf_of s) (added octets) }
    ensures sealed { (honest closed : Bool) (s after : State) (file : ℕ) → IsValidManifest s.manifest
        → length s.parts ≡ length (front_of s.manifest) → AnswersSeal honest closed s (Ok file) after
        → (segment : Segment) × (segment.file ≡ file)
        × (IsTrue honest → (segment.prefix ≡ s.active.front) × (segment.messages ≡ s.active.messages))
        × (shelf_of after ≡ applied (shelf_of s) (Change.sealed segment after.active.front)) }
    ensures installed { (honest closed : Bool) (s after : State) (job : Job) (staged : StagedFile) (answer : Answer)
        → IsValidManifest s.manifest → length s.parts ≡ length (front_of s.manifest)
        → s.job ≡ Some job → job.staged ≡ Some staged → AnswersInstall honest closed s (Ok answer) after
        → (rollup : Rollup) × (rollup.file ≡ staged.file) × (IsTrue honest → rollup.octets ≡ staged.octets)
        × (rollup.messages ≡ messages_of (sources_of job.kind job.sources s.manifest.entries))
        × (shelf_of after ≡ applied (shelf_of s) (made_change job.kind rollup job.sources)) }
{}
