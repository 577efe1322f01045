//! What a state of an archive means.

ghost use Rattle.std.specs.Prelude.{◌≡◌, ◌≤◌, ◌<◌, ◌%◌, ℕ, List, [], ◌∷◌, ◌++◌, length};
ghost use Rattle.flow_manifest.specs.declared.following.JobKind.{JobKind};
ghost use Rattle.flow_manifest.specs.declared.manifest.Manifest.{Manifest};
ghost use Rattle.flow_manifest.specs.Manifest.{IsValidManifest};
ghost use Rattle.flow_manifest.specs.Following.{count_of, front_of, messages_of, source_of, sources_of};
ghost use Rattle.flow_measure.specs.History.{Accepted, AreAcceptedFrom, History};
ghost use Rattle.flow_measure.specs.Sums.{empty_table, merged, Table};
ghost use Rattle.flow_measure.specs.View.{View};
ghost use Rattle.flow_rolled.specs.Rollup.{IsRollup};
ghost use Rattle.flow_segment.specs.Carry.{octets_of, prefix_of, Carry};
ghost use Rattle.flow_model.specs.Changes.{added, history_after, new_history};
ghost use Rattle.flow_model.specs.Views.{IsViewOf};
ghost use Rattle.flow_model.specs.State.{appended, empty_state, after_seal, Part, StagedFile, State};
ghost use Rattle.flow_model.specs.Jobs.{IsJobSum, IsSourceSum, IsStagedAt};
ghost use Rattle.flow_model.specs.Jobs.{history_made, replaced, source_parts, table_made, width_made};
ghost use Rattle.flow_model.specs.Chain.{HandsOn, IsChained};
ghost use Rattle.flow_model.specs.Shelved.{shelf_of, HasHistory};
ghost use Rattle.flow_model.specs.Standing.{HoldsFiles, PartsStand};

/// A state whose files are an archive's has a view, and no other: the sums of its wide and rolled files, and the
/// messages of its segments, each accepted after those before it.
pub fn one_view_of_a_state()
    ensures there { (s : State) → IsChained s → (v : View) × IsViewOf (shelf_of s) v }
    ensures one { (s : State) (v w : View) → IsValidManifest s.manifest → IsViewOf (shelf_of s) v
        → IsViewOf (shelf_of s) w → v ≡ w }
{}

/// What the events of an archive mean. A new archive has an empty history. Messages that are accepted with the
/// templates that it passes on are added to its history; a seal leaves the history as it is.
pub fn events_and_history()
    ensures start { (width wide limit : ℕ) → 0 < width → 0 < wide → wide % width ≡ 0
        → HasHistory (empty_state width wide limit) (new_history width wide) }
    ensures added { (s : State) (c : Carry) (more : List Accepted) (h : History) → IsValidManifest s.manifest
        → HandsOn s c → AreAcceptedFrom c.templates more → HasHistory s h
        → HasHistory (appended s (octets_of more)) (history_after h (added (octets_of more))) }
    ensures sealed { (s : State) (c : Carry) (h : History) → IsValidManifest s.manifest → HandsOn s c
        → 1 ≤ length s.active.messages → HasHistory s h → HasHistory (after_seal s (prefix_of c)) h }
{}

/// What jobs mean. A job adds the sums of one source after the other, which are the sums of the history's messages in
/// these sources. Its file of sums takes the place of its sources. A roll of the oldest segments, by the width, raises
/// the cut by their messages, a merge of the oldest rolled files, by the wide width, the second cut, and nothing else
/// of the history changes. The archive passes on the same carry. A disk that holds the files of the state before, and
/// the file of sums, holds those of the state after the install.
pub fn jobs_and_history()
    ensures hands_on { (s : State) (c : Carry) (kind : JobKind) (count : ℕ) (file : StagedFile) (table : Table)
        → IsValidManifest s.manifest → HandsOn s c → count ≤ count_of (source_of kind) s.manifest.entries
        → IsRollup (width_made kind s.manifest) file.octets table → HandsOn (replaced s kind count file) c }
    ensures holds { (s : State) (c : Carry) (kind : JobKind) (count : ℕ) (file : StagedFile) (table : Table)
        (image : ℕ → List ℕ) → IsValidManifest s.manifest → HandsOn s c
        → count ≤ count_of (source_of kind) s.manifest.entries
        → IsRollup (width_made kind s.manifest) file.octets table → IsStagedAt (image file.file) file
        → HoldsFiles image s → HoldsFiles image (replaced s kind count file) }
    ensures none { (kind : JobKind) (m : Manifest) → IsJobSum kind m [] (empty_table (width_made kind m)) }
    ensures more { (kind : JobKind) (m : Manifest) (parts : List Part) (part : Part) (sums one : Table)
        → IsJobSum kind m parts sums → IsSourceSum kind m part one
        → IsJobSum kind m (parts ++ part ∷ []) (merged sums one) }
    ensures sums { (s : State) (c : Carry) (h : History) (image : ℕ → List ℕ) (kind : JobKind) (count : ℕ)
        (table : Table) → IsValidManifest s.manifest → HandsOn s c
        → PartsStand image (front_of s.manifest) s.parts → HasHistory s h
        → count ≤ count_of (source_of kind) s.manifest.entries
        → IsJobSum kind s.manifest (source_parts kind count s) table
        → table ≡ table_made kind s.manifest (messages_of (sources_of kind count s.manifest.entries)) h }
    ensures history { (s : State) (c : Carry) (h : History) (image : ℕ → List ℕ) (kind : JobKind) (count : ℕ)
        (file : StagedFile) → IsValidManifest s.manifest → HandsOn s c
        → PartsStand image (front_of s.manifest) s.parts → HasHistory s h
        → count ≤ count_of (source_of kind) s.manifest.entries
        → IsRollup (width_made kind s.manifest) file.octets
        (table_made kind s.manifest (messages_of (sources_of kind count s.manifest.entries)) h)
        → HasHistory (replaced s kind count file)
        (history_made kind (messages_of (sources_of kind count s.manifest.entries)) h) }
{}
