//! What is listed of a file is the file's own.

ghost use Rattle.std.specs.Prelude.{◌≡◌, ◌<◌, ℕ, List, length};
ghost use Rattle.std.specs.FinMap.{FinMap};
ghost use Rattle.flow_measure.specs.declared.rows.Sums.{Sums};
ghost use Rattle.flow_measure.specs.Sums.{key_cmp};
ghost use Rattle.flow_model.specs.Shelved.{shelf_of};
ghost use Rattle.flow_model.specs.Standing.{StandsFor};
ghost use Rattle.flow_model.specs.State.{State};
ghost use Rattle.flow_snapshot.specs.Shares.{AreNarrow, AreWide};
ghost use Rattle.flow_commands.specs.ArchiveFiles.{alone, rows_in, starts_of, starts_of_file};

/// Where each file of an archive has a worker of its own, what falls to the worker is its file alone: so
/// `check --files` lists of each file when its own flows start.
pub fn each_file_alone()
    ensures { (reads : ℕ → List ℕ) (s : State) (wide narrow : List (FinMap key_cmp Sums)) (n : ℕ)
        → StandsFor reads s → AreWide (shelf_of s) wide → AreNarrow (shelf_of s) narrow
        → n < length s.manifest.entries
        → starts_of_file (shelf_of s) (length s.manifest.entries) wide narrow n
        ≡ starts_of (rows_in (alone (shelf_of s) wide narrow n)) }
{}
