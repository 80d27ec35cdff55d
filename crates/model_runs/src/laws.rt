//! What holds of runs.

ghost use Rattle.std.specs.Prelude.{◌≡◌, ◌<◌, ◌≤◌, ℕ, List, Some, length, slice_index_or};
ghost use Rattle.model_runs.specs.Words.{Options, RunScript, request_of};
ghost use Rattle.model_runs.specs.Laws.{AllFit, AreInRange};
ghost use Rattle.model_runs.specs.Run.{effects_of, events_in};
ghost use Rattle.model_runs.specs.State.{Numbers, Watched};
ghost use Rattle.model_runs.specs.Watching.{AreViewersNumbers};
ghost use Rattle.outside_io.specs.Files.{Files};
ghost use Rattle.script_read.specs.declared.command.Line.{Line};

/// States that how many tiles the cache holds changes no file and no text but the report, unless it holds too few for a line.
pub fn cache_sizes_change_no_raster()
    ensures { (capacity other : ℕ) (numbers : Numbers) (files : Files) (lines : List Line) →
        AllFit (effects_of capacity numbers files lines) → AllFit (effects_of other numbers files lines) →
        events_in (effects_of capacity numbers files lines) ≡ events_in (effects_of other numbers files lines) }
{}

/// States that each frame of a viewer shows a commit from that of the watch's line to that of its end.
pub fn frames_show_commits_of_the_watch()
    ensures opened { (watched : Watched) (numbers : List ℕ) (i : ℕ) →
        AreViewersNumbers watched numbers → i < length numbers → watched.watching.opened ≤ slice_index_or numbers i 0 }
    ensures ended { (watched : Watched) (numbers : List ℕ) (i : ℕ) →
        AreViewersNumbers watched numbers → i < length numbers → slice_index_or numbers i 0 ≤ watched.ended }
{}

/// States that the options that words ask for are in their ranges.
pub fn options_are_in_range()
    ensures { (words : List (List ℕ)) (script : List ℕ) (options : Options) →
        request_of words ≡ Some (RunScript script options) → AreInRange options }
{}
