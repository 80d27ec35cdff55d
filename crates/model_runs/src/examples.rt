//! Runs of small scripts, worked out by hand.
#![tactic(auto, unfolding(crate::specs::Examples::digits, script_words::specs::Numbers::natural_in, model_images::specs::Image::at, model_images::specs::Raw::raw, model_images::specs::Abyss::abyss_at, model_images::specs::Abyss::raw_with, model_images::specs::Level::level, crate::specs::MadeJob::draws, crate::specs::MadeJob::fills, crate::specs::MadeJob::state_after_draws))]

ghost use Rattle.std.specs.Prelude.{◌≡◌, [], ◌∷◌, ◌++◌, codes, slice_index_or, take, None, Some};
ghost use Rattle.script_words.specs.Words.{joined};
ghost use Rattle.plane_rect.specs.Rectangle.{empty};
ghost use Rattle.outside_io.specs.Files.{Files};
ghost use Rattle.model_runs.specs.Events.{Puts, Refusal};
ghost use Rattle.model_runs.specs.declared.cause.Cause.TheVariants as causes;
ghost use Rattle.script_read.specs.declared.command.Command.TheVariants as commands;
ghost use Rattle.model_runs.specs.Examples.{HasRaster, fill, filled_twice, grab, inverted_raster, outcome_of, part_of_zeros, render, row_from, exposed, watched_edits};
ghost use Rattle.model_runs.specs.MadeJob.{draws, fills};
ghost use Rattle.model_runs.specs.Words.{MakeJob, RunScript, default_options, request_of};
ghost use Rattle.model_runs.specs.Swap.{effects_to_stop, tiles_in};

/// States that a raster of 64 and 255 is inverted. A region without positions is an empty file.
pub fn an_inverted_raster()
    ensures events { (files : Files) → HasRaster (64 ∷ 255 ∷ []) files →
        (outcome_of [] files (inverted_raster ++ render (row_from 0 2) (codes "out.raw") ∷ render empty (codes "none.raw") ∷ [])).events
        ≡ exposed (codes "out.raw") (191 ∷ 0 ∷ []) (codes "render 6 commit 1 bytes 2")
        ++ exposed (codes "none.raw") [] (codes "render 7 commit 1 bytes 0")
        ++ Puts (codes "report applied 1 reused 0\n") ∷ [] }
    ensures none_refused { (files : Files) → HasRaster (64 ∷ 255 ∷ []) files →
        (outcome_of [] files (inverted_raster ++ render (row_from 0 2) (codes "out.raw") ∷ [])).refused ≡ None }
{}

/// States that a raster of three bytes for two positions is refused at its line, and nothing after it is done.
pub fn a_raster_of_a_wrong_size()
    ensures events { (files : Files) → HasRaster (0 ∷ 64 ∷ 128 ∷ []) files →
        (outcome_of [] files inverted_raster).events ≡ Puts (codes "line 2: WrongSize\n") ∷ [] }
    ensures refused { (files : Files) → HasRaster (0 ∷ 64 ∷ 128 ∷ []) files →
        (outcome_of [] files inverted_raster).refused
        ≡ Some (record { line = 2; cause = causes.WrongSize }) }
{}

/// States that a part of a buffer shares its samples. A position that the part doesn't have can't be filled through it.
pub fn a_part_of_a_buffer()
    ensures { (files : Files) → (outcome_of [] files (part_of_zeros
        ++ fill (codes "s") (row_from 2 1) 7 ∷ grab (codes "a") (row_from 0 4) (codes "o") ∷ fill (codes "s") (row_from 0 1) 9 ∷ [])).events
        ≡ exposed (codes "o") (0 ∷ 0 ∷ 7 ∷ 0 ∷ []) (codes "grab 4 bytes 4") ++ Puts (codes "line 5: OutOfBounds\n") ∷ [] }
{}

/// Works out frames of a viewer that saw the first commit, the second and the last.
pub fn a_watch()
    ensures { (files : Files) → (outcome_of (((1 ∷ 2 ∷ 3 ∷ []) ∷ []) ∷ []) files watched_edits).events
        ≡ exposed (codes "w.0.0") (254 ∷ 254 ∷ []) (codes "frame 6 0 0 commit 1 bytes 2")
        ++ exposed (codes "w.0.1") (253 ∷ 254 ∷ []) (codes "frame 6 0 1 commit 2 bytes 2")
        ++ exposed (codes "w.0.2") (252 ∷ 254 ∷ []) (codes "frame 6 0 2 commit 3 bytes 2")
        ++ Puts (codes "report applied 0 reused 0\n") ∷ [] }
{}

/// Works out lines that are refused: nothing to undo, a node that is not there, and a buffer that is not.
pub fn refused_lines()
    ensures undo { (files : Files) → (outcome_of [] files (commands.Undo ∷ [])).events ≡ Puts (codes "line 1: NothingToUndo\n") ∷ [] }
    ensures node { (files : Files) → (outcome_of [] files (render (row_from 0 2) (codes "o") ∷ [])).events ≡ Puts (codes "line 1: UnknownNode\n") ∷ [] }
    ensures buffer { (files : Files) → (outcome_of [] files (commands.Commit ∷ grab (codes "a") (row_from 0 2) (codes "o") ∷ [])).events
        ≡ Puts (codes "line 2: UnknownBuffer\n") ∷ [] }
{}

/// States that a tile is filled before a file is written, and once more after it. Where no text was put the run stopped at the
/// file's line, and the tile after it doesn't count.
pub fn tiles_of_fills()
    ensures all { (files : Files) → tiles_in 100 (effects_to_stop None (filled_twice files)) ≡ 3 }
    ensures to_the_file { (files : Files) → tiles_in 100 (effects_to_stop (Some []) (filled_twice files)) ≡ 2 }
{}

/// States that a script alone has the default options. Options stand before and after it, with their values in the next word or
/// after `=`.
pub fn words_of_runs()
    ensures alone { request_of (codes "run" ∷ codes "s.txt" ∷ []) ≡ Some (RunScript (codes "s.txt") default_options) }
    ensures options { request_of (codes "run" ∷ codes "--cache" ∷ codes "5" ∷ codes "s" ∷ codes "--swap-blocks=0000007" ∷ [])
        ≡ Some (RunScript (codes "s") (record default_options { cache = 5; swap_blocks = 7 })) }
    ensures largest { request_of (codes "run" ∷ codes "s" ∷ codes "--workers=16" ∷ codes "--resident=32768" ∷ [])
        ≡ Some (RunScript (codes "s") (record default_options { workers = 16; resident = 32768 })) }
{}

/// Works out words that are in no grammar: an option twice, one past its range, a value of eight digits, an option of no name, no
/// script, and two.
pub fn words_of_nothing()
    ensures twice { request_of (codes "run" ∷ codes "s" ∷ codes "--cache" ∷ codes "5" ∷ codes "--cache=5" ∷ []) ≡ None }
    ensures too_many { request_of (codes "run" ∷ codes "s" ∷ codes "--workers=17" ∷ []) ≡ None }
    ensures long { request_of (codes "run" ∷ codes "s" ∷ codes "--cache=00000005" ∷ []) ≡ None }
    ensures unknown { request_of (codes "run" ∷ codes "s" ∷ codes "-x" ∷ codes "5" ∷ []) ≡ None }
    ensures no_script { request_of (codes "run" ∷ codes "--cache=5" ∷ []) ≡ None }
    ensures two_scripts { request_of (codes "run" ∷ codes "s" ∷ codes "t" ∷ []) ≡ None }
{}

/// States that a job is made of a number below 2^32. Works out the first numbers of job 0 and its second fill.
pub fn made_jobs()
    ensures largest { request_of (codes "make" ∷ codes "4294967295" ∷ []) ≡ Some (MakeJob 4294967295) }
    ensures too_large { request_of (codes "make" ∷ codes "4294967296" ∷ []) ≡ None }
    ensures draws { draws 11 0 ≡ 60 ∷ 71 ∷ 209 ∷ 170 ∷ 98 ∷ 159 ∷ 87 ∷ 163 ∷ 129 ∷ 148 ∷ 203 ∷ [] }
    ensures fill { take 20 (joined (slice_index_or (fills 2 0) 1 [])) ≡ codes "fill a 163 129 21 12" }
{}
