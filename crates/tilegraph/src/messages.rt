//! What the program says on standard error once a run has ended.

use script_run::WRONG_WORDS;

/// How the program is called.
const USAGE: &str = concat!(
    "usage: tilegraph run SCRIPT [OPTION]..\n",
    "       tilegraph make NUMBER\n",
    "SCRIPT: the plain name of a file in the current folder, as script.txt, and not ./script.txt\n",
    "OPTION: --resident N (tiles in memory, 1 to 32768), --cache N (computed tiles kept, 1 to 65536),\n",
    "        --swap-blocks N (4 KiB each in the swap, 1 to 1048576), --workers N (threads, 1 to 16)\n",
    "NUMBER: 0 to 4294967295, of a script and a raster that are made and run in memory\n",
);

/// Returns what a status means, in at most six lines. There are none at 0, and none at 2, where the last line of standard
/// output says which line of the script is refused, and why.
pub fn message_of(status: u8) -> &'static str {
    match status {
        WRONG_WORDS => USAGE,
        3 => "tilegraph: a file could not be read: the script, or a raster that it loads\n",
        4 => "tilegraph: a file could not be written: is the disk full, or the folder read-only?\n",
        5 => concat!(
            "tilegraph: the swap file failed, which is made in the current folder as .tilegraph-swap:\n",
            "is the disk full, or the folder read-only? With a larger --resident less of it is used.\n",
        ),
        6 => "tilegraph: a text could not be printed: is standard output closed, or full?\n",
        7 => "tilegraph: memory ran out: a smaller --resident or --cache takes less\n",
        8 => "tilegraph: the swap is full: a larger --swap-blocks or --resident holds more tiles\n",
        _ => "",
    }
}
