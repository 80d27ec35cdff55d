//! Runs over devices that fail. What each must leave was computed apart, from whole images.

use crate::contents::Content::{self, Bands, Bytes, Hashed};
use crate::examples::Case;
use crate::examples::End::{Refused, Report};
use crate::examples::Line::{self, Does, Writes};
use crate::examples::refusals::REPORT;

/// A job of twenty lines: buffers, their parts and duplicates, nodes, levels and an undo.
const EDITING: [Line; 20] = [
    Does("buffer a Y8 0 0 128 128\n"),
    Does("fill a 0 0 128 128 200\n"),
    Does("fill a 64 64 64 64 240\n"),
    Does("dup b a\n"),
    Does("fill b 40 40 1 1 100\n"),
    Does("copy a b 64 64 64 64 -64 0\n"),
    Does("sub c b 32 32 64 64\n"),
    Writes(
        "grab c 1 CLAMP 8 8 32 32 g1\n",
        "grab 8 bytes 1024\n",
        Hashed(1024, 0x86da_e361_c5d5_c572),
    ),
    Does("node s source b\n"),
    Does("node i invert s\n"),
    Does("node m box 2 CLAMP i\n"),
    Does("node o add i m\n"),
    Does("commit\n"),
    Writes(
        "render o 0 32 32 64 64 r1\n",
        "render 14 commit 1 bytes 4096\n",
        Hashed(4096, 0xe9d4_9c9f_a5ef_c3fd),
    ),
    Does("fill b 100 100 8 8 255\n"),
    Does("commit\n"),
    Writes(
        "render m 2 8 8 24 24 r2\n",
        "render 17 commit 2 bytes 576\n",
        Hashed(576, 0xe9f9_c58d_572a_513a),
    ),
    Does("undo\n"),
    Writes(
        "render o 0 88 48 40 32 r3\n",
        "render 19 commit 3 bytes 1280\n",
        Hashed(1280, 0x1da8_d416_1a8d_eaa5),
    ),
    Writes(
        "grab a 0 LOOP -8 40 80 40 g2\n",
        "grab 20 bytes 3200\n",
        Hashed(3200, 0xd155_ad61_47d7_7d25),
    ),
];

/// The job with a cache that has room for all of its pairs.
pub const EDITING_JOB: Case = Case {
    lines: &[&EDITING],
    end: Report("report applied 17 reused 23\n"),
};

/// The same with a cache of 8 tiles, as many as its widest strip.
pub const EDITING_JOB_IN_8: Case = Case {
    lines: &[&EDITING],
    end: Report("report applied 20 reused 20\n"),
};

/// The same with a cache of 7 tiles.
pub const EDITING_JOB_IN_7: Case = Case {
    lines: &[&EDITING],
    end: Refused(1, "line 14: Strip\n"),
};

/// The rows of a buffer of two tiles.
const TWO_TILES: Content = Bands(&[(64, &[(64, 1), (64, 2)])]);

/// A buffer of two tiles, four times in a file.
pub const FOUR_GRABS: Case = Case {
    lines: &[&[
        Does("buffer a Y8 0 0 128 64\n"),
        Does("fill a 0 0 64 64 1\n"),
        Does("fill a 64 0 64 64 2\n"),
        Writes(
            "grab a 0 NONE 0 0 128 64 g1\n",
            "grab 4 bytes 8192\n",
            TWO_TILES,
        ),
        Writes(
            "grab a 0 NONE 0 0 128 64 g2\n",
            "grab 5 bytes 8192\n",
            TWO_TILES,
        ),
        Writes(
            "grab a 0 NONE 0 0 128 64 g3\n",
            "grab 6 bytes 8192\n",
            TWO_TILES,
        ),
        Writes(
            "grab a 0 NONE 0 0 128 64 g4\n",
            "grab 7 bytes 8192\n",
            TWO_TILES,
        ),
    ]],
    end: Report(REPORT),
};

/// A buffer and its duplicate, written on either side.
pub const EITHER_SIDE: Case = Case {
    lines: &[&[
        Does("buffer a Y8 0 0 2 1\n"),
        Does("fill a 0 0 2 1 10\n"),
        Does("dup b a\n"),
        Does("fill a 0 0 1 1 20\n"),
        Writes(
            "grab a 0 NONE 0 0 2 1 o1\n",
            "grab 5 bytes 2\n",
            Bytes(b"\x14\x0a"),
        ),
        Writes(
            "grab b 0 NONE 0 0 2 1 o2\n",
            "grab 6 bytes 2\n",
            Bytes(b"\x0a\x0a"),
        ),
        Does("fill b 1 0 1 1 30\n"),
        Writes(
            "grab a 0 NONE 0 0 2 1 o3\n",
            "grab 8 bytes 2\n",
            Bytes(b"\x14\x0a"),
        ),
        Writes(
            "grab b 0 NONE 0 0 2 1 o4\n",
            "grab 9 bytes 2\n",
            Bytes(b"\x0a\x1e"),
        ),
    ]],
    end: Report(REPORT),
};

/// A raster is loaded, and then what was written of it.
pub const TWO_LOADS: Case = Case {
    lines: &[&[
        Does("buffer a Y8 0 0 2 2\n"),
        Does("load a 0 0 2 2 in.raw\n"),
        Writes(
            "grab a 0 CLAMP 0 1 2 2 g1\n",
            "grab 3 bytes 4\n",
            Bytes(b"\x80\xff\x80\xff"),
        ),
        Does("load a 0 0 2 2 g1\n"),
        Writes(
            "grab a 0 NONE 0 0 2 2 g2\n",
            "grab 5 bytes 4\n",
            Bytes(b"\x80\xff\x80\xff"),
        ),
    ]],
    end: Report(REPORT),
};

/// A buffer of four tiles, each of a block of the swap.
pub const FOUR_TILES: Case = Case {
    lines: &[&[
        Does("buffer a Y8 0 0 256 64\n"),
        Does("fill a 0 0 64 64 1\n"),
        Does("fill a 64 0 64 64 2\n"),
        Does("fill a 128 0 64 64 3\n"),
        Does("fill a 192 0 64 64 4\n"),
    ]],
    end: Report(REPORT),
};
