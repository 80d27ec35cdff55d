//! Runs that render nodes. What each must leave was computed apart, from whole images.

use crate::contents::Content::{Bytes, Hashed};
use crate::examples::Case;
use crate::examples::End::{Refused, Report};
use crate::examples::Line::{self, Does, Writes};

/// A raster is loaded and inverted.
const INVERTED: [Line; 6] = [
    Does("buffer a Y8 0 0 2 2\n"),
    Does("load a 0 0 2 2 in.raw\n"),
    Does("node s source a\n"),
    Does("node i invert s\n"),
    Does("commit\n"),
    Writes(
        "render i 0 0 0 2 2 out.raw\n",
        "render 6 commit 1 bytes 4\n",
        Bytes(b"\xff\xbf\x7f\x00"),
    ),
];

/// A raster is inverted.
pub const ONE_RENDER: Case = Case {
    lines: &[&INVERTED],
    end: Report("report applied 1 reused 0\n"),
};

/// Runs that render what one commit made.
pub const RENDERED: [Case; 9] = [
    ONE_RENDER,
    // A rectangle without a pixel is an empty file, and evaluates nothing.
    Case {
        lines: &[
            &INVERTED,
            &[Writes(
                "render i 0 0 0 0 0 none.raw\n",
                "render 7 commit 1 bytes 0\n",
                Bytes(b""),
            )],
        ],
        end: Report("report applied 1 reused 0\n"),
    },
    // Outside its box a node is zero, and not zero inverted.
    Case {
        lines: &[
            &INVERTED,
            &[Writes(
                "render i 0 -1 0 4 1 wide.raw\n",
                "render 7 commit 1 bytes 4\n",
                Bytes(b"\x00\xff\xbf\x00"),
            )],
        ],
        end: Report("report applied 1 reused 1\n"),
    },
    // A rectangle reaches above the box and to the right of it.
    Case {
        lines: &[
            &INVERTED,
            &[Writes(
                "render i 0 0 -1 4 2 wide.raw",
                "render 7 commit 1 bytes 8\n",
                Bytes(b"\x00\x00\x00\x00\xff\xbf\x00\x00"),
            )],
        ],
        end: Report("report applied 1 reused 1\n"),
    },
    // Blanks, comments, empty lines and carriage returns count as lines, and mean nothing else.
    Case {
        lines: &[&[
            Does("# invert a raster\r\n"),
            Does("\n"),
            Does("\tbuffer  a\tY8 0 0 2 2 \r\n"),
            Does("# its samples\n"),
            Does("load a 0 0 2 2 in.raw\n"),
            Does("node s source a\n"),
            Does("   # after blanks\n"),
            Does("node i invert s\n"),
            Does(" \t \n"),
            Does("commit\r\n"),
            Does("\r\n"),
            Writes(
                "render i 0 0 0 2 2 out.raw\n",
                "render 12 commit 1 bytes 4\n",
                Bytes(b"\xff\xbf\x7f\x00"),
            ),
            Does("#\n"),
            Writes(
                "render i 00 0 -1 4 2 wide.raw",
                "render 14 commit 1 bytes 8\n",
                Bytes(b"\x00\x00\x00\x00\xff\xbf\x00\x00"),
            ),
        ]],
        end: Report("report applied 1 reused 1\n"),
    },
    // The mean of a square that reaches outside the box is (9 + 4) div 9 under NONE, and (81 + 4) div 9 under CLAMP.
    // The grown box meets four tiles.
    Case {
        lines: &[&[
            Does("buffer a Y8 0 0 1 1\n"),
            Does("fill a 0 0 1 1 9\n"),
            Does("node s source a\n"),
            Does("node b box 1 NONE s\n"),
            Does("node c box 1 CLAMP s\n"),
            Does("commit\n"),
            Writes(
                "render b 0 -1 -1 3 3 r1\n",
                "render 7 commit 1 bytes 9\n",
                Bytes(b"\x01\x01\x01\x01\x01\x01\x01\x01\x01"),
            ),
            Writes(
                "render c 0 0 0 1 1 r2\n",
                "render 8 commit 1 bytes 1\n",
                Bytes(b"\x09"),
            ),
        ]],
        end: Report("report applied 5 reused 0\n"),
    },
    // A color is composited over another.
    Case {
        lines: &[&[
            Does("node t color RGBA8 0 0 1 1 100 0 0 128\n"),
            Does("node u color RGBA8 0 0 1 1 0 200 0 255\n"),
            Does("node o over t u\n"),
            Does("commit\n"),
            Writes(
                "render o 0 0 0 1 1 o.raw\n",
                "render 5 commit 1 bytes 4\n",
                Bytes(b"\x64\x64\x00\xff"),
            ),
        ]],
        end: Report("report applied 3 reused 0\n"),
    },
    // Levels of a node: (255 + 191 + 127 + 0 + 2) div 4, then a quarter of it at each level. The node's one tile is
    // evaluated once.
    Case {
        lines: &[
            &INVERTED,
            &[
                Writes(
                    "render i 1 0 0 1 1 r1\n",
                    "render 7 commit 1 bytes 1\n",
                    Bytes(b"\x8f"),
                ),
                Writes(
                    "render i 2 -1 0 2 1 r2\n",
                    "render 8 commit 1 bytes 2\n",
                    Bytes(b"\x00\x24"),
                ),
                Writes(
                    "render i 4 0 0 1 1 r4\n",
                    "render 9 commit 1 bytes 1\n",
                    Bytes(b"\x02"),
                ),
                Writes(
                    "render i 8 0 0 128 1 r8\n",
                    "render 10 commit 1 bytes 128\n",
                    Hashed(128, 0x8421_ae12_6c7c_ed25),
                ),
            ],
        ],
        end: Report("report applied 1 reused 4\n"),
    },
    // Each operation over a row of four samples or of two pixels with alpha.
    Case {
        lines: &[&[
            Does("buffer a Y8 0 0 4 1\n"),
            Does("load a 0 0 4 1 in.raw\n"),
            Does("buffer p YA8 0 0 2 1\n"),
            Does("fill p 0 0 1 1 30 100\n"),
            Does("fill p 1 0 1 1 120 100\n"),
            Does("node s source a\n"),
            Does("node t source p\n"),
            Does("node colors color RGB16 -1 0 2 1 258 0 65535\n"),
            Does("node squares checker Y8 -2 0 6 1 2 0 9\n"),
            Does("node wide convert Y16 s\n"),
            Does("node inverse invert t\n"),
            Does("node steps threshold 64 s\n"),
            Does("node bright gain 5 4 s\n"),
            Does("node moved translate 1 0 s\n"),
            Does("node part crop 1 0 2 1 s\n"),
            Does("node mirror flip h s\n"),
            Does("node soft box 1 WHITE s\n"),
            Does("node most dilate 1 CLAMP s\n"),
            Does("node least erode 1 BLACK s\n"),
            Does("node sum add s moved\n"),
            Does("node both over t t\n"),
            Does("node some mask t s\n"),
            Does("commit\n"),
            Writes(
                "render s 0 -1 0 6 1 s\n",
                "render 24 commit 1 bytes 6\n",
                Bytes(b"\x00\x00\x40\x80\xff\x00"),
            ),
            Writes(
                "render colors 0 -1 0 6 1 colors\n",
                "render 25 commit 1 bytes 36\n",
                Bytes(
                    b"\x02\x01\x00\x00\xff\xff\x02\x01\x00\x00\xff\xff\x00\x00\x00\x00\x00\x00\x00\x00\x00\x00\x00\x00\x00\x00\x00\x00\x00\x00\x00\x00\x00\x00\x00\x00",
                ),
            ),
            Writes(
                "render squares 0 -1 0 6 1 squares\n",
                "render 26 commit 1 bytes 6\n",
                Bytes(b"\x09\x00\x00\x09\x09\x00"),
            ),
            Writes(
                "render wide 0 -1 0 6 1 wide\n",
                "render 27 commit 1 bytes 12\n",
                Bytes(b"\x00\x00\x00\x00\x40\x40\x80\x80\xff\xff\x00\x00"),
            ),
            Writes(
                "render inverse 0 -1 0 6 1 inverse\n",
                "render 28 commit 1 bytes 12\n",
                Bytes(b"\x00\x00\x46\x64\x00\x64\x00\x00\x00\x00\x00\x00"),
            ),
            Writes(
                "render steps 0 -1 0 6 1 steps\n",
                "render 29 commit 1 bytes 6\n",
                Bytes(b"\x00\x00\xff\xff\xff\x00"),
            ),
            Writes(
                "render bright 0 -1 0 6 1 bright\n",
                "render 30 commit 1 bytes 6\n",
                Bytes(b"\x00\x00\x50\xa0\xff\x00"),
            ),
            Writes(
                "render moved 0 -1 0 6 1 moved\n",
                "render 31 commit 1 bytes 6\n",
                Bytes(b"\x00\x00\x00\x40\x80\xff"),
            ),
            Writes(
                "render part 0 -1 0 6 1 part\n",
                "render 32 commit 1 bytes 6\n",
                Bytes(b"\x00\x00\x40\x80\x00\x00"),
            ),
            Writes(
                "render mirror 0 -1 0 6 1 mirror\n",
                "render 33 commit 1 bytes 6\n",
                Bytes(b"\x00\xff\x80\x40\x00\x00"),
            ),
            Writes(
                "render soft 0 -1 0 6 1 soft\n",
                "render 34 commit 1 bytes 6\n",
                Bytes(b"\x00\xcd\xbf\xdc\xf1\x00"),
            ),
            Writes(
                "render most 0 -1 0 6 1 most\n",
                "render 35 commit 1 bytes 6\n",
                Bytes(b"\x00\x40\x80\xff\xff\x00"),
            ),
            Writes(
                "render least 0 -1 0 6 1 least\n",
                "render 36 commit 1 bytes 6\n",
                Bytes(b"\x00\x00\x00\x00\x00\x00"),
            ),
            Writes(
                "render sum 0 -1 0 6 1 sum\n",
                "render 37 commit 1 bytes 6\n",
                Bytes(b"\x00\x00\x40\xc0\xff\xff"),
            ),
            Writes(
                "render both 0 -1 0 6 1 both\n",
                "render 38 commit 1 bytes 12\n",
                Bytes(b"\x00\x00\x30\xa1\xc1\xa1\x00\x00\x00\x00\x00\x00"),
            ),
            Writes(
                "render some 0 -1 0 6 1 some\n",
                "render 39 commit 1 bytes 12\n",
                Bytes(b"\x00\x00\x00\x00\x1e\x19\x00\x00\x00\x00\x00\x00"),
            ),
        ]],
        end: Report("report applied 17 reused 1\n"),
    },
];

/// A strip of 65 tiles is rendered.
const STRIP: [Line; 3] = [
    Does("node c checker Y8 0 0 4160 64 8 0 255\n"),
    Does("commit\n"),
    Writes(
        "render c 0 0 0 4160 64 o\n",
        "render 3 commit 1 bytes 266240\n",
        Hashed(266240, 0x1b51_32c5_a1e6_ab25),
    ),
];

/// A run of a strip of one tile more than a cache of 64.
pub const STRIP_TOO_WIDE: Case = Case {
    lines: &[&STRIP],
    end: Refused(0, "line 3: Strip\n"),
};

/// A run of a strip as wide as a cache of 65 tiles.
pub const WIDEST_STRIP: Case = Case {
    lines: &[&STRIP],
    end: Report("report applied 65 reused 0\n"),
};
