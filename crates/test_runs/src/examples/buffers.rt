//! Runs over buffers alone. What each must leave was computed apart, from whole images.

use crate::contents::Content::{Absent, Bytes, Hashed};
use crate::examples::Case;
use crate::examples::End::{Refused, Report};
use crate::examples::Line::{self, Does, Writes};
use crate::examples::faults::EITHER_SIDE;
use crate::examples::refusals::REPORT;

/// A part of a buffer is written, and the buffer is grabbed.
const PART: [Line; 4] = [
    Does("buffer a Y8 0 0 4 1\n"),
    Does("sub s a 1 0 9 1\n"),
    Does("fill s 2 0 1 1 7\n"),
    Writes(
        "grab a 0 NONE 0 0 4 1 o\n",
        "grab 4 bytes 4\n",
        Bytes(b"\x00\x00\x07\x00"),
    ),
];

/// Runs over buffers alone.
pub const BUFFERS: [Case; 16] = [
    // Without a write a buffer is zero.
    Case {
        lines: &[&[
            Does("buffer a Y8 0 0 4 2\n"),
            Does("fill a 1 0 2 1 9\n"),
            Writes(
                "grab a 0 NONE 0 0 4 2 o\n",
                "grab 3 bytes 8\n",
                Bytes(b"\x00\x09\x09\x00\x00\x00\x00\x00"),
            ),
        ]],
        end: Report(REPORT),
    },
    // A part of a buffer shares its samples; its rectangle is met with the buffer's.
    Case {
        lines: &[&PART],
        end: Report(REPORT),
    },
    // A duplicate doesn't share them.
    Case {
        lines: &[&[
            Does("buffer a YA16 0 0 1 1\n"),
            Does("fill a 0 0 1 1 258 5\n"),
            Does("dup b a\n"),
            Does("fill a 0 0 1 1 6 7\n"),
            Writes(
                "grab b 0 NONE 0 0 1 1 o\n",
                "grab 5 bytes 4\n",
                Bytes(b"\x02\x01\x05\x00"),
            ),
        ]],
        end: Report(REPORT),
    },
    // A copy onto the buffer itself is read whole before it is written.
    Case {
        lines: &[&[
            Does("buffer a Y8 0 0 4 1\n"),
            Does("load a 0 0 4 1 in.raw\n"),
            Does("copy a a 0 0 3 1 1 0\n"),
            Writes(
                "grab a 0 NONE 0 0 4 1 o\n",
                "grab 4 bytes 4\n",
                Bytes(b"\x00\x00\x40\x80"),
            ),
        ]],
        end: Report(REPORT),
    },
    // A tile that leaves memory comes back as it was.
    Case {
        lines: &[&[
            Does("buffer a Y8 0 0 128 64\n"),
            Does("fill a 0 0 64 64 1\n"),
            Does("fill a 64 0 64 64 2\n"),
            Writes(
                "grab a 0 NONE 62 0 4 1 o\n",
                "grab 4 bytes 4\n",
                Bytes(b"\x01\x01\x02\x02"),
            ),
        ]],
        end: Report(REPORT),
    },
    // What isn't inside the buffer: here black of a format with alpha.
    Case {
        lines: &[&[
            Does("buffer a YA8 0 0 1 1\n"),
            Does("fill a 0 0 1 1 3 4\n"),
            Writes(
                "grab a 0 BLACK 0 0 2 1 o\n",
                "grab 3 bytes 4\n",
                Bytes(b"\x03\x04\x00\xff"),
            ),
        ]],
        end: Report(REPORT),
    },
    // A file that a line wrote is what a later line loads.
    Case {
        lines: &[&[
            Does("buffer a Y8 0 0 2 2\n"),
            Does("load a 0 0 2 2 in.raw\n"),
            Writes(
                "grab a 0 NONE 0 0 2 2 o\n",
                "grab 3 bytes 4\n",
                Bytes(b"\x00\x40\x80\xff"),
            ),
            Does("load a 0 0 2 2 o\n"),
            Writes(
                "grab a 0 NONE 1 0 1 2 p\n",
                "grab 5 bytes 2\n",
                Bytes(b"\x40\xff"),
            ),
        ]],
        end: Report(REPORT),
    },
    // A column is in the tile that floor division gives: -65 in tile -2, -1 in tile -1.
    Case {
        lines: &[&[
            Does("buffer a Y8 -65 0 66 1\n"),
            Does("fill a -1 0 1 1 1\n"),
            Does("fill a -65 0 1 1 2\n"),
            Writes(
                "grab a 0 NONE -66 0 3 1 g1\n",
                "grab 4 bytes 3\n",
                Bytes(b"\x00\x02\x00"),
            ),
            Writes(
                "grab a 0 NONE -2 0 3 1 g2\n",
                "grab 5 bytes 3\n",
                Bytes(b"\x00\x01\x00"),
            ),
        ]],
        end: Report(REPORT),
    },
    // The five policies.
    Case {
        lines: &[&[
            Does("buffer a Y8 0 0 2 1\n"),
            Does("fill a 0 0 1 1 10\n"),
            Does("fill a 1 0 1 1 20\n"),
            Writes(
                "grab a 0 NONE -1 0 4 1 none\n",
                "grab 4 bytes 4\n",
                Bytes(b"\x00\x0a\x14\x00"),
            ),
            Writes(
                "grab a 0 CLAMP -1 0 4 1 clamp\n",
                "grab 5 bytes 4\n",
                Bytes(b"\x0a\x0a\x14\x14"),
            ),
            Writes(
                "grab a 0 LOOP -1 0 4 1 loop\n",
                "grab 6 bytes 4\n",
                Bytes(b"\x14\x0a\x14\x0a"),
            ),
            Writes(
                "grab a 0 BLACK -1 0 4 1 black\n",
                "grab 7 bytes 4\n",
                Bytes(b"\x00\x0a\x14\x00"),
            ),
            Writes(
                "grab a 0 WHITE -1 0 4 1 white\n",
                "grab 8 bytes 4\n",
                Bytes(b"\xff\x0a\x14\xff"),
            ),
        ]],
        end: Report(REPORT),
    },
    // Levels under policies: level 1 is the mean (0 + 64 + 128 + 255 + 2) div 4 = 112, and level 2 is (112 + 2) div 4 = 28.
    Case {
        lines: &[&[
            Does("buffer a Y8 0 0 2 2\n"),
            Does("load a 0 0 2 2 in.raw\n"),
            Writes(
                "grab a 0 NONE -1 0 4 1 none0\n",
                "grab 3 bytes 4\n",
                Bytes(b"\x00\x00\x40\x00"),
            ),
            Writes(
                "grab a 0 CLAMP -1 0 4 1 clamp0\n",
                "grab 4 bytes 4\n",
                Bytes(b"\x00\x00\x40\x40"),
            ),
            Writes(
                "grab a 0 LOOP -1 0 4 1 loop0\n",
                "grab 5 bytes 4\n",
                Bytes(b"\x40\x00\x40\x00"),
            ),
            Writes(
                "grab a 0 BLACK -1 0 4 1 black0\n",
                "grab 6 bytes 4\n",
                Bytes(b"\x00\x00\x40\x00"),
            ),
            Writes(
                "grab a 0 WHITE -1 0 4 1 white0\n",
                "grab 7 bytes 4\n",
                Bytes(b"\xff\x00\x40\xff"),
            ),
            Writes(
                "grab a 1 NONE -1 0 4 1 none1\n",
                "grab 8 bytes 4\n",
                Bytes(b"\x00\x70\x00\x00"),
            ),
            Writes(
                "grab a 1 CLAMP -1 0 4 1 clamp1\n",
                "grab 9 bytes 4\n",
                Bytes(b"\x70\x70\x70\x70"),
            ),
            Writes(
                "grab a 1 LOOP -1 0 4 1 loop1\n",
                "grab 10 bytes 4\n",
                Bytes(b"\x70\x70\x70\x70"),
            ),
            Writes(
                "grab a 1 BLACK -1 0 4 1 black1\n",
                "grab 11 bytes 4\n",
                Bytes(b"\x00\x70\x00\x00"),
            ),
            Writes(
                "grab a 1 WHITE -1 0 4 1 white1\n",
                "grab 12 bytes 4\n",
                Bytes(b"\xff\x70\xff\xff"),
            ),
            Writes(
                "grab a 2 NONE -1 0 4 1 none2\n",
                "grab 13 bytes 4\n",
                Bytes(b"\x00\x1c\x00\x00"),
            ),
            Writes(
                "grab a 2 CLAMP -1 0 4 1 clamp2\n",
                "grab 14 bytes 4\n",
                Bytes(b"\x1c\x1c\x1c\x1c"),
            ),
            Writes(
                "grab a 2 LOOP -1 0 4 1 loop2\n",
                "grab 15 bytes 4\n",
                Bytes(b"\x1c\x1c\x1c\x1c"),
            ),
            Writes(
                "grab a 2 BLACK -1 0 4 1 black2\n",
                "grab 16 bytes 4\n",
                Bytes(b"\x00\x1c\x00\x00"),
            ),
            Writes(
                "grab a 2 WHITE -1 0 4 1 white2\n",
                "grab 17 bytes 4\n",
                Bytes(b"\xff\x1c\xff\xff"),
            ),
        ]],
        end: Report(REPORT),
    },
    // A level of odd width: (10 + 20 + 2) div 4 and (31 + 2) div 4. Its box has two columns.
    Case {
        lines: &[&[
            Does("buffer a Y8 0 0 3 1\n"),
            Does("fill a 0 0 1 1 10\n"),
            Does("fill a 1 0 1 1 20\n"),
            Does("fill a 2 0 1 1 31\n"),
            Writes(
                "grab a 1 NONE 0 0 2 1 g\n",
                "grab 5 bytes 2\n",
                Bytes(b"\x08\x08"),
            ),
            Writes(
                "grab a 1 WHITE -1 0 4 1 h\n",
                "grab 6 bytes 4\n",
                Bytes(b"\xff\x08\x08\xff"),
            ),
        ]],
        end: Report(REPORT),
    },
    EITHER_SIDE,
    // A level of a part is averaged from the part alone.
    Case {
        lines: &[&[
            Does("buffer a Y8 0 0 4 1\n"),
            Does("load a 0 0 4 1 in.raw\n"),
            Does("sub s a 1 0 2 1\n"),
            Writes(
                "grab s 1 NONE 0 0 2 1 g\n",
                "grab 4 bytes 2\n",
                Bytes(b"\x10\x20"),
            ),
            Writes(
                "grab a 1 NONE 0 0 2 1 h\n",
                "grab 5 bytes 2\n",
                Bytes(b"\x10\x60"),
            ),
        ]],
        end: Report(REPORT),
    },
    // A level that was made is made again after a write below it.
    Case {
        lines: &[&[
            Does("buffer a Y8 0 0 2 2\n"),
            Does("load a 0 0 2 2 in.raw\n"),
            Writes(
                "grab a 1 NONE 0 0 1 1 g\n",
                "grab 3 bytes 1\n",
                Bytes(b"\x70"),
            ),
            Does("fill a 0 0 1 1 255\n"),
            Writes(
                "grab a 1 NONE 0 0 1 1 h\n",
                "grab 5 bytes 1\n",
                Bytes(b"\xb0"),
            ),
            Writes(
                "grab a 8 NONE 0 0 1 1 i\n",
                "grab 6 bytes 1\n",
                Bytes(b"\x00"),
            ),
        ]],
        end: Report(REPORT),
    },
    // A part without a pixel.
    Case {
        lines: &[&[
            Does("buffer a Y8 0 0 4 1\n"),
            Does("sub s a 9 9 1 1\n"),
            Writes(
                "grab s 0 WHITE 0 0 2 1 g\n",
                "grab 3 bytes 2\n",
                Bytes(b"\xff\xff"),
            ),
            Writes(
                "grab s 0 CLAMP 0 0 2 1 h\n",
                "grab 4 bytes 2\n",
                Bytes(b"\x00\x00"),
            ),
            Does("fill s 5 5 0 0 1\n"),
        ]],
        end: Report(REPORT),
    },
    // What is written outside a part of a buffer is refused; what was written before is there.
    Case {
        lines: &[
            &PART,
            &[
                Does("fill s 0 0 1 1 9\n"),
                Writes("grab a 0 NONE 0 0 4 1 p\n", "", Absent),
            ],
        ],
        end: Refused(1, "line 5: OutOfBounds\n"),
    },
];

/// Runs at the ends of the plane and of the levels.
pub const EDGES: [Case; 5] = [
    // The last column of the plane.
    Case {
        lines: &[&[
            Does("buffer a Y8 16777215 0 1 1\n"),
            Does("fill a 16777215 0 1 1 7\n"),
            Writes(
                "grab a 0 NONE 16777214 0 2 1 g\n",
                "grab 3 bytes 2\n",
                Bytes(b"\x00\x07"),
            ),
        ]],
        end: Report(REPORT),
    },
    // A box doesn't grow out of the plane.
    Case {
        lines: &[&[
            Does("buffer a Y8 16777215 0 1 1\n"),
            Does("fill a 16777215 0 1 1 7\n"),
            Does("node s source a\n"),
            Does("node b box 1 NONE s\n"),
            Does("commit\n"),
        ]],
        end: Refused(0, "line 5: Bounds\n"),
    },
    // A buffer is repeated at the first columns of the plane.
    Case {
        lines: &[&[
            Does("buffer a Y8 0 0 2 1\n"),
            Does("fill a 0 0 1 1 10\n"),
            Does("fill a 1 0 1 1 20\n"),
            Writes(
                "grab a 0 LOOP -16777216 0 4 1 g\n",
                "grab 4 bytes 4\n",
                Bytes(b"\x0a\x14\x0a\x14"),
            ),
        ]],
        end: Report(REPORT),
    },
    // A pixel at levels 4 and 8.
    Case {
        lines: &[&[
            Does("buffer a Y8 0 0 1 1\n"),
            Does("fill a 0 0 1 1 255\n"),
            Writes(
                "grab a 4 NONE 0 0 1 1 g\n",
                "grab 3 bytes 1\n",
                Bytes(b"\x01"),
            ),
            Writes(
                "grab a 8 NONE 0 0 1 1 h\n",
                "grab 4 bytes 1\n",
                Bytes(b"\x00"),
            ),
        ]],
        end: Report(REPORT),
    },
    // At level 8 the widest rectangle is 128 columns wide.
    Case {
        lines: &[&[
            Does("buffer a Y8 0 0 1 1\n"),
            Writes(
                "grab a 8 WHITE -1 0 2 1 g\n",
                "grab 2 bytes 2\n",
                Bytes(b"\xff\x00"),
            ),
            Writes(
                "grab a 8 BLACK 0 0 128 1 h\n",
                "grab 3 bytes 128\n",
                Hashed(128, 0x8421_ae12_6c7c_ed25),
            ),
        ]],
        end: Report(REPORT),
    },
];
