//! Runs that render again after edits, commits, undo and redo. What each must leave was computed apart, from whole images.

use crate::contents::Content::{self, Absent, Bands, Bytes};
use crate::examples::Case;
use crate::examples::End::{Refused, Report};
use crate::examples::Line::{self, Does, Writes};
use crate::examples::refusals::REPORT;

/// The means of a square of 100 whose outside counts as zero.
const FLAT: Content = Bands(&[
    (1, &[(1, 44), (126, 67), (1, 44)]),
    (126, &[(1, 67), (126, 100), (1, 67)]),
    (1, &[(1, 44), (126, 67), (1, 44)]),
]);

/// Means over a buffer of four tiles, rendered twice.
const MEANS: [Line; 7] = [
    Does("buffer a Y8 0 0 128 128\n"),
    Does("fill a 0 0 128 128 100\n"),
    Does("node s source a\n"),
    Does("node b box 1 NONE s\n"),
    Does("commit\n"),
    Writes(
        "render b 0 0 0 128 128 r1\n",
        "render 6 commit 1 bytes 16384\n",
        FLAT,
    ),
    Writes(
        "render b 0 0 0 128 128 r2\n",
        "render 7 commit 1 bytes 16384\n",
        FLAT,
    ),
];

/// One corner is edited.
const CORNER: [Line; 3] = [
    Does("fill a 0 0 1 1 200\n"),
    Does("commit\n"),
    Writes(
        "render b 0 0 0 128 128 r3\n",
        "render 10 commit 2 bytes 16384\n",
        Bands(&[
            (1, &[(1, 56), (1, 78), (125, 67), (1, 44)]),
            (1, &[(1, 78), (1, 111), (125, 100), (1, 67)]),
            (125, &[(1, 67), (126, 100), (1, 67)]),
            (1, &[(1, 44), (126, 67), (1, 44)]),
        ]),
    ),
];

/// The edit is undone.
const UNDONE: [Line; 2] = [
    Does("undo\n"),
    Writes(
        "render b 0 0 0 128 128 r4\n",
        "render 12 commit 3 bytes 16384\n",
        FLAT,
    ),
];

/// Means before and after one corner is edited: one tile of four is evaluated anew.
pub const MEANS_AFTER_AN_EDIT: Case = Case {
    lines: &[&MEANS, &CORNER],
    end: Report("report applied 5 reused 7\n"),
};

/// Runs that render again after edits, commits, undo and redo.
pub const EDITED: [Case; 13] = [
    MEANS_AFTER_AN_EDIT,
    // The pixel where four tiles meet is edited: all four are evaluated anew.
    Case {
        lines: &[
            &MEANS,
            &[
                Does("fill a 64 64 1 1 200\n"),
                Does("commit\n"),
                Writes(
                    "render b 0 0 0 128 128 r3\n",
                    "render 10 commit 2 bytes 16384\n",
                    Bands(&[
                        (1, &[(1, 44), (126, 67), (1, 44)]),
                        (62, &[(1, 67), (126, 100), (1, 67)]),
                        (3, &[(1, 67), (62, 100), (3, 111), (61, 100), (1, 67)]),
                        (61, &[(1, 67), (126, 100), (1, 67)]),
                        (1, &[(1, 44), (126, 67), (1, 44)]),
                    ]),
                ),
            ],
        ],
        end: Report("report applied 8 reused 4\n"),
    },
    // An undo shows the image of before; the edited tile is evaluated anew.
    Case {
        lines: &[&MEANS, &CORNER, &UNDONE],
        end: Report("report applied 6 reused 10\n"),
    },
    // Two states can be undone: the last is the one without buffers and nodes.
    Case {
        lines: &[&MEANS, &CORNER, &UNDONE, &[Does("undo\n"), Does("undo\n")]],
        end: Refused(4, "line 14: NothingToUndo\n"),
    },
    // A node's box becomes smaller: what was inside it is zero.
    Case {
        lines: &[&[
            Does("buffer a Y8 0 0 200 1\n"),
            Does("fill a 0 0 200 1 50\n"),
            Does("node s source a\n"),
            Does("node c crop 0 0 200 1 s\n"),
            Does("node b box 1 CLAMP c\n"),
            Does("commit\n"),
            Writes(
                "render b 0 0 0 200 1 r1\n",
                "render 7 commit 1 bytes 200\n",
                Bands(&[(1, &[(200, 50)])]),
            ),
            Does("node c crop 0 0 100 1 s\n"),
            Does("commit\n"),
            Writes(
                "render b 0 0 0 200 1 r2\n",
                "render 10 commit 2 bytes 200\n",
                Bands(&[(1, &[(100, 50), (100, 0)])]),
            ),
        ]],
        end: Report("report applied 12 reused 0\n"),
    },
    // A render shows the committed samples, a grab those that are edited.
    Case {
        lines: &[&[
            Does("buffer a Y8 0 0 2 1\n"),
            Does("fill a 0 0 2 1 10\n"),
            Does("node s source a\n"),
            Does("node i invert s\n"),
            Does("commit\n"),
            Does("fill a 0 0 1 1 20\n"),
            Writes(
                "render i 0 0 0 2 1 r1\n",
                "render 7 commit 1 bytes 2\n",
                Bytes(b"\xf5\xf5"),
            ),
            Writes(
                "grab a 0 NONE 0 0 2 1 g1\n",
                "grab 8 bytes 2\n",
                Bytes(b"\x14\x0a"),
            ),
            Does("commit\n"),
            Writes(
                "render i 0 0 0 2 1 r2\n",
                "render 10 commit 2 bytes 2\n",
                Bytes(b"\xeb\xf5"),
            ),
        ]],
        end: Report("report applied 2 reused 0\n"),
    },
    // Undo and redo drop edits that weren't committed, of samples and of nodes; a commit, even without edits, leaves
    // nothing to redo.
    Case {
        lines: &[&[
            Does("buffer a Y8 0 0 2 1\n"),
            Does("fill a 0 0 2 1 10\n"),
            Does("node s source a\n"),
            Does("commit\n"),
            Does("fill a 0 0 1 1 20\n"),
            Does("commit\n"),
            Does("fill a 1 0 1 1 30\n"),
            Does("node s color Y8 0 0 1 1 7\n"),
            Does("undo\n"),
            Writes(
                "grab a 0 NONE 0 0 2 1 g1\n",
                "grab 10 bytes 2\n",
                Bytes(b"\x0a\x0a"),
            ),
            Writes(
                "render s 0 0 0 2 1 r1\n",
                "render 11 commit 3 bytes 2\n",
                Bytes(b"\x0a\x0a"),
            ),
            Does("redo\n"),
            Writes(
                "grab a 0 NONE 0 0 2 1 g2\n",
                "grab 13 bytes 2\n",
                Bytes(b"\x14\x0a"),
            ),
            Writes(
                "render s 0 0 0 2 1 r2\n",
                "render 14 commit 4 bytes 2\n",
                Bytes(b"\x14\x0a"),
            ),
            Does("undo\n"),
            Does("commit\n"),
            Does("redo\n"),
        ]],
        end: Refused(4, "line 17: NothingToRedo\n"),
    },
    // A buffer that an undo takes away can be made again.
    Case {
        lines: &[&[
            Does("buffer a Y8 0 0 1 1\n"),
            Does("fill a 0 0 1 1 9\n"),
            Does("commit\n"),
            Does("undo\n"),
            Does("buffer a YA8 0 0 1 1\n"),
            Writes(
                "grab a 0 NONE 0 0 1 1 g1\n",
                "grab 6 bytes 2\n",
                Bytes(b"\x00\x00"),
            ),
            Does("undo\n"),
        ]],
        end: Refused(1, "line 7: NothingToUndo\n"),
    },
    // A buffer that isn't committed is gone after an undo.
    Case {
        lines: &[&[
            Does("commit\n"),
            Does("buffer a Y8 0 0 1 1\n"),
            Does("undo\n"),
            Writes("grab a 0 NONE 0 0 1 1 g1\n", "", Absent),
        ]],
        end: Refused(0, "line 4: UnknownBuffer\n"),
    },
    // A node is dropped and set again, with other words.
    Case {
        lines: &[&[
            Does("node k color Y8 0 0 2 1 5\n"),
            Does("node i invert k\n"),
            Does("commit\n"),
            Writes(
                "render i 0 0 0 2 1 r1\n",
                "render 4 commit 1 bytes 2\n",
                Bytes(b"\xfa\xfa"),
            ),
            Does("drop i\n"),
            Does("node i threshold 5 k\n"),
            Does("commit\n"),
            Writes(
                "render i 0 0 0 2 1 r2\n",
                "render 8 commit 2 bytes 2\n",
                Bytes(b"\xff\xff"),
            ),
            Does("drop i\n"),
            Does("drop k\n"),
            Does("commit\n"),
            Writes("render i 0 0 0 2 1 r3\n", "", Absent),
        ]],
        end: Refused(2, "line 12: UnknownNode\n"),
    },
    // Of two edits of a node the later counts.
    Case {
        lines: &[&[
            Does("node k color Y8 0 0 2 1 5\n"),
            Does("node k color Y8 0 0 2 1 6\n"),
            Does("commit\n"),
            Writes(
                "render k 0 0 0 2 1 o\n",
                "render 4 commit 1 bytes 2\n",
                Bytes(b"\x06\x06"),
            ),
        ]],
        end: Report("report applied 1 reused 0\n"),
    },
    // A part of a buffer shows what is written to the buffer; a duplicate of the part doesn't.
    Case {
        lines: &[&[
            Does("buffer a Y8 0 0 4 1\n"),
            Does("load a 0 0 4 1 in.raw\n"),
            Does("sub s a 1 0 2 1\n"),
            Does("dup d s\n"),
            Does("node p source s\n"),
            Does("node q source d\n"),
            Does("commit\n"),
            Does("fill a 1 0 1 1 9\n"),
            Does("commit\n"),
            Writes(
                "render p 0 0 0 4 1 r1\n",
                "render 10 commit 2 bytes 4\n",
                Bytes(b"\x00\x09\x80\x00"),
            ),
            Writes(
                "render q 0 0 0 4 1 r2\n",
                "render 11 commit 2 bytes 4\n",
                Bytes(b"\x00\x40\x80\x00"),
            ),
            Does("fill d 2 0 1 1 8\n"),
            Does("commit\n"),
            Writes(
                "render p 0 0 0 4 1 r3\n",
                "render 14 commit 3 bytes 4\n",
                Bytes(b"\x00\x09\x80\x00"),
            ),
            Writes(
                "render q 0 0 0 4 1 r4\n",
                "render 15 commit 3 bytes 4\n",
                Bytes(b"\x00\x40\x08\x00"),
            ),
        ]],
        end: Report(REPORT),
    },
    // What is written to a part of a buffer damages the nodes over the buffer.
    Case {
        lines: &[&[
            Does("buffer a Y8 0 0 4 1\n"),
            Does("sub s a 1 0 2 1\n"),
            Does("node p source a\n"),
            Does("node i invert p\n"),
            Does("commit\n"),
            Writes(
                "render i 0 0 0 4 1 r1\n",
                "render 6 commit 1 bytes 4\n",
                Bytes(b"\xff\xff\xff\xff"),
            ),
            Does("fill s 2 0 1 1 9\n"),
            Does("commit\n"),
            Writes(
                "render i 0 0 0 4 1 r2\n",
                "render 9 commit 2 bytes 4\n",
                Bytes(b"\xff\xff\xf6\xff"),
            ),
        ]],
        end: Report("report applied 2 reused 0\n"),
    },
];
