//! Renders of large rectangles, whose files are written by bands of rows. What each must hold was worked out by hand.

use crate::contents::Band;
use crate::contents::Content::{Bands, FirstOf};
use crate::examples::Case;
use crate::examples::End::Report;
use crate::examples::Line::{self, Does, Writes};

/// Rows of tiles end above row -64, above row 0 and above row 64. One rectangle is filled over the first of these ends,
/// and another over the others.
const FILLED: [Line; 6] = [
    Does("buffer b Y16 -3 -70 1040 200\n"),
    Does("fill b -3 -70 1040 200 2570\n"),
    Does("fill b 5 -65 700 2 5140\n"),
    Does("fill b 400 -1 500 66 7710\n"),
    Does("node s source b\n"),
    Does("node i invert s\n"),
];

/// A rectangle with 2, 64, 64 and 1 rows in four rows of tiles. Of 65535 - 2570 both bytes are 245, of 65535 - 5140 both
/// are 235, and of 65535 - 7710 both are 225.
const ROWS: [Band; 4] = [
    (1, &[(2060, 245)]),
    (2, &[(8, 245), (1400, 235), (652, 245)]),
    (62, &[(2060, 245)]),
    (66, &[(798, 245), (1000, 225), (262, 245)]),
];

/// The rectangle, and then its first columns, which are too few to be written so.
pub const FOUR_BANDS: Case = Case {
    lines: &[
        &FILLED,
        &[
            Does("commit\n"),
            Writes(
                "render i 0 1 -66 1030 131 wide.raw\n",
                "render 8 commit 1 bytes 269860\n",
                Bands(&ROWS),
            ),
            Writes(
                "render i 0 1 -66 1000 131 narrow.raw\n",
                "render 9 commit 1 bytes 262000\n",
                FirstOf(2000, &ROWS),
            ),
        ],
    ],
    end: Report("report applied 68 reused 64\n"),
};
