//! Runs over samples of 32 bits. What each must leave was worked out by hand.

use crate::contents::Content::Bytes;
use crate::examples::Case;
use crate::examples::End::Report;
use crate::examples::Line::{Does, Writes};

/// The bytes of a pixel of the largest samples.
const LARGEST: &[u8] = b"\xff\xff\xff\xff\xff\xff\xff\xff\xff\xff\xff\xff\xff\xff\xff\xff";

/// Runs over samples of 32 bits.
pub const LONG_SAMPLES: [Case; 4] = [
    // 258 becomes 258 times 65,537, whose inverse is 4,278,058,749.
    Case {
        lines: &[&[
            Does("buffer a Y16 0 0 1 1\n"),
            Does("fill a 0 0 1 1 258\n"),
            Does("node s source a\n"),
            Does("node w convert Y32 s\n"),
            Does("node i invert w\n"),
            Does("commit\n"),
            Writes(
                "render i 0 0 0 1 1 o.raw\n",
                "render 7 commit 1 bytes 4\n",
                Bytes(b"\xfd\xfe\xfd\xfe"),
            ),
        ]],
        end: Report("report applied 2 reused 0\n"),
    },
    // 2,155,905,152 is 128 of 255, and comes back.
    Case {
        lines: &[&[
            Does("buffer a Y32 0 0 1 1\n"),
            Does("fill a 0 0 1 1 2155905152\n"),
            Does("node s source a\n"),
            Does("node c convert Y8 s\n"),
            Does("node b convert Y32 c\n"),
            Does("commit\n"),
            Writes(
                "render c 0 0 0 1 1 c.raw\n",
                "render 7 commit 1 bytes 1\n",
                Bytes(b"\x80"),
            ),
            Writes(
                "render b 0 0 0 1 1 b.raw\n",
                "render 8 commit 1 bytes 4\n",
                Bytes(b"\x80\x80\x80\x80"),
            ),
        ]],
        end: Report("report applied 2 reused 1\n"),
    },
    // Two tiles of 64 KiB. One is filled in part, and then as it was before.
    Case {
        lines: &[&[
            Does("buffer a RGBA32 0 0 128 1\n"),
            Does("fill a 0 0 64 1 4294967295 4294967295 4294967295 4294967295\n"),
            Does("fill a 64 0 64 1 1 2 3 4294967295\n"),
            Does("node s source a\n"),
            Does("node i invert s\n"),
            Does("commit\n"),
            Writes(
                "render i 0 63 0 2 1 o.raw\n",
                "render 7 commit 1 bytes 32\n",
                Bytes(
                    b"\x00\x00\x00\x00\x00\x00\x00\x00\x00\x00\x00\x00\xff\xff\xff\xff\xfe\xff\xff\xff\xfd\xff\xff\xff\xfc\xff\xff\xff\xff\xff\xff\xff",
                ),
            ),
            Does("fill a 64 0 1 1 65536 0 0 4294967295\n"),
            Does("commit\n"),
            Writes(
                "render i 0 64 0 1 1 p.raw\n",
                "render 10 commit 2 bytes 16\n",
                Bytes(b"\xff\xff\xfe\xff\xff\xff\xff\xff\xff\xff\xff\xff\xff\xff\xff\xff"),
            ),
            Does("undo\n"),
            Writes(
                "grab a 0 NONE 63 0 2 1 q.raw\n",
                "grab 12 bytes 32\n",
                Bytes(
                    b"\xff\xff\xff\xff\xff\xff\xff\xff\xff\xff\xff\xff\xff\xff\xff\xff\x01\x00\x00\x00\x02\x00\x00\x00\x03\x00\x00\x00\xff\xff\xff\xff",
                ),
            ),
        ]],
        end: Report("report applied 3 reused 0\n"),
    },
    // The largest samples stay the largest under the largest mask, over others and as means of squares, whose sums exceed
    // 2^46. At level 8 they are a sixteenth of a pixel.
    Case {
        lines: &[&[
            Does("node k color RGBA32 0 0 64 64 4294967295 4294967295 4294967295 4294967295\n"),
            Does("node m color Y32 0 0 64 64 4294967295\n"),
            Does("node w mask k m\n"),
            Does("node o over w k\n"),
            Does("node b box 64 CLAMP o\n"),
            Does("commit\n"),
            Writes(
                "render b 0 63 63 1 1 b.raw\n",
                "render 7 commit 1 bytes 16\n",
                Bytes(LARGEST),
            ),
            Writes(
                "render b 8 0 0 1 1 c.raw\n",
                "render 8 commit 1 bytes 16\n",
                Bytes(b"\x00\x00\x00\x10\x00\x00\x00\x10\x00\x00\x00\x10\x00\x00\x00\x10"),
            ),
        ]],
        end: Report("report applied 5 reused 5\n"),
    },
];
