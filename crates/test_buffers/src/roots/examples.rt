//! Small examples, whose results are worked out by hand.

use crate::roots::steps::Example;
use crate::roots::steps::Step::{Fill, First, Part, Put, Rows, Share};
use crate::roots::views::Fields;
use crate::roots::views::First::{Level, Put as PutTile, View, ViewLevel};
use crate::roots::views::Part::{Root, Under, ViewLevelOne};
use pixel_formats::Abyss;

/// Writes over the borders of tiles, which are between the columns -1 and 0, and 63 and 64, and checks parts
/// of the image, also beside what was written.
pub const BORDERS: Example = (
    [-2, 0, 130, 2],
    &[
        Part(Root([-2, 0, 3, 1]), &[0, 0, 0]),
        Fill([-1, 0, 2, 1], 7),
        Part(Root([-2, 0, 4, 1]), &[0, 7, 7, 0]),
        Put([62, 0, 3, 2], &[1, 2, 3, 4, 5, 6]),
        Part(Root([62, 0, 4, 1]), &[1, 2, 3, 0]),
        Part(Root([62, 1, 4, 1]), &[4, 5, 6, 0]),
        Part(Root([-2, 0, 4, 1]), &[0, 7, 7, 0]),
    ],
);

/// Shares a root whose tiles are in the swap but one, and writes over the whole of it.
pub const SHARED: Example = (
    [0, 0, 200, 1],
    &[
        Fill([0, 0, 200, 1], 9),
        Share,
        Part(Root([126, 0, 4, 1]), &[9, 9, 9, 9]),
        Put([127, 0, 2, 1], &[1, 2]),
        Part(Root([126, 0, 4, 1]), &[9, 1, 2, 9]),
        Put([0, 0, 0, 0], &[]),
        Part(Root([198, 0, 2, 1]), &[9, 9]),
    ],
);

/// Reads tiles of levels: each pixel is the mean of four, which are 10, 20, 30 and 40, and 30, 40, 50 and 64, and
/// then 25 and 46 beside two zeros. A tile that is held is averaged again once one below it is written.
pub const LEVELS: Example = (
    [0, 0, 130, 2],
    &[
        First(PutTile, &[]),
        First(Level(1), &[]),
        Put([0, 0, 4, 1], &[10, 20, 30, 40]),
        Put([0, 1, 4, 1], &[30, 40, 50, 64]),
        First(PutTile, &[10, 20, 30, 40]),
        First(Level(0), &[10, 20, 30, 40]),
        First(Level(2), &[18]),
        First(Level(1), &[25, 46]),
        Put([0, 0, 1, 1], &[14]),
        First(Level(1), &[26, 46]),
    ],
);

/// Reads large parts, which begin and end inside tiles, beside their rows, which are small: of 300 by 200 pixels,
/// of which two rectangles over borders of tiles were filled, so that most tiles were never put.
pub const LARGE_PARTS: Example = (
    [-70, -10, 300, 200],
    &[
        Fill([60, 50, 20, 100], 7),
        Fill([-70, 120, 10, 70], 9),
        Part(Root([59, 149, 3, 1]), &[0, 7, 7]),
        Rows([-70, -10, 300, 200]),
        Rows([-65, -3, 256, 160]),
        Rows([1, 1, 190, 188]),
    ],
);

/// The view of the columns 1 to 3 of a root.
const VIEW: Fields = [1, 0, 3, 2];

/// Reads a view of 20, 30 and 40 over 40, 50 and 64, and levels of it: 15 and 46 in level 1, the means of 20 and 40
/// beside two zeros and of 30, 40, 50 and 64. The 10 and the 30 left of it are none of its pixels.
pub const VIEWS: Example = (
    [0, 0, 130, 2],
    &[
        Put([0, 0, 4, 1], &[10, 20, 30, 40]),
        Put([0, 1, 4, 1], &[30, 40, 50, 64]),
        First(View([0, 0, 130, 2]), &[10, 20, 30, 40]),
        First(View(VIEW), &[0, 20, 30, 40]),
        First(ViewLevel(VIEW, 0), &[0, 20, 30, 40]),
        First(ViewLevel(VIEW, 1), &[15, 46]),
        First(ViewLevel(VIEW, 2), &[15]),
        First(ViewLevel([0, 0, 130, 2], 1), &[25, 46]),
        First(ViewLevel([64, 0, 2, 2], 1), &[]),
        Part(ViewLevelOne(VIEW, [-1, 0, 4, 1]), &[0, 15, 46, 0]),
    ],
);

/// Reads the first row of that view, and of its level 1, under policies.
pub const POLICIES: Example = (
    [0, 0, 130, 2],
    &[
        Put([0, 0, 4, 1], &[10, 20, 30, 40]),
        Put([0, 1, 4, 1], &[30, 40, 50, 64]),
        Part(
            Under(VIEW, 0, Abyss::None, [0, 0, 5, 1]),
            &[0, 20, 30, 40, 0],
        ),
        Part(Under(VIEW, 0, Abyss::None, [2, 0, 2, 1]), &[30, 40]),
        Part(Under(VIEW, 0, Abyss::White, [3, 0, 2, 1]), &[40, 255]),
        Part(Under(VIEW, 0, Abyss::Black, [3, 0, 2, 1]), &[40, 0]),
        Part(
            Under(VIEW, 0, Abyss::Clamp, [0, 0, 6, 1]),
            &[20, 20, 30, 40, 40, 40],
        ),
        Part(Under(VIEW, 0, Abyss::Clamp, [9, -3, 2, 1]), &[40, 40]),
        Part(
            Under(VIEW, 0, Abyss::Loop, [0, 0, 7, 1]),
            &[40, 20, 30, 40, 20, 30, 40],
        ),
        Part(Under(VIEW, 0, Abyss::Loop, [-2, 0, 3, 1]), &[20, 30, 40]),
        Part(Under(VIEW, 0, Abyss::Loop, [4, 2, 2, 1]), &[20, 30]),
        Part(
            Under(VIEW, 1, Abyss::Clamp, [-1, 0, 4, 1]),
            &[15, 15, 46, 46],
        ),
        Part(
            Under(VIEW, 1, Abyss::Loop, [-1, 0, 4, 1]),
            &[46, 15, 46, 15],
        ),
    ],
);
