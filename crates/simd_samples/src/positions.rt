//! Where the lanes of shuffled vectors come from. The lanes of a second vector are counted on from sixteen.

/// In each pair of lanes the second.
pub(crate) const SECOND_OF_TWO: [usize; 16] = [
    1, 1, 3, 3, 5, 5, 7, 7, 9, 9, 11, 11, 13, 13, 15, 15,
];

/// In each four lanes the fourth.
pub(crate) const FOURTH_OF_FOUR: [usize; 16] = [
    3, 3, 3, 3, 7, 7, 7, 7, 11, 11, 11, 11, 15, 15, 15, 15,
];

/// The first vector, but the second of each pair of lanes from the second vector.
pub(crate) const KEEPING_SECOND: [usize; 16] = [
    0, 17, 2, 19, 4, 21, 6, 23, 8, 25, 10, 27, 12, 29, 14, 31,
];

/// The first vector, but the fourth of each four lanes from the second vector.
pub(crate) const KEEPING_FOURTH: [usize; 16] = [
    0, 1, 2, 19, 4, 5, 6, 23, 8, 9, 10, 27, 12, 13, 14, 31,
];

/// The lanes with even numbers, of both vectors.
pub(crate) const EVENS: [usize; 16] = [0, 2, 4, 6, 8, 10, 12, 14, 16, 18, 20, 22, 24, 26, 28, 30];

/// The lanes with odd numbers, of both vectors.
pub(crate) const ODDS: [usize; 16] = [1, 3, 5, 7, 9, 11, 13, 15, 17, 19, 21, 23, 25, 27, 29, 31];

/// The lanes of two vectors interleaved: the first sixteen.
pub(crate) const LOWS: [usize; 16] = [0, 16, 1, 17, 2, 18, 3, 19, 4, 20, 5, 21, 6, 22, 7, 23];

/// The lanes of two vectors interleaved: the second sixteen.
pub(crate) const HIGHS: [usize; 16] = [
    8, 24, 9, 25, 10, 26, 11, 27, 12, 28, 13, 29, 14, 30, 15, 31,
];

/// The pairs of lanes with even numbers, of both vectors.
pub(crate) const EVEN_PAIRS: [usize; 16] = [
    0, 1, 4, 5, 8, 9, 12, 13, 16, 17, 20, 21, 24, 25, 28, 29,
];

/// The pairs of lanes with odd numbers, of both vectors.
pub(crate) const ODD_PAIRS: [usize; 16] = [
    2, 3, 6, 7, 10, 11, 14, 15, 18, 19, 22, 23, 26, 27, 30, 31,
];

/// The fours of lanes with even numbers, of both vectors.
pub(crate) const EVEN_FOURS: [usize; 16] = [
    0, 1, 2, 3, 8, 9, 10, 11, 16, 17, 18, 19, 24, 25, 26, 27,
];

/// The fours of lanes with odd numbers, of both vectors.
pub(crate) const ODD_FOURS: [usize; 16] = [
    4, 5, 6, 7, 12, 13, 14, 15, 20, 21, 22, 23, 28, 29, 30, 31,
];

/// Every third lane from lane 0 on, as far as two of three vectors have them.
pub(crate) const FIRST_OF_THREE: [usize; 16] = [
    0, 3, 6, 9, 12, 15, 18, 21, 24, 27, 30, 0, 0, 0, 0, 0,
];

/// These, and the rest from the last of the three.
pub(crate) const FIRST_OF_LAST: [usize; 16] = [
    0, 1, 2, 3, 4, 5, 6, 7, 8, 9, 10, 17, 20, 23, 26, 29,
];

/// Every third lane from lane 1 on, as far as two of three vectors have them.
pub(crate) const SECOND_OF_THREE: [usize; 16] = [
    1, 4, 7, 10, 13, 16, 19, 22, 25, 28, 31, 0, 0, 0, 0, 0,
];

/// These, and the rest from the last of the three.
pub(crate) const SECOND_OF_LAST: [usize; 16] = [
    0, 1, 2, 3, 4, 5, 6, 7, 8, 9, 10, 18, 21, 24, 27, 30,
];

/// Every third lane from lane 2 on, as far as two of three vectors have them.
pub(crate) const THIRD_OF_THREE: [usize; 16] = [
    2, 5, 8, 11, 14, 17, 20, 23, 26, 29, 0, 0, 0, 0, 0, 0,
];

/// These, and the rest from the last of the three.
pub(crate) const THIRD_OF_LAST: [usize; 16] = [
    0, 1, 2, 3, 4, 5, 6, 7, 8, 9, 16, 19, 22, 25, 28, 31,
];

/// The lanes of three vectors interleaved, as far as they come from the first two: the first sixteen.
pub(crate) const FIRST_JOINED_BY_TWO: [usize; 16] = [
    0, 16, 0, 1, 17, 0, 2, 18, 0, 3, 19, 0, 4, 20, 0, 5,
];

/// These, and the rest from the last of the three.
pub(crate) const FIRST_JOINED_BY_LAST: [usize; 16] = [
    0, 1, 16, 3, 4, 17, 6, 7, 18, 9, 10, 19, 12, 13, 20, 15,
];

/// The lanes of three vectors interleaved, as far as they come from the first two: the second sixteen.
pub(crate) const SECOND_JOINED_BY_TWO: [usize; 16] = [
    21, 0, 6, 22, 0, 7, 23, 0, 8, 24, 0, 9, 25, 0, 10, 26,
];

/// These, and the rest from the last of the three.
pub(crate) const SECOND_JOINED_BY_LAST: [usize; 16] = [
    0, 21, 2, 3, 22, 5, 6, 23, 8, 9, 24, 11, 12, 25, 14, 15,
];

/// The lanes of three vectors interleaved, as far as they come from the first two: the third sixteen.
pub(crate) const THIRD_JOINED_BY_TWO: [usize; 16] = [
    0, 11, 27, 0, 12, 28, 0, 13, 29, 0, 14, 30, 0, 15, 31, 0,
];

/// These, and the rest from the last of the three.
pub(crate) const THIRD_JOINED_BY_LAST: [usize; 16] = [
    26, 1, 2, 27, 4, 5, 28, 7, 8, 29, 10, 11, 30, 13, 14, 31,
];

/// Each lane twice.
pub(crate) const DOUBLED: [usize; 32] = [
    0, 0, 1, 1, 2, 2, 3, 3, 4, 4, 5, 5, 6, 6, 7, 7, 8, 8, 9, 9, 10, 10, 11, 11, 12, 12, 13, 13, 14,
    14, 15, 15,
];
