//! The shuffles that vectors of each depth have.

/// A shuffle of two vectors, whose lanes are counted one after the other.
#[derive(Clone, Copy)]
pub enum ShuffleOfTwo {
    /// In each pair of lanes of the first vector the second, twice.
    SpreadSecond,
    /// In each four lanes of the first vector the fourth, four times.
    SpreadFourth,
    /// The first vector, but the second of each pair of lanes from the second vector.
    WithSecond,
    /// The first vector, but the fourth of each four lanes from the second vector.
    WithFourth,
    /// The lanes with even numbers.
    Evens,
    /// The lanes with odd numbers.
    Odds,
    /// The pairs of lanes with even numbers.
    EvenPairs,
    /// The pairs of lanes with odd numbers.
    OddPairs,
    /// The fours of lanes with even numbers.
    EvenFours,
    /// The fours of lanes with odd numbers.
    OddFours,
    /// The lanes of both vectors interleaved: the first sixteen.
    JoinedLow,
    /// The lanes of both vectors interleaved: the second sixteen.
    JoinedHigh,
}

/// A shuffle of three vectors, whose lanes are counted one after the other.
#[derive(Clone, Copy)]
pub enum ShuffleOfThree {
    /// Every third lane, from the first on.
    Firsts,
    /// Every third lane, from the second on.
    Seconds,
    /// Every third lane, from the third on.
    Thirds,
    /// The lanes of the three vectors interleaved: the first sixteen.
    JoinedFirst,
    /// The lanes of the three vectors interleaved: the second sixteen.
    JoinedSecond,
    /// The lanes of the three vectors interleaved: the third sixteen.
    JoinedThird,
}

/// Shuffles the lanes of two vectors of each depth, by the positions of the shuffle that is given.
/// The positions of each are a constant, as an instruction wants them.
macro_rules! shuffle_by {
    ($first:expr, $second:expr, $shuffle:expr, $kind:ident { $($name:ident => $positions:ident,)* }) => {
        match $shuffle {
            $($crate::shuffles::$kind::$name => $first.shuffle($second, $crate::positions::$positions),)*
        }
    };
}

/// Shuffles the lanes of two vectors.
macro_rules! shuffle_of_two {
    ($first:expr, $second:expr, $shuffle:expr) => {
        $crate::shuffles::shuffle_by!($first, $second, $shuffle, ShuffleOfTwo {
            SpreadSecond => SECOND_OF_TWO,
            SpreadFourth => FOURTH_OF_FOUR,
            WithSecond => KEEPING_SECOND,
            WithFourth => KEEPING_FOURTH,
            Evens => EVENS,
            Odds => ODDS,
            EvenPairs => EVEN_PAIRS,
            OddPairs => ODD_PAIRS,
            EvenFours => EVEN_FOURS,
            OddFours => ODD_FOURS,
            JoinedLow => LOWS,
            JoinedHigh => HIGHS,
        })
    };
}

/// Shuffles the lanes of the first two of three vectors.
macro_rules! shuffle_of_first_two {
    ($first:expr, $second:expr, $shuffle:expr) => {
        $crate::shuffles::shuffle_by!($first, $second, $shuffle, ShuffleOfThree {
            Firsts => FIRST_OF_THREE,
            Seconds => SECOND_OF_THREE,
            Thirds => THIRD_OF_THREE,
            JoinedFirst => FIRST_JOINED_BY_TWO,
            JoinedSecond => SECOND_JOINED_BY_TWO,
            JoinedThird => THIRD_JOINED_BY_TWO,
        })
    };
}

/// Shuffles the lanes that the first two of three vectors gave, and those of the third.
macro_rules! shuffle_with_third {
    ($two:expr, $third:expr, $shuffle:expr) => {
        $crate::shuffles::shuffle_by!($two, $third, $shuffle, ShuffleOfThree {
            Firsts => FIRST_OF_LAST,
            Seconds => SECOND_OF_LAST,
            Thirds => THIRD_OF_LAST,
            JoinedFirst => FIRST_JOINED_BY_LAST,
            JoinedSecond => SECOND_JOINED_BY_LAST,
            JoinedThird => THIRD_JOINED_BY_LAST,
        })
    };
}

pub(crate) use shuffle_by;
pub(crate) use shuffle_of_first_two;
pub(crate) use shuffle_of_two;
pub(crate) use shuffle_with_third;
