//! What the types of words and of what they name share: the variants of one are those of the other.

/// Returns all variants of a type of words.
macro_rules! all_variants {
    ($words:ident: $($variant:ident),+) => {
        [$($words::$variant),+]
    };
}

/// Returns the variant of a type of words that has the name of a value's variant.
macro_rules! same_variant {
    ($value:ident, $values:ident => $words:ident: $($variant:ident),+) => {
        match $value {
            $($values::$variant { .. } => $words::$variant,)+
        }
    };
}

/// Returns the first variant of a list that has a word, and None exactly where none has it.
macro_rules! find_by_word {
    ($variants:ident, $word:ident) => {
        $variants
            .iter()
            .copied()
            .find(|variant| variant.word().as_bytes() == $word)
    };
}

pub(crate) use all_variants;
pub(crate) use find_by_word;
pub(crate) use same_variant;
