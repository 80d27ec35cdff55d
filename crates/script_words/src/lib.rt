//! The words of scripts: lines, words, numbers and names of files, as they are read and as they are printed.
#![tactic(auto)]

mod file_name;
mod laws;
mod lines;
mod numbers;
mod spelling;
mod words;

pub use file_name::FileName;
pub use laws::{
    file_name_is_word, integer_is_word, integer_read_again, joined_words_are_text,
    length_of_joined, lines_read_again, name_is_word, natural_is_word, natural_read_again,
    text_is_line, words_of_text, words_read_again,
};
pub use lines::{is_text, next_line};
pub use numbers::{integer_in, natural_in};
pub use spelling::{push_integer, push_natural, push_word};
pub use words::split_words;
