//! The fields of a script's commands: what the words of a line stand for, and how they are printed.
#![tactic(auto)]

mod cause;
mod field;
mod kind;
mod limits;
mod lists;
mod rectangles;

pub use cause::{LineAnswer, ScriptAnswer, ScriptCause};
pub use field::{Field, put_fields, put_names, put_samples};
pub use kind::{Kind, numbers_fit, read_fields, word_at};
pub use limits::{are_of, kinds_from, may_watch};
pub use lists::{names_in, naturals_in};
pub use rectangles::RectNumbers;
pub use script_words::FileName;
