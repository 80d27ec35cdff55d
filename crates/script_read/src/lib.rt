//! The script language: the lines of a text are read as commands, and commands are printed as a text.
#![tactic(auto)]

mod arguments;
mod command;
mod commands;
mod fields;
mod forms;
mod keyword;
pub mod laws;
mod limits;
mod operation_word;
mod printer;
mod reader;
mod variants;

pub use command::{Command, Line, OpWords};
pub use limits::is_script;
pub use printer::print_script;
pub use reader::read_script;
pub use script_fields::{FileName, ScriptAnswer, ScriptCause};
