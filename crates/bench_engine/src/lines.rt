//! Lines of scripts, from texts in which numbers are filled in.

use int_ops::IntOp;
use model_graphs::{Body, NodeEdit, NodeSpec};
use script_read::{Command, Line, OpWords, read_script};
use std::alloc::Global;

/// Returns the numbers of a text: the round from 0 on and from 1 on, 64 times the first, the image's columns and rows of
/// pixels, an eighth of each, and the columns of a part of it.
pub fn numbers_of(round: u32, columns: u32) -> [u32; 8] {
    [
        round,
        round.saturating_add(1),
        round.saturating_mul(64),
        columns,
        columns / 2,
        columns / 8,
        columns / 16,
        columns.min(512),
    ]
}

/// Returns the lines of a text in which `%` with a digit stands for a number. None where it is no script, or memory
/// runs out.
pub fn lines_of(alloc: Global, text: &str, numbers: [u32; 8]) -> Option<Vec<Line>> {
    let mut filled = Vec::new(alloc);
    let mut parts = text.as_bytes().split(|byte| *byte == b'%');
    filled.extend_from_slice(parts.next()?).ok()?;
    for part in parts {
        put_number(&mut filled, alloc, part, numbers)?;
    }
    read_script(alloc, &filled).ok()
}

/// Adds the number that a digit stands for, and what is after the digit.
fn put_number(filled: &mut Vec<u8>, alloc: Global, part: &[u8], numbers: [u32; 8]) -> Option<()> {
    let (digit, rest) = part.split_first()?;
    let number = numbers.get(usize::from(digit.wrapping_sub(b'0')))?;
    let word = format!(in alloc; "{number}").ok()?;
    filled.extend_from_slice(word.as_bytes()).ok()?;
    filled.extend_from_slice(rest).ok()
}

/// Returns the edit of nodes that a command is. None where it is none.
pub fn node_edit(command: Command) -> Option<NodeEdit<IntOp>> {
    match command {
        Command::Node { name, op, inputs } => {
            let body = match op {
                OpWords::Source { buffer } => Body::Source { buffer },
                OpWords::Compute { op } => Body::Compute { op, inputs },
            };
            Some(NodeEdit::Set(NodeSpec { name, body }))
        }
        _ => None,
    }
}
