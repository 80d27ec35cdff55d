//! Rectangles, buffers and nodes in few words, for tests and benchmarks.
#![tactic(auto)]

mod rectangles;

use model_graphs::{Body, BufferFact, NodeEdit, NodeSpec};
use model_operations::IntOp;
use pixel_formats::Format;
use plane_rect::{Name, NameList, Rect};
pub use rectangles::rect;
use script_read::{Command, OpWords, read_script};
use std::alloc::Global;

/// Returns the name that a word is. None where it is none.
pub fn name(word: &str) -> Option<Name> {
    Name::parse(word.as_bytes())
}

/// Returns a buffer that sees the whole of a root of its own name, by its name and by the x, y, width and height of its
/// box. None where the word is no name.
pub fn buffer(word: &str, format: Format, fields: [i64; 4]) -> Option<BufferFact> {
    Some(whole(name(word)?, format, rect(fields)))
}

/// Returns a node of the image of a buffer, by the names of both. None where one is no name.
pub fn source<O>(word: &str, buffer: &str) -> Option<NodeSpec<O>> {
    let (name, buffer) = (name(word)?, name(buffer)?);
    Some(NodeSpec {
        name,
        body: Body::Source { buffer },
    })
}

/// Returns the list of the names that words are. None where one is no name, or memory runs out.
fn names(alloc: Global, words: &[&str]) -> Option<NameList> {
    let mut names = Vec::new(alloc);
    for word in words {
        names.push(name(word)?).ok()?;
    }
    Some(NameList::new(names))
}

/// Returns a node of an operation, by its name and by those of its inputs. None where one is no name, or memory runs out.
pub fn node<O: Drop>(alloc: Global, word: &str, op: O, inputs: &[&str]) -> Option<NodeSpec<O>> {
    let (name, inputs) = (name(word)?, names(alloc, inputs)?);
    Some(NodeSpec {
        name,
        body: Body::Compute { op, inputs },
    })
}

/// Returns the operation that words are, as a line `node` has them after the node's name. None where they are none, or memory
/// runs out.
pub fn operation(alloc: Global, words: &str) -> Option<IntOp> {
    let line = format!(in alloc; "node x {words}").ok()?;
    match read_script(alloc, line.as_bytes()).ok()?.pop()?.command {
        Command::Node { op: words, .. } => match words {
            OpWords::Compute { op } => Some(op),
            OpWords::Source { .. } => None,
        },
        _ => None,
    }
}

/// Buffers and edits of nodes.
#[derive(Drop)]
pub struct Sketch {
    pub buffers: Vec<BufferFact>,
    pub edits: Vec<NodeEdit<IntOp>>,
}

/// Returns what the lines of a script make: a buffer for each line `buffer`, and an edit for each line `node` and `drop`.
/// None where the text is no script or has other lines, or memory runs out.
pub fn sketched(alloc: Global, script: &str) -> Option<Sketch> {
    let mut sketch = Sketch {
        buffers: Vec::new(alloc),
        edits: Vec::new(alloc),
    };
    for line in read_script(alloc, script.as_bytes()).ok()? {
        sketch.add(line.command)?;
    }
    Some(sketch)
}

impl Sketch {
    /// Adds what a command makes.
    fn add(&mut self, command: Command) -> Option<()> {
        match command {
            Command::Buffer { name, format, rect } => self
                .buffers
                .push(whole(name, format, rect))
                .ok(),
            Command::Node { name, op, inputs } => {
                let body = body(op, inputs);
                self.edits.push(NodeEdit::Set(NodeSpec { name, body })).ok()
            }
            Command::Drop { name } => self.edits.push(NodeEdit::Remove(name)).ok(),
            _ => None,
        }
    }
}

/// Returns a buffer that sees the whole of a root of its own name.
fn whole(name: Name, format: Format, bounds: Rect) -> BufferFact {
    BufferFact {
        name,
        root: name,
        bounds,
        format,
    }
}

/// Returns what a node does, by its words and its inputs.
fn body(words: OpWords, inputs: NameList) -> Body<IntOp> {
    match words {
        OpWords::Source { buffer } => Body::Source { buffer },
        OpWords::Compute { op } => Body::Compute { op, inputs },
    }
}
