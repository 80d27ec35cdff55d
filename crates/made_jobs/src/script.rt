//! The text of a job's script.

ghost use Rattle.std.specs.Prelude.{◌≡◌, ◌+◌, ◌*◌, ◌/◌, ◌%◌, ◌^◌, ◌++◌, ◌∷◌, [], IfOk, OnOk, decimal};
ghost use Rattle.script_words.specs.{Lines.text_of, Words.joined};
ghost use Rattle.model_runs.specs.MadeJob.{draws, edit_lines, fill_by, fills, first_lines, last_lines, next_state, render_line, state_after_draws};

use crate::generator::Generator;
use alloc_basics::NoMemory;
use itoa::Buffer;
use script_words::push_natural;
use std::alloc::Global;

/// How often a part of the buffer is filled.
const EDITS: u32 = 24;

/// A buffer, and a graph of six nodes over it.
const FIRST_LINES: &str = "buffer a RGB8 0 0 512 384
load a 0 0 512 384 g.raw
node s source a
node k checker RGB8 -32 -32 576 448 32 0 64
node d add s k
node b box 3 CLAMP d
node e erode 1 NONE b
node i invert e
commit
";

/// What follows the edits: two of them are undone, and one is redone.
const LAST_LINES: &str = "undo
render i 0 0 0 512 384 r25.raw
undo
render i 0 0 0 512 384 r26.raw
redo
render i 0 0 0 512 384 r27.raw
";

/// Returns the text of the script that the next draws make.
pub(crate) fn put_script(alloc: Global, generator: &mut Generator) -> Result<Vec<u8>, NoMemory>
    ensures text { IfOk result (λ text. text.items ≡ text_of (first_lines ++ edit_lines 1 (fills 24 generator.old.state) ++ last_lines)) }
    ensures state { IfOk result (λ _. generator.new.state ≡ state_after_draws (24 * 7) generator.old.state) }
{
    let mut text = Vec::new(alloc);
    text.extend_from_slice(FIRST_LINES.as_bytes())?;
    put_render(&mut text, 0)?;
    put_edits(&mut text, EDITS, generator)?;
    text.extend_from_slice(LAST_LINES.as_bytes())?;
    Ok(text)
}

/// Appends so many fills, each with its commit and its render.
fn put_edits(text: &mut Vec<u8>, count: u32, generator: &mut Generator) -> Result<(), NoMemory>
    ensures text { OnOk result (text.new.items ≡ text.old.items ++ text_of (edit_lines 1 (fills count generator.old.state))) }
    ensures state { OnOk result (generator.new.state ≡ state_after_draws (count * 7) generator.old.state) }
{
    for edit in 0..count {
        put_fill(text, generator)?;
        text.extend_from_slice("\ncommit\n".as_bytes())?;
        put_render(text, edit + 1)?;
    }
    Ok(())
}

/// Appends a fill by seven draws: where it begins, its size, and a sample for each of three channels.
fn put_fill(text: &mut Vec<u8>, generator: &mut Generator) -> Result<(), NoMemory>
    ensures text { OnOk result (text.new.items ≡ text.old.items ++ joined (fill_by (draws 7 generator.old.state))) }
    ensures state { OnOk result (generator.new.state ≡ state_after_draws 7 generator.old.state) }
{
    text.extend_from_slice("fill a".as_bytes())?;
    put_draw(text, generator)?;
    put_draw(text, generator)?;
    put_size(text, generator)?;
    put_size(text, generator)?;
    put_draw(text, generator)?;
    put_draw(text, generator)?;
    put_draw(text, generator)
}

/// Appends a draw after a space.
fn put_draw(text: &mut Vec<u8>, generator: &mut Generator) -> Result<(), NoMemory>
    ensures text { OnOk result (text.new.items ≡ text.old.items ++ 32 ∷ decimal (next_state generator.old.state / 2 ^ 24)) }
    ensures state { OnOk result (generator.new.state ≡ next_state generator.old.state) }
{
    push_natural(text, u32::from(generator.draw()))
}

/// Appends a number from 1 to 32 by a draw, after a space.
fn put_size(text: &mut Vec<u8>, generator: &mut Generator) -> Result<(), NoMemory>
    ensures text { OnOk result (text.new.items ≡ text.old.items ++ 32 ∷ decimal (1 + next_state generator.old.state / 2 ^ 24 % 32)) }
    ensures state { OnOk result (generator.new.state ≡ next_state generator.old.state) }
{
    push_natural(text, u32::from(1 + generator.draw() % 32))
}

/// Appends the line of a render of a number.
fn put_render(text: &mut Vec<u8>, number: u32) -> Result<(), NoMemory>
    ensures { OnOk result (text.new.items ≡ text.old.items ++ render_line number ++ 10 ∷ []) }
{
    text.extend_from_slice("render i 0 0 0 512 384 r".as_bytes())?;
    text.extend_from_slice(Buffer::new().format(number).as_bytes())?;
    text.extend_from_slice(".raw\n".as_bytes())?;
    Ok(())
}
