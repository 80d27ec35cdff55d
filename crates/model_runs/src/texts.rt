//! The texts of a run, each a line with its line feed.

ghost use Rattle.std.specs.Prelude.{◌≡◌, string_bytes, IfOk};
ghost use Rattle.model_runs.specs.Texts.{grab_text, refusal_text, render_text, report_text, sum_text};

use crate::cause::Cause;
use std::alloc::{AllocError, Global};

/// Returns the text of a line that is refused.
pub fn refusal_text(alloc: Global, line: u32, cause: Cause) -> Result<String, AllocError>
    ensures { IfOk result (λ text. string_bytes text ≡ refusal_text line cause) }
{
    format!(in alloc; "line {line}: {cause}\n")
}

/// Returns the text of a render line whose file of so many bytes is written, `commit` being the number of
/// the last commit.
pub fn render_text(
    alloc: Global,
    line: u32,
    commit: u64,
    bytes: usize,
) -> Result<String, AllocError>
    ensures { IfOk result (λ text. string_bytes text ≡ render_text line commit bytes) }
{
    format!(in alloc; "render {line} commit {commit} bytes {bytes}\n")
}

/// Returns the text of a grab line whose file of so many bytes is written.
pub fn grab_text(alloc: Global, line: u32, bytes: usize) -> Result<String, AllocError>
    ensures { IfOk result (λ text. string_bytes text ≡ grab_text line bytes) }
{
    format!(in alloc; "grab {line} bytes {bytes}\n")
}

/// Returns the text of the sum of all bytes that a made job's files have.
pub fn sum_text(alloc: Global, sum: u128) -> Result<String, AllocError>
    ensures { IfOk result (λ text. string_bytes text ≡ sum_text sum) }
{
    format!(in alloc; "sum {sum}\n")
}

/// Returns the text at a run's end: how many tiles of nodes were computed, and how many were found in the
/// cache.
pub fn report_text(alloc: Global, applied: u64, reused: u64) -> Result<String, AllocError>
    ensures { IfOk result (λ text. string_bytes text ≡ report_text applied reused) }
{
    format!(in alloc; "report applied {applied} reused {reused}\n")
}
