//! What is built of scripts: all but watches.

ghost use Rattle.std.specs.Prelude.{◌≡◌};
ghost use Rattle.model_runs.specs.Built.{first_unbuilt};

use run_lines::is_of_watch;
use script_read::Line;

/// Returns the number of the first line that isn't built, and None where all are. Takes time in proportion to the
/// number of lines.
pub fn first_unbuilt(lines: &[Line]) -> Option<u32>
    ensures { result ≡ first_unbuilt lines.now }
{
    for line in lines {
        if is_of_watch(&line.command) {
            return Some(line.number);
        }
    }
    None
}
