// The result of an edit, laid into the passed buffers.
// Each function here is an inner one: no command of the script starves, and there is room for the result.
ghost use Rattle.std.specs.Prelude.{◌≡◌, ◌+◌, ◌≤◌};
ghost use Rattle.script.specs.Scripts.{commands_of};
ghost use Rattle.edit_steps.specs.Edits.{carried_value};
ghost use Rattle.edit_steps.specs.Laying.{Below, CommandOver, EditLaid, EditRoom, Reached, Room};
ghost use Rattle.edit_steps.specs.Laying.{CommandsLaid, CommandsRoom};
ghost use Rattle.edit_steps.specs.Walking.{commands_size};

use crate::walking::{Progress, advanced};
use buffers::Offset;
use buffers::blocks::fill_over;
use buffers::parts::keep;
use code_points::put_character;
use note::{NormalizedByte, before_end};
use script::{Command, entry_at};

// What a command's character carries of a column.
fn carries(column: &[Offset], position: NormalizedByte, command: Command) -> Offset
    requires { Reached column.now position.0 command }
    ensures { result ≡ carried_value column.now position.0 command }
{
    let at = position.0 as usize;
    if command.added {
        return before_end(column, at);
    }
    column[at]
}

// One command's character, with what it carries; what is written after it stays below `until`.
pub fn lay_command(
    starts: &[Offset],
    ends: &[Offset],
    progress: Progress,
    command: Command,
    out: &mut [u8],
    out_starts: &mut [Offset],
    out_ends: &mut [Offset],
    until: usize,
)
    requires { Room starts.now ends.now progress command out.old out_starts.old out_ends.old
        × Below until out.old out_starts.old out_ends.old }
    ensures { CommandOver starts.now ends.now progress command
        out.old out_starts.old out_ends.old until
        out.new out_starts.new out_ends.new }
{
    let at = progress.written;
    let position = progress.position;
    let size = put_character(command.character, out, at, until);
    fill_over(
        carries(starts, position, command),
        size,
        out_starts,
        at,
        until,
    );
    fill_over(carries(ends, position, command), size, out_ends, at, until);
}

// Every command of a script from a position on, laid from `at` on; how far they reach. `until` is no further.
fn lay_script(
    text: &[u8],
    starts: &[Offset],
    ends: &[Offset],
    to: NormalizedByte,
    position: NormalizedByte,
    script: &[u8],
    out: &mut [u8],
    out_starts: &mut [Offset],
    out_ends: &mut [Offset],
    at: usize,
    until: usize,
) -> usize
    requires { CommandsRoom text.now starts.now ends.now to.0 position.0 (commands_of script.now)
        out.old out_starts.old out_ends.old at
        × (until ≤ at + commands_size (commands_of script.now)) }
    ensures { CommandsLaid text.now starts.now ends.now
        to.0 position.0 (commands_of script.now) out.old out_starts.old out_ends.old at
        result out.new out_starts.new out_ends.new }
{
    let mut progress = Progress {
        position,
        written: at,
        starved: false,
    };
    let mut i = 0;
    while i < script.len() {
        let Some((command, next)) = entry_at(script, i) else {
            return progress.written;
        };
        lay_command(
            starts, ends, progress, command, out, out_starts, out_ends, until,
        );
        progress = advanced(text, to, progress, command);
        i = next;
    }
    progress.written
}

// What is before the range, what the script gives, `size` bytes, and what is after the range; how many bytes that is.
pub fn lay_edit(
    text: &[u8],
    starts: &[Offset],
    ends: &[Offset],
    from: NormalizedByte,
    to: NormalizedByte,
    position: NormalizedByte,
    script: &[u8],
    out: &mut [u8],
    out_starts: &mut [Offset],
    out_ends: &mut [Offset],
    size: usize,
) -> usize
    requires { EditRoom text.now starts.now ends.now from.0 to.0 position.0 (commands_of script.now)
        out.old out_starts.old out_ends.old
        × (size ≡ commands_size (commands_of script.now)) }
    ensures { EditLaid text.now starts.now ends.now
        from.0 to.0 position.0 (commands_of script.now) out.old out_starts.old out_ends.old
        result out.new out_starts.new out_ends.new }
{
    let first = from.0 as usize;
    let end = to.0 as usize;
    keep(text, starts, ends, 0, first, out, out_starts, out_ends, 0);
    let at = lay_script(
        text,
        starts,
        ends,
        to,
        position,
        script,
        out,
        out_starts,
        out_ends,
        first,
        first + size,
    );
    keep(
        text,
        starts,
        ends,
        end,
        text.len(),
        out,
        out_starts,
        out_ends,
        at,
    );
    at + (text.len() - end)
}
