// The running position of an edit: from character to character of the range, and from command to command of the script.
// Each function here is an inner one: the text is well-formed, and the range lies on its boundaries.
ghost use Rattle.std.specs.Prelude.{◌≡◌};
ghost use Rattle.script.specs.Scripts.{commands_of};
ghost use Rattle.edit_steps.specs.Edits.{skipped, starves};
ghost use Rattle.edit_steps.specs.Walking.{Counting, Standing, measured, progress_after};

use note::NormalizedByte;
use script::{Command, entry_at};
use utf8::lead::{char_len, len_utf8};

// How far an edit is: the running position in the cleaned text, how many bytes have been written so far, and whether
// the last command found no character left. It is passed to each command and advanced there. It is no Option:
// `progress_after` tells position and count where the flag is set, too.
#[derive(Clone, Copy)]
pub struct Progress {
    pub position: NormalizedByte,
    pub written: usize,
    pub starved: bool,
}

// `count` characters on from `from`, or up to `to` where fewer are left.
pub fn skip(text: &[u8], to: NormalizedByte, count: usize, from: NormalizedByte) -> NormalizedByte
    requires { Standing text.now to.0 from.0 }
    ensures { result.0 ≡ skipped text.now to.0 count from.0 }
{
    let end = to.0 as usize;
    let mut p = from.0 as usize;
    for _ in 0..count {
        if end <= p {
            break;
        }
        p += char_len(text, p);
    }
    NormalizedByte(p as u32)
}

// Whether a replacing command finds no character left.
fn starves(to: NormalizedByte, position: NormalizedByte, command: Command) -> bool
    ensures { result ≡ starves to.0 position.0 command }
{
    if command.added {
        return false;
    }
    to.0 <= position.0
}

// A command goes by; one that finds no character left leaves position and count as they were.
fn step(text: &[u8], to: NormalizedByte, progress: Progress, command: Command) -> Progress
    requires { Counting text.now to.0 progress command }
    ensures { result ≡ progress_after text.now to.0 progress command }
{
    let position = progress.position;
    if starves(to, position, command) {
        return Progress {
            position,
            written: progress.written,
            starved: true,
        };
    }
    let written = progress.written + len_utf8(command.character);
    if command.added {
        return Progress {
            position,
            written,
            starved: false,
        };
    }
    Progress {
        position: skip(text, to, command.removed as usize + 1, position),
        written,
        starved: false,
    }
}

// The record is passed by reference to a command, which advances it.
fn advance(progress: &mut Progress, text: &[u8], to: NormalizedByte, command: Command)
    requires { Counting text.now to.0 progress.old command }
    ensures { progress.new
        ≡ progress_after text.now to.0 progress.old command }
{
    *progress = step(text, to, *progress, command);
}

// The record made, passed by reference and handed back: what everybody else calls.
pub fn advanced(text: &[u8], to: NormalizedByte, progress: Progress, command: Command) -> Progress
    requires { Counting text.now to.0 progress command }
    ensures { result ≡ progress_after text.now to.0 progress command }
{
    let mut running = progress;
    advance(&mut running, text, to, command);
    running
}

// Every command of a script goes by, from a position on.
pub fn measure(
    text: &[u8],
    to: NormalizedByte,
    position: NormalizedByte,
    script: &[u8],
) -> Option<usize>
    requires { Standing text.now to.0 position.0 }
    ensures { result ≡ measured text.now to.0 position.0 (commands_of script.now) }
{
    let mut progress = Progress {
        position,
        written: 0,
        starved: false,
    };
    let mut i = 0;
    while i < script.len() {
        let Some((command, next)) = entry_at(script, i) else {
            return Some(progress.written);
        };
        progress = advanced(text, to, progress, command);
        if progress.starved {
            return None;
        }
        i = next;
    }
    Some(progress.written)
}
