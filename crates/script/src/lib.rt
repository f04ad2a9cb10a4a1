// Edit scripts (RULES 7): the one reader of a command, and the judge of a script.
// No other crate knows how many bytes a command has.
#![tactic(auto)]

ghost use Rattle.std.specs.Prelude.{◌≡◌, ◌+◌, ◌≤◌, length};
ghost use Rattle.script.specs.Scripts.{command_at, removal_at, whole, command_size};

use numbers::little_endian::{get_u16_le, get_u32_le};
use utf8::lead::len_utf8;

// A character of the new text, and what it does to the old one (Rust: `(char, isize)`): it is added, the Rust's 1;
// or it replaces a character and removes so many after it, the Rust's 0 and -1, -2 and so on. Two fields, and no enum:
// `commands_of` and the laws of edits speak of each.
#[derive(Clone, Copy)]
pub struct Command {
    pub character: u32,
    pub added: bool,
    pub removed: u32,
}

// How many bytes a command has, by its first; 0 for an unknown one.
fn command_size(command: u8) -> usize
    ensures { result ≡ command_size command }
{
    if command == 1 {
        return 5;
    }
    if command == 2 {
        return 5;
    }
    if command == 3 {
        return 7;
    }
    0
}

// The removing command at `i`, whose character has been read.
#[tactic(auto, unfolding(crate::specs::Scripts::removal_at, crate::specs::Scripts::removed_at))]
fn removal_at(script: &[u8], i: usize, character: u32) -> Option<(Command, usize)>
    requires { i + 7 ≤ length script.now }
    ensures { result ≡ removal_at script.now i character }
{
    let removed = get_u16_le(script, i + 5);
    if removed == 0 {
        return None;
    }
    Some((
        Command {
            character,
            added: false,
            removed: removed as u32,
        },
        i + 7,
    ))
}

// What is at byte `i` of the script.
pub fn entry_at(script: &[u8], i: usize) -> Option<(Command, usize)>
    ensures { result ≡ command_at script.now i }
{
    if script.len() <= i {
        return None;
    }
    let command = script[i];
    let width = command_size(command);
    if width == 0 {
        return None;
    }
    if script.len() - i < width {
        return None;
    }
    let character = get_u32_le(script, i + 1);
    if len_utf8(character) == 0 {
        return None;
    }
    if width == 7 {
        return removal_at(script, i, character);
    }
    Some((
        Command {
            character,
            added: command == 2,
            removed: 0,
        },
        i + 5,
    ))
}

// Whether each entry of a script is a command.
pub fn whole(script: &[u8]) -> bool
    ensures { result ≡ whole script.now }
{
    let mut i = 0;
    while i < script.len() {
        let Some((_, next)) = entry_at(script, i) else {
            return false;
        };
        i = next;
    }
    true
}
