// The words of all pairs, literals and fillers, from the command line or from a names file. Which bytes come is the
// system's; that they fit the buffers is proved.
ghost use Rattle.std.specs.Prelude.{◌≡◌, ◌≤◌, IfOk, length};
ghost use Rattle.redact_main.specs.Gathering.{GatheredWithin, room};

use crate::arguments::{Source, argument, argument_buffer};
use name_lines::{BadLine, read_names};
use standard_input::{fill, open};
use std::io::Read;
use std::rt::{Env, Files};
use std::{fmt, io};
use validity::well_formed;

// The most bytes of all words together, and of a names file one more.
const ROOM: usize = 262144;

// The first argument that is a word, or the name of the names file.
const FIRST: usize = 4;

// How many bytes and how many words there are.
#[derive(Clone, Copy)]
pub struct Gathered {
    pub bytes: usize,
    pub words: usize,
}

// Why there are no words to use.
#[derive(Clone, Copy)]
pub enum NoWords {
    TooLong,
    // The word at this place, counted from 0: literals and fillers in turn.
    Torn(usize),
    Unread(io::Error),
    LongNames,
    EmptyNames,
    Faulty(BadLine),
}

impl From<io::Error> for NoWords {
    fn from(error: io::Error) -> NoWords {
        NoWords::Unread(error)
    }
}

impl From<BadLine> for NoWords {
    fn from(line: BadLine) -> NoWords {
        NoWords::Faulty(line)
    }
}

// What failed, and what to do. Literals are numbered from 1 on, as they were given.
impl fmt::Display for NoWords {
    fn fmt<W: fmt::Write>(&self, f: &mut fmt::Formatter<W>) -> fmt::Result {
        match self {
            NoWords::TooLong => write!(
                f,
                "redact: the literals and fillers have more than 262,144 bytes together; blank some of them first"
            ),
            NoWords::Torn(k) => {
                let number = *k / 2 + 1;
                let of = if *k % 2 == 0 { "" } else { "the filler of " };
                write!(
                    f,
                    "refused 1 torn: {of}literal {number} is not UTF-8; type it in a UTF-8 terminal"
                )
            }
            NoWords::Unread(error) => write!(f, "redact: the names file: {error}"),
            NoWords::LongNames => write!(
                f,
                "redact: the names file has more than 262,143 bytes; blank the names of a part of it first"
            ),
            NoWords::EmptyNames => write!(
                f,
                "redact: the names file is empty; it has a literal, a tab and a filler on each line"
            ),
            NoWords::Faulty(line) => write!(f, "refused {line}"),
        }
    }
}

// Room for the words.
pub fn words_buffer() -> [u8; ROOM]
    ensures { room ≡ length result }
{
    [0; ROOM]
}

// Room for the size of each.
pub fn sizes_buffer() -> [u32; ROOM]
    ensures { room ≡ length result }
{
    [0; ROOM]
}

// The words of the command line of a program that was started with `count` arguments, its own name among them.
fn gather_arguments(
    rt: &impl Env,
    count: usize,
    words: &mut [u8],
    sizes: &mut [u32],
) -> Result<Gathered, NoWords>
    requires { (room ≡ length words.old) × (room ≡ length sizes.old) }
    ensures { IfOk result (λ g. GatheredWithin g words.new sizes.new) }
{
    let mut at = 0;
    for (k, size) in sizes.iter_mut().enumerate() {
        if count <= FIRST + k {
            return Ok(Gathered {
                bytes: at,
                words: k,
            });
        }
        let Ok(n) = rt.arg(FIRST + k, &mut words[at..]) else {
            return Err(NoWords::TooLong);
        };
        let end = at + n;
        if !well_formed(&words[at..end]) {
            return Err(NoWords::Torn(k));
        }
        *size = n as u32;
        at = end;
    }
    Err(NoWords::TooLong)
}

// The words of a names file that was read.
fn gather_names(names: &[u8], words: &mut [u8], sizes: &mut [u32]) -> Result<Gathered, NoWords>
    requires { (room ≡ length words.old) × (room ≡ length sizes.old) × (length names.now ≤ room) }
    ensures { IfOk result (λ g. GatheredWithin g words.new sizes.new) }
{
    if names.is_empty() {
        return Err(NoWords::EmptyNames);
    }
    let read = read_names(names, words, sizes)?;
    Ok(Gathered {
        bytes: read.bytes,
        words: read.sizes,
    })
}

// The words of an open file.
fn gather_open<F: Read>(
    file: &mut F,
    words: &mut [u8],
    sizes: &mut [u32],
) -> Result<Gathered, NoWords>
    requires { (room ≡ length words.old) × (room ≡ length sizes.old) }
    ensures { IfOk result (λ g. GatheredWithin g words.new sizes.new) }
{
    let mut names = words_buffer();
    let n = fill(file, &mut names)?;
    if n == ROOM {
        return Err(NoWords::LongNames);
    }
    gather_names(&names[..n], words, sizes)
}

// The words of the file that the argument `FIRST` names.
fn gather_file(
    rt: &(impl Env + Files),
    words: &mut [u8],
    sizes: &mut [u32],
) -> Result<Gathered, NoWords>
    requires { (room ≡ length words.old) × (room ≡ length sizes.old) }
    ensures { IfOk result (λ g. GatheredWithin g words.new sizes.new) }
{
    let mut name = argument_buffer();
    let n = argument(rt, FIRST, &mut name);
    let mut file = open(rt, &name[..n])?;
    gather_open(&mut file, words, sizes)
}

// The words of all pairs, from the names file or from the command line.
// An inner function: the buffers are those of `words_buffer` and `sizes_buffer`.
pub fn gather(
    rt: &(impl Env + Files),
    count: usize,
    source: Source,
    words: &mut [u8],
    sizes: &mut [u32],
) -> Result<Gathered, NoWords>
    requires { (room ≡ length words.old) × (room ≡ length sizes.old) }
    ensures { IfOk result (λ g. GatheredWithin g words.new sizes.new) }
{
    match source {
        Source::Names => gather_file(rt, words, sizes),
        Source::Pairs => gather_arguments(rt, count, words, sizes),
    }
}
