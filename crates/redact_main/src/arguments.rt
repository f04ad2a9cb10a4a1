// The arguments that the program was started with. Their bytes need not be UTF-8.
ghost use Rattle.std.specs.Prelude.{◌≡◌, ◌≤◌, IfSome, length};
ghost use Rattle.redact_main.specs.Asked.{CountFits};

use buffers::equality::same;
use std::env::FillError;
use std::rt::Env;

// The most bytes of an argument that is no literal and no filler.
const LONGEST: usize = 4096;

// What is written: the text, or its alignments.
#[derive(Clone, Copy)]
pub enum Output {
    Text,
    Alignments,
}

// Whether the result is also written where something was found that keeps it back.
#[derive(Clone, Copy)]
pub enum Mode {
    Strict,
    Anyway,
}

// Where the pairs are: in the arguments, or in the file that the argument after them names.
#[derive(Clone, Copy)]
pub enum Source {
    Pairs,
    Names,
}

// What the program was asked for.
#[derive(Clone, Copy)]
pub struct Order {
    pub output: Output,
    pub mode: Mode,
    pub source: Source,
}

// Room for an argument.
pub fn argument_buffer() -> [u8; LONGEST]
    ensures { 4096 ≡ length result }
{
    [0; LONGEST]
}

// How many there are, the program's own name among them.
pub fn argument_count(rt: &impl Env) -> usize {
    let mut none = [];
    for i in 0..usize::MAX {
        if let Err(FillError::NotPresent) = rt.arg(i, &mut none) {
            return i;
        }
    }
    usize::MAX
}

// The argument `i`, in front of `buf`; how many bytes, 0 where it is missing or longer than `buf`.
pub fn argument(rt: &impl Env, i: usize, buf: &mut [u8]) -> usize
    ensures { result ≤ length buf.new }
{
    rt.arg(i, buf).unwrap_or(0)
}

// Whether an argument is this word.
fn argument_is(rt: &impl Env, i: usize, word: &[u8]) -> bool {
    let mut space = argument_buffer();
    let n = argument(rt, i, &mut space);
    same(&space[..n], word)
}

fn output_asked(rt: &impl Env) -> Option<Output> {
    if argument_is(rt, 1, b"text") {
        return Some(Output::Text);
    }
    if argument_is(rt, 1, b"alignments") {
        return Some(Output::Alignments);
    }
    None
}

fn mode_asked(rt: &impl Env) -> Option<Mode> {
    if argument_is(rt, 2, b"strict") {
        return Some(Mode::Strict);
    }
    if argument_is(rt, 2, b"anyway") {
        return Some(Mode::Anyway);
    }
    None
}

// After `pairs` there are a literal and a filler at least, and as many literals as fillers; after `names` a file.
fn source_asked(rt: &impl Env, count: usize) -> Option<Source>
    ensures { IfSome result (λ source. CountFits source count) }
{
    if argument_is(rt, 3, b"pairs") && 5 < count && count % 2 == 0 {
        return Some(Source::Pairs);
    }
    if argument_is(rt, 3, b"names") && count == 5 {
        return Some(Source::Names);
    }
    None
}

// What a program was asked for that was started with `count` arguments, its own name among them.
pub fn order_asked(rt: &impl Env, count: usize) -> Option<Order>
    ensures { IfSome result (λ order. CountFits order.source count) }
{
    let output = output_asked(rt)?;
    let mode = mode_asked(rt)?;
    let source = source_asked(rt, count)?;
    Some(Order {
        output,
        mode,
        source,
    })
}
