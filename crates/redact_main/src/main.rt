// redact OUTPUT MODE pairs LITERAL FILLER [LITERAL FILLER]... < NOTE, or redact OUTPUT MODE names FILE < NOTE, as the
// script `redact` calls it (RULES 14.1 and 14.2): blanks the literals in a note, one after the other, and writes the
// text, or the alignments, to standard output. What is blanked and counted comes from `redact_all`, the pairs of a names
// file from `name_lines`; here the words are gathered, and the result is written, or not.
#![tactic(auto)]

mod arguments;
mod gathering;
mod lines;
mod messages;
mod telling;

ghost use Rattle.std.specs.Prelude.{◌≡◌, ◌≤◌, length};
ghost use Rattle.note.specs.Notes.{limit};

use arguments::{Mode, Order, Output, argument_count, order_asked};
use buffers::Offset;
use from_text::from_text;
use gathering::{gather, sizes_buffer, words_buffer};
use lines::write_alignments;
use messages::{
    fail, refuse_note, refuse_pairs, refuse_words, say_kept_back, say_let_pass, say_written, usage,
};
use note::NormalizedString;
use redact_all::{counts_buffer, redact_all};
use redact_in_place::{column_buffer, text_buffer};
use standard_input::{fill, large_buffer};
use std::io;
use std::io::Input;
use std::rt::{Env, Files};
use telling::{is_clean, tell_counts};

// The text, or its alignments, to standard output.
fn write(
    rt: &impl Print,
    text: &[u8],
    starts: &[Offset],
    ends: &[Offset],
    output: Output,
) -> io::Result<()>
    requires { (length starts.now ≡ length ends.now) × (length starts.now ≤ limit) }
{
    match output {
        Output::Text => rt.write_all(text),
        Output::Alignments => write_alignments(rt, starts, ends),
    }
}

// What is published is written, unless something was found that keeps it back.
fn finish(
    rt: &(impl Print + Eprint),
    clean: bool,
    mode: Mode,
    text: &[u8],
    starts: &[Offset],
    ends: &[Offset],
    output: Output,
)
    requires { (length starts.now ≡ length ends.now) × (length starts.now ≤ limit) }
{
    if !clean {
        match mode {
            Mode::Strict => {
                say_kept_back(rt);
                return;
            }
            Mode::Anyway => say_let_pass(rt),
        }
    }
    match write(rt, text, starts, ends, output) {
        Ok(()) => say_written(rt, text.len(), output),
        Err(error) => fail(rt, "standard output", error),
    }
}

// The note in `original`, with the literals of all pairs blanked.
fn publish(rt: &(impl Print + Eprint), original: &[u8], words: &[u8], sizes: &[u32], order: Order) {
    let mut starts = column_buffer();
    let mut ends = column_buffer();
    if let Err(k) = from_text(original, &mut starts, &mut ends) {
        refuse_note(rt, k);
        return;
    }
    let n = original.len();
    let mut out = text_buffer();
    let mut out_starts = column_buffer();
    let mut out_ends = column_buffer();
    let mut blanked = counts_buffer();
    let mut left = counts_buffer();
    let mut fillers = counts_buffer();
    match redact_all(
        &NormalizedString {
            original,
            normalized: original,
            starts: &starts[..n],
            ends: &ends[..n],
            original_shift: 0,
        },
        words,
        sizes,
        &mut out,
        &mut out_starts,
        &mut out_ends,
        &mut blanked,
        &mut left,
        &mut fillers,
    ) {
        Err(k) => refuse_pairs(rt, k),
        Ok(report) => {
            let pairs = sizes.len() / 2;
            let len = report.len;
            let clean = is_clean(report);
            tell_counts(
                rt,
                words,
                sizes,
                &blanked[..pairs],
                &left[..pairs],
                &fillers[..pairs],
            );
            finish(
                rt,
                clean,
                order.mode,
                &out[..len],
                &out_starts[..len],
                &out_ends[..len],
                order.output,
            );
        }
    }
}

// The note from standard input.
fn read_note(rt: &(impl Input + Print + Eprint), words: &[u8], sizes: &[u32], order: Order) {
    let mut input = rt.reader();
    let mut text = large_buffer();
    match fill(&mut input, &mut text) {
        Ok(n) => publish(rt, &text[..n], words, sizes, order),
        Err(error) => fail(rt, "standard input", error),
    }
}

// The pairs from the command line or from a file, and the note.
fn run(rt: &(impl Input + Print + Eprint + Env + Files), count: usize, order: Order) {
    let mut words = words_buffer();
    let mut sizes = sizes_buffer();
    match gather(rt, count, order.source, &mut words, &mut sizes) {
        Ok(gathered) => read_note(
            rt,
            &words[..gathered.bytes],
            &sizes[..gathered.words],
            order,
        ),
        Err(reason) => refuse_words(rt, reason),
    }
}

fn main(rt: HostRuntime) {
    let count = argument_count(&rt);
    match order_asked(&rt, count) {
        Some(order) => run(&rt, count, order),
        None => usage(&rt),
    }
}
