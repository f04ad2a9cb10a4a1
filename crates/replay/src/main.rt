// Replays fixed lists of the Rust original's answers on the exported calls, and prints for each call how many there
// are and how many differ. `compare/run list` wrote the lists; compare/src/list.rs says how they are laid out. Each
// call has a file, a name in the file `calls` and an arm here.
#![tactic(auto)]

mod matches;
mod notes;
mod ranges;
mod texts;

ghost use Rattle.stored_answers.specs.Counts.{IsPrefixLen};

use replayed_pieces::printing::printed;
use standard_input::{large_buffer, open};
use std::io::Read;
use std::rt::Files;
use stored_answers::calls::{CALLS, Call};
use stored_answers::fields::field;
use stored_answers::unpack::unpack;

// The most bytes of a case, unpacked.
const CASE: usize = 3145728;

// How many answers were replayed, and how many of them differ.
#[derive(Clone, Copy)]
struct Tally {
    answers: u64,
    differing: u64,
}

// Whether the call answers as the case says. A `match`: each call has buffers of its own, and a closure for each would
// be no plainer.
fn agrees(call: Call, case: &[u8]) -> bool {
    match call {
        Call::WellFormed => texts::well_formed(case),
        Call::LetterCount => texts::letter_count(case),
        Call::CharOffsets => texts::char_offsets(case),
        Call::FromText => notes::from_text(case),
        Call::Part => ranges::part(case),
        Call::FindMatches => matches::find_matches(case),
        Call::Pieces => printed(case),
        Call::OnNote(on_note) => notes::on_note(on_note, case),
    }
}

// All cases of a list, up to the first empty field: there are no more of them than bytes.
fn replayed(call: Call, list: &[u8]) -> Tally {
    let mut space = [0; CASE];
    let mut answers: usize = 0;
    let mut differing: u64 = 0;
    // The list ends at its first empty field, so `while`: how many were answered is told after the loop.
    while answers < list.len() {
        let packed = field(list, answers);
        if packed.len() == 0 {
            break;
        }
        let n = unpack(packed, &mut space);
        if !agrees(call, &space[..n]) {
            differing += 1;
        }
        answers += 1;
    }
    Tally {
        answers: answers as u64,
        differing,
    }
}

fn print(rt: &impl Print, name: &[u8], t: Tally) {
    let answers = t.answers;
    let differing = t.differing;
    let _ = rt.write_all(name);
    let _ = println!(rt; ": {answers} answers, {differing} differ");
}

// What `file` has, in front of `space`, up to its end or until a read fails; how many bytes. Of a read that fails
// `standard_input::fill` says only why; here what was read before it counts.
fn read_full<F: Read>(file: &mut F, space: &mut [u8]) -> usize
    ensures { IsPrefixLen result space.new }
{
    let mut done = 0;
    while done < space.len() {
        match file.read(&mut space[done..]) {
            Ok(0) | Err(_) => break,
            Ok(n) => done += n,
        }
    }
    done
}

// What the file of this name, in the folder where the program runs, holds, in front of `space`; how many bytes, none
// where it cannot be opened.
fn read_file(rt: &impl Files, name: &[u8], space: &mut [u8]) -> usize
    ensures { IsPrefixLen result space.new }
{
    match open(rt, name) {
        Ok(mut file) => read_full(&mut file, space),
        Err(_) => 0,
    }
}

// The list in the file of this name.
fn replay(rt: &(impl Files + Print), call: Call, name: &[u8]) {
    let mut list = large_buffer();
    let n = read_file(rt, name, &mut list);
    print(rt, name, replayed(call, &list[..n]));
}

// Every call: its file's name has its place among `calls`.
fn replay_all(rt: &(impl Files + Print), calls: &[u8]) {
    for (i, call) in CALLS.iter().enumerate() {
        replay(rt, *call, field(calls, i));
    }
}

fn main(rt: HostRuntime) {
    let mut calls = large_buffer();
    let n = read_file(&rt, b"calls", &mut calls);
    replay_all(&rt, &calls[..n]);
}
