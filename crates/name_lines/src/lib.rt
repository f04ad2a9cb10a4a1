// A names file (RULES 14.8): each line has a literal, a tab and a filler. Its lines are line_judged, and their words are
// written end to end, with the size of each, as `word_pairs` takes them.
#![tactic(auto)]

ghost use Rattle.std.specs.Prelude.{◌≡◌, ◌+◌, ◌≤◌, ◌<◌, drop, length};
ghost use Rattle.buffers.specs.Splice.{overlay};
ghost use Rattle.name_lines.specs.Names.{line_judged, names_of, NamesRead, sizes_in, tab_at, words_in};
ghost use Rattle.name_lines.specs.Reading.{end_len, Judged, line_len, LinePut, LineRoom, Writable};

use buffers::copy;
use std::fmt;
use validity::well_formed;

// What is wrong with a line.
#[derive(Clone, Copy)]
pub enum LineFault {
    NotUtf8,
    NoTab,
    TwoTabs,
    NoLiteral,
}

impl fmt::Display for LineFault {
    fn fmt<W: fmt::Write>(&self, f: &mut fmt::Formatter<W>) -> fmt::Result {
        match self {
            LineFault::NotUtf8 => write!(f, "it is not UTF-8; save the names file as UTF-8"),
            LineFault::NoTab => write!(f, "it has no tab between a literal and a filler"),
            LineFault::TwoTabs => write!(f, "it has more than one tab"),
            LineFault::NoLiteral => write!(f, "it has no literal before the tab"),
        }
    }
}

// A bad line: its number, counted from 1, and what is wrong with it.
#[derive(Clone, Copy)]
pub struct BadLine {
    pub number: usize,
    pub fault: LineFault,
}

impl fmt::Display for BadLine {
    fn fmt<W: fmt::Write>(&self, f: &mut fmt::Formatter<W>) -> fmt::Result {
        let number = self.number;
        let fault = self.fault;
        write!(f, "line {number}: {fault}")
    }
}

// How many bytes of words a names file has, and how many sizes.
#[derive(Clone, Copy)]
pub struct Names {
    pub bytes: usize,
    pub sizes: usize,
}

// How many bytes end a line at `i`: an LF, a CR and an LF, or none.
fn end_len(text: &[u8], i: usize) -> usize
    requires { i ≤ length text.now }
    ensures { result ≡ end_len text.now i }
{
    if text.len() <= i {
        return 0;
    }
    if text[i] == b'\n' {
        return 1;
    }
    if text.len() - i < 2 {
        return 0;
    }
    if (text[i] == b'\r') & (text[i + 1] == b'\n') {
        return 2;
    }
    0
}

// Where the line ends that begins at `start`.
fn line_end(text: &[u8], start: usize) -> usize
    requires { start ≤ length text.now }
    ensures { result ≡ start + line_len (drop start text.now) }
{
    for i in start..text.len() {
        if end_len(text, i) != 0 {
            return i;
        }
    }
    text.len()
}

// Where the first tab is; the line's length where there is none.
fn tab_at(line: &[u8]) -> usize
    ensures { result ≡ tab_at line.now }
{
    line.iter().position(|b| *b == b'\t').unwrap_or(line.len())
}

// Whether a line has a literal, one tab and a filler, or what is wrong with it.
fn judge_line(line: &[u8]) -> Result<(), LineFault>
    ensures { result ≡ line_judged line.now }
{
    if !well_formed(line) {
        return Err(LineFault::NotUtf8);
    }
    let tab = tab_at(line);
    if line.len() <= tab {
        return Err(LineFault::NoTab);
    }
    let filler = tab + 1;
    if tab_at(&line[filler..]) < line.len() - filler {
        return Err(LineFault::TwoTabs);
    }
    if tab == 0 {
        return Err(LineFault::NoLiteral);
    }
    Ok(())
}

// What a names file has, or its first bad line. Nothing is written.
fn judge_names(text: &[u8]) -> Result<Names, BadLine>
    ensures { Judged text.now result }
{
    let mut start = 0;
    let mut bytes = 0;
    let mut lines = 0;
    while start < text.len() {
        let end = line_end(text, start);
        lines += 1;
        if let Err(fault) = judge_line(&text[start..end]) {
            return Err(BadLine {
                number: lines,
                fault,
            });
        }
        bytes += end - start - 1;
        start = end + end_len(text, end);
    }
    Ok(Names {
        bytes,
        sizes: 2 * lines,
    })
}

// The literal and the filler of a line, in `words` from `at` on, and their sizes, in `sizes` from `k` on. The answer is
// where the words end.
fn put_line(line: &[u8], words: &mut [u8], at: usize, sizes: &mut [u32], k: usize) -> usize
    requires { LineRoom line.now words.old at sizes.old k }
    ensures { LinePut line.now words.old at sizes.old k result
        words.new sizes.new }
{
    let tab = tab_at(line);
    let filler = tab + 1;
    copy(&line[..tab], words, at);
    copy(&line[filler..], words, at + tab);
    sizes[k] = tab as u32;
    sizes[k + 1] = (line.len() - filler) as u32;
    at + line.len() - 1
}

// The words of all lines in front of `words`, and their sizes in front of `sizes`.
fn write_names(text: &[u8], words: &mut [u8], sizes: &mut [u32])
    requires { Writable text.now words.old sizes.old }
    ensures { (words.new ≡ overlay (words_in (names_of text.now)) words.old)
        × (sizes.new ≡ overlay (sizes_in (names_of text.now)) sizes.old) }
{
    let mut start = 0;
    let mut at = 0;
    let mut k = 0;
    while start < text.len() {
        let end = line_end(text, start);
        at = put_line(&text[start..end], words, at, sizes, k);
        k += 2;
        start = end + end_len(text, end);
    }
}

// The pairs of a names file: all words in front of `words`, and their sizes in front of `sizes`. A file with a bad line
// leaves both as they were.
// An inner function: its caller has found each buffer as long as the file, which has fewer than 2^32 bytes.
pub fn read_names(text: &[u8], words: &mut [u8], sizes: &mut [u32]) -> Result<Names, BadLine>
    requires { (length text.now ≤ length words.old) × (length text.now ≤ length sizes.old)
        × (length text.now < 0x100000000) }
    ensures { NamesRead text.now words.old sizes.old result
        words.new sizes.new }
{
    let names = judge_names(text)?;
    write_names(text, words, sizes);
    Ok(names)
}
