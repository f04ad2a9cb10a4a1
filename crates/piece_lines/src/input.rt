// The input as it is read, byte by byte (RULES 14.4): what is kept of it, however long it is.
ghost use Rattle.std.specs.Prelude.{◌≡◌, ◌+◌};
ghost use Rattle.piece_lines.specs.Scanning.{counted, scanned, seen_after};

// The most bytes of the literal and of the note.
pub const LONGEST: usize = 8192;

// What was seen of the input so far: the lines' lengths, counted up to one more than the longest, and the behaviour's
// digit. It is kept as the byte that was read, since the clauses of `Seen` (`seen_after`, `Keeps`) have it so.
#[derive(Clone, Copy)]
pub enum Seen {
    Literal(usize), // some bytes of the first line
    Behavior(usize), // all of it
    Chosen(usize, u8), // and the digit of the second line
    Note(usize, u8, usize), // and its LF, and some bytes of the third line
    Whole(usize, u8, usize), // all three lines
    Shapeless, // what no three lines begin with
}

fn one_more(n: usize) -> usize
    ensures { result ≡ counted (n + 1) }
{
    n.min(LONGEST) + 1
}

// One more byte.
fn step(seen: Seen, byte: u8) -> Seen
    ensures { result ≡ seen_after seen byte }
{
    match seen {
        Seen::Literal(n) => {
            if byte == b'\n' {
                return Seen::Behavior(n);
            }
            Seen::Literal(one_more(n))
        }
        Seen::Behavior(n) => match byte {
            b'1'..=b'5' => Seen::Chosen(n, byte),
            _ => Seen::Shapeless,
        },
        Seen::Chosen(n, digit) => {
            if byte == b'\n' {
                return Seen::Note(n, digit, 0);
            }
            Seen::Shapeless
        }
        Seen::Note(n, digit, m) => {
            if byte == b'\n' {
                return Seen::Whole(n, digit, m);
            }
            Seen::Note(n, digit, one_more(m))
        }
        Seen::Whole(_, _, _) | Seen::Shapeless => Seen::Shapeless,
    }
}

// Some more bytes.
pub fn scan(seen: Seen, bytes: &[u8]) -> Seen
    ensures { result ≡ scanned seen bytes.now }
{
    let mut so_far = seen;
    for byte in bytes {
        so_far = step(so_far, *byte);
    }
    so_far
}
