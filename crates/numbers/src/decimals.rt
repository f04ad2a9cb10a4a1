// Numbers in decimal digits.
ghost use Rattle.std.specs.Prelude.{◌≡◌, ◌+◌, ◌≤◌, length};
ghost use Rattle.buffers.specs.Splice.{Laid};
ghost use Rattle.numbers.specs.Decimal.{decimal, field};

// How many digits a number has.
pub fn count_digits(number: usize) -> usize
    ensures { result ≡ length (decimal number) }
{
    let mut left = number;
    let mut count = 1;
    while 10 <= left {
        left = left / 10;
        count += 1;
    }
    count
}

// The digits of `number` stand in `out` from `at` on, laid from the last one back; where they end.
// An inner function: its caller has measured the room for the digits.
pub fn write_decimal(number: usize, out: &mut [u8], at: usize) -> usize
    requires { at + length (decimal number) ≤ length out.old }
    ensures { Laid (decimal number) out.old at result out.new }
{
    let count = count_digits(number);
    let mut left = number;
    for i in (0..count).rev() {
        out[at + i] = b'0' + (left % 10) as u8;
        left = left / 10;
    }
    at + count
}

// The number and a byte after it, in `out` from `at` on; where they end.
// An inner function: its caller has measured the room for the digits and the byte after them.
pub fn write_field(number: usize, after: u8, out: &mut [u8], at: usize) -> usize
    requires { at + length (field number after) ≤ length out.old }
    ensures { Laid (field number after) out.old at result out.new }
{
    let end = write_decimal(number, out, at);
    out[end] = after;
    end + 1
}
