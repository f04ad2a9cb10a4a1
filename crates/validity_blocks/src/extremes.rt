// The largest byte of a text, and its least lead byte: which test a block asks for.
ghost use Rattle.std.specs.Prelude.{◌≡◌};
ghost use Rattle.validity_blocks.specs.Extremes.{largest, least_lead};

// The largest byte, or 0.
pub fn largest(s: &[u8]) -> u8
    ensures { result ≡ largest s.now }
{
    let mut most: u8 = 0;
    for b in s {
        most = most.max(*b);
    }
    most
}

// The largest byte of a text, or 0, and its least lead byte, counted from C0 on, or 0x40: counted so, and around past
// FF, lead bytes are the least of all.
#[derive(Clone, Copy)]
pub struct Bounds {
    pub most: u8,
    pub least: u8,
}

// Both in one pass: each byte is loaded once.
pub fn bounds_of(s: &[u8]) -> Bounds
    ensures { (result.most ≡ largest s.now) × (result.least ≡ least_lead s.now) }
{
    let mut most: u8 = 0;
    let mut least: u8 = 0x40;
    for b in s {
        most = most.max(*b);
        least = least.min(b.wrapping_add(0x40));
    }
    Bounds { most, least }
}
