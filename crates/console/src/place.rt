// Where a byte of a text stands, for people: lines and columns count from 1.
ghost use Rattle.std.specs.Prelude.{◌≡◌, ◌<◌, ◌^◌, length};
ghost use Rattle.console.specs.Places.{after_byte, place_after};

#[derive(Clone, Copy)]
pub struct Place {
    pub line: usize,
    pub column: usize,
}

const LINE_FEED: u8 = 10;

// The place after one byte more.
fn after(b: u8, p: Place) -> Place
    requires { (p.line < 2 ^ 63) × (p.column < 2 ^ 63) }
    ensures { result ≡ after_byte b p }
{
    if b == LINE_FEED {
        return Place {
            line: p.line + 1,
            column: 1,
        };
    }
    Place {
        line: p.line,
        column: p.column + 1,
    }
}

// The place of the byte after these.
pub fn place_after(text: &[u8]) -> Place
    requires { length text.now < 2 ^ 32 }
    ensures { result ≡ place_after text.now }
{
    let mut p = Place { line: 1, column: 1 };
    for b in text {
        p = after(*b, p);
    }
    p
}
