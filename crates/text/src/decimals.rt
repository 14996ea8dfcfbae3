// P5: numbers in decimal, as programs print them.
ghost use Rattle.std.specs.Prelude.{◌+◌, ◌≤◌, [], ◌∷◌, ◌++◌, length};
ghost use Rattle.text.specs.Decimals.{numeral_of, places, numeral};
ghost use Rattle.text.specs.Hex.{Puts};

// The most digits of a number.
const PLACES: usize = 5;

// A number of at most so many digits, from a place of the buffer on; the place after it.
fn put_numeral(places: usize, n: u32, out: &mut [u8], at: usize) -> usize
    requires { at + places ≤ length out.old }
    ensures { Puts at (numeral_of places n) out.old out.new result }
{
    if places == 0 {
        return at;
    }
    if n < 10 {
        out[at] = b'0' + n as u8;
        return at + 1;
    }
    let next = put_numeral(places - 1, n / 10, out, at);
    out[next] = b'0' + (n % 10) as u8;
    next + 1
}

// A number, and the character after it.
pub fn put_number(n: u32, after: u8, out: &mut [u8], at: usize) -> usize
    requires { at + places + 1 ≤ length out.old }
    ensures { Puts at (numeral n ++ (after ∷ [])) out.old out.new result }
{
    let next = put_numeral(PLACES, n, out, at);
    out[next] = after;
    next + 1
}
