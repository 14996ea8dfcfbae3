// F22, hexadecimal: what a line spells, and bytes as a line.
ghost use Rattle.std.specs.Prelude.{◌+◌, ◌-◌, ◌*◌, ◌/◌, ◌≤◌, ◌<◌, [], ◌∷◌, ◌≡◌, length, drop};
ghost use Rattle.ledger.specs.Limits.{large_size};
ghost use Rattle.text.specs.Fields.{field_at};
ghost use Rattle.text.specs.Hex.{digit_of, is_digit, is_hex, bytes_of, digit_for, hex_of, Spells, Puts};
ghost use Rattle.text.specs.Pairs.{pair_of, values_by, spelled_by, DigitPair, Pairs, DigitPairs, Spelled};

use ledger::LARGE_SIZE;

// Whether a character is 0-9 or A-F.
fn is_digit(c: u8) -> bool
    ensures { result ≡ is_digit c }
{
    let decimal = (b'0' <= c) & (c <= b'9');
    let letter = (b'A' <= c) & (c <= b'F');
    decimal | letter
}

// Whether a line is hexadecimal: an even count of digits and no other character.
pub fn is_hex(line: &[u8]) -> bool
    ensures { result ≡ is_hex line.now }
{
    line.iter()
        .fold(line.len() % 2 == 0, |ok, c| ok & is_digit(*c))
}

// Two characters as one number, as they stand in memory, so that to join many of them is one copy.
fn paired(first: u8, second: u8) -> u16
    ensures { result ≡ pair_of first second }
{
    first as u16 + 256 * (second as u16)
}

// The values of both digits of a pair at once, each where its character stands: the low four bits, and 9 more for a letter.
fn values_of(pair: u16) -> u16
    requires { DigitPair pair }
    ensures { result ≡ values_by pair }
{
    pair % 16 + 256 * (pair / 256 % 16) + 9 * (pair / 64 % 4 + 256 * (pair / 16384))
}

// The byte that a pair of digits spells.
fn spelled(pair: u16) -> u8
    requires { DigitPair pair }
    ensures { result ≡ spelled_by pair }
{
    let values = values_of(pair);
    (16 * (values % 256) + values / 256) as u8
}

// The byte at a place of those that a line spells.
pub fn byte_at(line: &[u8], at: usize) -> u8
    requires { Spells line.now (at + 1) }
    ensures { result ≡ field_at at 1 (bytes_of line.now) }
{
    spelled(paired(line[2 * at], line[2 * at + 1]))
}

// The number in two bytes from a place on.
pub fn short_at(line: &[u8], at: usize) -> u16
    requires { Spells line.now (at + 2) }
    ensures { result ≡ field_at at 2 (bytes_of line.now) }
{
    let high = byte_at(line, at);
    let low = byte_at(line, at + 1);
    256 * high as u16 + low as u16
}

// The number in four bytes from a place on.
pub fn word_at(line: &[u8], at: usize) -> u32
    requires { Spells line.now (at + 4) }
    ensures { result ≡ field_at at 4 (bytes_of line.now) }
{
    let high = short_at(line, at);
    let low = short_at(line, at + 2);
    65536 * high as u32 + low as u32
}

// The most bytes that are spelled in one go: those of the largest object.
pub const MOST_BYTES: usize = LARGE_SIZE as usize;

// Digits joined to pairs, all before the first is spelled: then many are read at once.
fn pairs(digits: &[u8]) -> [u16; MOST_BYTES]
    requires { length digits.now / 2 ≤ large_size }
    ensures { Pairs digits.now result }
{
    let mut out = [0; MOST_BYTES];
    // By index: of the pairs that `chunks_exact` gives a proof knows too little.
    for i in 0..digits.len() / 2 {
        out[i] = paired(digits[2 * i], digits[2 * i + 1]);
    }
    out
}

// The bytes of pairs, over a part.
fn spell(part: &mut [u8], pairs: &[u16; MOST_BYTES])
    requires { DigitPairs (length part.old) pairs.now }
    ensures { Spelled pairs.now (length part.old) part.new }
{
    for (i, byte) in part.iter_mut().enumerate() {
        *byte = spelled(pairs[i]);
    }
}

// The last bytes that a line spells, over a part of as many. Most frames have none, and for those no array of pairs is made.
pub fn spell_last(part: &mut [u8], line: &[u8])
    requires { Spells line.now (length part.old)
        × (length part.old ≤ large_size) }
    ensures { part.new ≡ drop (length line.now / 2 - length part.old) (bytes_of line.now) }
{
    if part.is_empty() {
        return;
    }
    let first = line.len() / 2 - part.len();
    let pairs = pairs(&line[2 * first..]);
    spell(part, &pairs);
}

// The digit of a value.
fn digit_for(value: u8) -> u8
    requires { value < 16 }
    ensures { result ≡ digit_for value }
{
    if value < 10 {
        b'0' + value
    } else {
        b'A' + (value - 10)
    }
}

// Bytes as digits, over a part of twice as many.
fn spell_out(part: &mut [u8], bytes: &[u8])
    requires { length part.old ≡ 2 * length bytes.now }
    ensures { part.new ≡ hex_of bytes.now }
{
    for (i, byte) in bytes.iter().enumerate() {
        part[2 * i] = digit_for(*byte / 16);
        part[2 * i + 1] = digit_for(*byte % 16);
    }
}

// Bytes as digits from a place of a buffer on; the place after them.
pub fn put_hex(out: &mut [u8], at: usize, bytes: &[u8]) -> usize
    requires { at + 2 * length bytes.now ≤ length out.old }
    ensures { Puts at (hex_of bytes.now) out.old out.new result }
{
    let end = at + 2 * bytes.len();
    spell_out(&mut out[at..end], bytes);
    end
}

// A byte as two digits at a place of a buffer; the place after them.
pub fn put_byte(out: &mut [u8], at: usize, byte: u8) -> usize
    requires { at + 2 ≤ length out.old }
    ensures { Puts at (hex_of (byte ∷ [])) out.old out.new result }
{
    out[at] = digit_for(byte / 16);
    out[at + 1] = digit_for(byte % 16);
    at + 2
}
