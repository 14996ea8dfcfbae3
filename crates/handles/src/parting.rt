// Handles told apart in full, on any bytes in as many steps: the blocks are parted by the last bits of their handles, then each part by the
// digit above. A part is known by a number below the count of blocks: by its last block, once a digit was looked at.
ghost use Rattle.std.specs.Prelude.{◌≡◌, ◌<◌, eqb, length};
ghost use Rattle.lists.specs.Tables.{all_from};
ghost use Rattle.record.specs.WellFormed.{is_distinct};
ghost use Rattle.handles.specs.Handles.{is_alone_in, UsedFlags, FirstPart, FirstParts, key_of, key_count, Below, Keys, Lasts, Places, Partable, Refined};

use record::BLOCK_COUNT;

// The bits of a handle that the first parts go by.
const FIRST_BITS: u32 = 6;

// The bits of a digit: with more there are fewer rounds, over more keys.
const DIGIT_BITS: u32 = 3;

// The numbers that a digit can be.
const RADIX: u32 = 1 << DIGIT_BITS;

// Parts and digits that are possible.
const KEYS: usize = BLOCK_COUNT * (RADIX as usize);

// So many digits stand above the first bits.
const DIGITS: u32 = 9;

fn first_part(handle: u32) -> u8
    ensures { FirstPart handle result }
{
    (handle % (1 << FIRST_BITS)) as u8
}

fn first_parts(handles: &[u32; BLOCK_COUNT]) -> [u8; BLOCK_COUNT]
    ensures { FirstParts handles.now result }
{
    let mut out = [0; BLOCK_COUNT];
    for (i, handle) in handles.iter().enumerate() {
        out[i] = first_part(*handle);
    }
    out
}

// A block's part with the digit above so many bits of its handle.
fn key_of(bits: u32, part: u8, handle: u32) -> u16
    requires { bits < 32 }
    ensures { result ≡ key_of bits part handle }
{
    (part as u16) * (RADIX as u16) + (((handle >> bits) % RADIX) as u16)
}

fn keys_of(bits: u32, parts: &[u8; BLOCK_COUNT], handles: &[u32; BLOCK_COUNT]) -> [u16; BLOCK_COUNT]
    requires { Partable bits parts.now }
    ensures { Keys bits parts.now handles.now result }
{
    let mut out = [0; BLOCK_COUNT];
    for (i, handle) in handles.iter().enumerate() {
        out[i] = key_of(bits, parts[i], *handle);
    }
    out
}

// The last block of each key that a block has; of others nothing is told.
fn lasts(keys: &[u16; BLOCK_COUNT]) -> [u8; KEYS]
    requires { Below keys.now }
    ensures { Lasts keys.now result }
{
    let mut out = [0; KEYS];
    for (i, key) in keys.iter().enumerate() {
        out[*key as usize] = i as u8;
    }
    out
}

fn places(keys: &[u16; BLOCK_COUNT], lasts: &[u8; KEYS]) -> [u8; BLOCK_COUNT]
    requires { Below keys.now }
    ensures { Places keys.now lasts.now result }
{
    let mut out = [0; BLOCK_COUNT];
    for (i, key) in keys.iter().enumerate() {
        out[i] = lasts[*key as usize];
    }
    out
}

fn refined(bits: u32, parts: &[u8; BLOCK_COUNT], handles: &[u32; BLOCK_COUNT]) -> [u8; BLOCK_COUNT]
    requires { Partable bits parts.now }
    ensures { Refined bits parts.now handles.now result }
{
    let keys = keys_of(bits, parts, handles);
    let lasts = lasts(&keys);
    places(&keys, &lasts)
}

// Each block in use is alone in its part.
fn all_alone(used: &[bool; BLOCK_COUNT], parts: &[u8; BLOCK_COUNT]) -> bool
    ensures { result ≡ all_from 0 (is_alone_in used.now) parts.now }
{
    used.iter().zip(parts).enumerate().fold(
        true,
        |alone, (i, (used, part))| alone & (!*used | (usize::from(*part) == i)),
    )
}

pub fn parted(handles: &[u32; BLOCK_COUNT], used: &[bool; BLOCK_COUNT]) -> bool
    requires { UsedFlags handles.now used.now }
    ensures { result ≡ is_distinct handles.now }
{
    let mut parts = first_parts(handles);
    for digit in 0..DIGITS {
        let finer = refined(FIRST_BITS + DIGIT_BITS * digit, &parts, handles);
        if all_alone(used, &finer) {
            return true;
        }
        parts = finer;
    }
    all_alone(used, &parts)
}
