// The frame of a line. The fields of an operation stand at fixed places, and its number at place 0.
ghost use Rattle.std.specs.Prelude.{◌/◌, ◌≤◌, true, ◌≡◌, ◌≢◌, MatchResult, length};
ghost use Rattle.ledger.specs.Limits.{large_size};
ghost use Rattle.ledger.specs.declared.Refusal.TheVariants.{WrongFrameLength};
ghost use Rattle.frames.specs.Frames.{Decodes, frame_as, frame_in, frame_of, join, schedule, make, refresh, read, write, report, remaining, batch, release};
ghost use Rattle.text.specs.Hex.{is_hex, bytes_of};

use ledger::{Call, Event, Frame, Kind, Quota, Refusal, Request, Share};
use text::batches::{HANDLE_WIDTH, MOST_HANDLE_BYTES};
use text::hex::{MOST_BYTES, byte_at, is_hex, short_at, spell_last, word_at};

// R18: a frame that has so many bytes and no other count.
fn sized(line: &[u8], size: usize) -> Result<(), Refusal>
    ensures { MatchResult result (λ _. length line.now / 2 ≡ size)
        (λ why. (length line.now / 2 ≢ size) × (why ≡ WrongFrameLength)) }
{
    if line.len() / 2 != size {
        return Err(Refusal::WrongFrameLength);
    }
    Ok(())
}

// F1: task, and reserve and limit of either store.
fn join(line: &[u8]) -> Frame
    requires { is_hex line.now ≡ true }
    ensures { result ≡ frame_as join (bytes_of line.now) }
{
    sized(line, 6)?;
    let task = byte_at(line, 1);
    let small = Quota {
        reserve: byte_at(line, 2),
        limit: byte_at(line, 3),
    };
    let large = Quota {
        reserve: byte_at(line, 4),
        limit: byte_at(line, 5),
    };
    let share = Share { small, large };
    Ok((Request::Use(Call::Join { task, share }), 0))
}

// F2 to F5, F14: task.
fn schedule(line: &[u8], event: Event) -> Frame
    requires { is_hex line.now ≡ true }
    ensures { result ≡ frame_as (schedule event) (bytes_of line.now) }
{
    sized(line, 2)?;
    let task = byte_at(line, 1);
    Ok((Request::Use(Call::Schedule { event, task }), 0))
}

// F6: task, kind, extension, length, prefix.
fn make(line: &[u8]) -> Frame
    requires { is_hex line.now ≡ true }
    ensures { result ≡ frame_as make (bytes_of line.now) }
{
    sized(line, 8)?;
    let kind = Kind::try_from(byte_at(line, 2))?;
    let task = byte_at(line, 1);
    let extension = byte_at(line, 3);
    let length = short_at(line, 4);
    let prefix = short_at(line, 6);
    Ok((
        Request::Use(Call::Make {
            task,
            kind,
            extension,
            length,
            prefix,
        }),
        0,
    ))
}

// F7: task, kind, extension, handle.
fn refresh(line: &[u8]) -> Frame
    requires { is_hex line.now ≡ true }
    ensures { result ≡ frame_as refresh (bytes_of line.now) }
{
    sized(line, 8)?;
    let kind = Kind::try_from(byte_at(line, 2))?;
    let task = byte_at(line, 1);
    let extension = byte_at(line, 3);
    let handle = word_at(line, 4);
    Ok((
        Request::Use(Call::Refresh {
            task,
            kind,
            extension,
            handle,
        }),
        0,
    ))
}

// F8: task, handle.
fn read(line: &[u8]) -> Frame
    requires { is_hex line.now ≡ true }
    ensures { result ≡ frame_as read (bytes_of line.now) }
{
    sized(line, 6)?;
    let task = byte_at(line, 1);
    let handle = word_at(line, 2);
    Ok((Request::Use(Call::Read { task, handle }), 0))
}

// F9: operation, task, handle and offset; then the bytes to write.
const WRITE_HEAD: usize = 7;

const LONGEST_WRITE: usize = WRITE_HEAD + MOST_BYTES;

fn write(line: &[u8]) -> Frame
    requires { is_hex line.now ≡ true }
    ensures { result ≡ frame_as write (bytes_of line.now) }
{
    let size = line.len() / 2;
    if size < WRITE_HEAD || LONGEST_WRITE < size {
        return Err(Refusal::WrongFrameLength);
    }
    let task = byte_at(line, 1);
    let handle = word_at(line, 2);
    let offset = byte_at(line, 6);
    Ok((
        Request::Use(Call::Write {
            task,
            handle,
            offset,
        }),
        size - WRITE_HEAD,
    ))
}

// F10: nothing.
fn report(line: &[u8]) -> Frame
    requires { is_hex line.now ≡ true }
    ensures { result ≡ frame_as report (bytes_of line.now) }
{
    sized(line, 1)?;
    Ok((Request::Report, 0))
}

// F11: task, handle.
fn remaining(line: &[u8]) -> Frame
    requires { is_hex line.now ≡ true }
    ensures { result ≡ frame_as remaining (bytes_of line.now) }
{
    sized(line, 6)?;
    let task = byte_at(line, 1);
    let handle = word_at(line, 2);
    Ok((Request::Remaining { task, handle }, 0))
}

// F12: operation, task, kind and extension; then the handles.
const BATCH_HEAD: usize = 4;

fn batch(line: &[u8]) -> Frame
    requires { is_hex line.now ≡ true }
    ensures { result ≡ frame_as batch (bytes_of line.now) }
{
    let size = line.len() / 2;
    if size < BATCH_HEAD || (size - BATCH_HEAD) % HANDLE_WIDTH != 0 {
        return Err(Refusal::WrongFrameLength);
    }
    let kind = Kind::try_from(byte_at(line, 2))?;
    let task = byte_at(line, 1);
    let extension = byte_at(line, 3);
    Ok((
        Request::Use(Call::Batch {
            task,
            kind,
            extension,
        }),
        (size - BATCH_HEAD).min(MOST_HANDLE_BYTES),
    ))
}

// F13: task, handle.
fn release(line: &[u8]) -> Frame
    requires { is_hex line.now ≡ true }
    ensures { result ≡ frame_as release (bytes_of line.now) }
{
    sized(line, 6)?;
    let task = byte_at(line, 1);
    let handle = word_at(line, 2);
    Ok((Request::Use(Call::Release { task, handle }), 0))
}

// By the operation's number; R17 where there is none.
fn frame_in(line: &[u8]) -> Frame
    requires { is_hex line.now ≡ true }
    ensures { result ≡ frame_in (bytes_of line.now) }
{
    if line.len() == 0 {
        return Err(Refusal::UnknownOperation);
    }
    match byte_at(line, 0) {
        1 => join(line),
        2 => schedule(line, Event::Leave),
        3 => schedule(line, Event::Block),
        4 => schedule(line, Event::Resume),
        5 => schedule(line, Event::Tick),
        6 => make(line),
        7 => refresh(line),
        8 => read(line),
        9 => write(line),
        10 => report(line),
        11 => remaining(line),
        12 => batch(line),
        13 => release(line),
        14 => schedule(line, Event::View),
        _ => Err(Refusal::UnknownOperation),
    }
}

// R16 comes before all.
fn frame_of(line: &[u8]) -> Frame
    ensures { result ≡ frame_of line.now }
{
    if is_hex(line) {
        frame_in(line)
    } else {
        Err(Refusal::NotHexadecimal)
    }
}

// The frame of a line; the bytes that come with a request go to the start of a buffer.
pub fn decode(line: &[u8], bytes: &mut [u8]) -> Frame
    requires { large_size ≤ length bytes.old }
    ensures { Decodes line.now bytes.old result bytes.new }
{
    let (request, count) = frame_of(line)?;
    spell_last(&mut bytes[..count], line);
    Ok((request, count))
}
