// Passes over chunks whose lines are digits alone, and copies their data, as numbers alone: half the time of going from state to state, at
// chunks of 16.
#![tactic(auto)]

ghost use Rattle.std.specs.Prelude.{◌≡◌, ◌+◌, ◌≤◌, length};
ghost use Rattle.text.specs.Placing.{placed};
ghost use Rattle.size_lines.specs.helpers.Lines.{PlainSize};
ghost use Rattle.size_lines.specs.helpers.Words.{word as word_of, ShortOf};
ghost use Rattle.plain_chunks.specs.helpers.Runs.{FrontOf, PlainChunk, Passed};

use size_lines::{Short, SizeLine};

// How many bytes were passed over, and the data: with that of the chunk whose line is the last of them, if one is. Its size is above zero.
// Numbers, not a state: that takes 0.95 of the time at chunks of 16.
#[derive(Clone, Copy)]
pub struct Run {
    pub taken: usize,
    pub total: usize,
    pub size: usize,
}

// A chunk with a line of digits alone: it lies whole in the bytes, or only its line does. Or any other.
#[derive(Clone, Copy)]
enum Chunk {
    Whole(SizeLine),
    Begun(SizeLine),
    Other,
}

const NO_LINE: Short = Short {
    word: 0,
    line: None,
};

// From the start of a line behind `before` bytes of data: over chunks that lie whole in the bytes, and over the line of the next. Their
// data is put behind the data so far. No byte of any other line is passed.
pub fn pass(before: usize, bytes: &[u8], out: &mut [u8]) -> Run
    ensures { Passed before bytes.now out.old result out.new }
{
    let room = out.len();
    if before > room {
        return Run {
            taken: 0,
            total: before,
            size: 0,
        };
    }
    let mut at = 0;
    let mut total = before;
    let mut last = NO_LINE;
    // a cursor: a turn passes over one chunk
    while at < bytes.len() {
        last = short_line(&bytes[at..], last);
        match plain_chunk(&bytes[at..], room - total, last) {
            Chunk::Whole(line) => {
                let data = at + line.length;
                put_data(&bytes[data..data + line.size], out, total);
                at = data + line.size + 2;
                total += line.size;
            }
            Chunk::Begun(line) => {
                return Run {
                    taken: at + line.length,
                    total: total + line.size,
                    size: line.size,
                };
            }
            Chunk::Other => break,
        }
    }
    Run {
        taken: at,
        total,
        size: 0,
    }
}

// The short line at the front of the bytes. One like the last is not read again: then nothing waits for its digits (0.5 of the time at
// chunks of 16, 0.6 at 64).
fn short_line(bytes: &[u8], last: Short) -> Short
    requires { ShortOf last }
    ensures { ShortOf result × FrontOf bytes.now result }
{
    if bytes.len() < 4 {
        return NO_LINE;
    }
    let word = front_word(bytes);
    if word == last.word {
        return last;
    }
    size_lines::read_word(word)
}

// The first four bytes as one number, the first the lowest.
fn front_word(bytes: &[u8]) -> u32
    requires { 4 ≤ length bytes.now }
    ensures { result ≡ word_of bytes.now }
{
    u32::from_le_bytes([bytes[0], bytes[1], bytes[2], bytes[3]])
}

// A chunk at the front of the bytes with a line of digits alone; `short` is its short line, if it has one.
fn plain_chunk(bytes: &[u8], left: usize, short: Short) -> Chunk
    requires { ShortOf short × FrontOf bytes.now short }
    ensures { PlainChunk bytes.now left result }
{
    match short.line {
        Some(line) if line.size <= left => ended_chunk(bytes, line, left),
        _ => match size_lines::plain_line(bytes, left) {
            Some(line) => ended_chunk(bytes, line, left),
            None => Chunk::Other,
        },
    }
}

// Behind its line.
fn ended_chunk(bytes: &[u8], line: SizeLine, left: usize) -> Chunk
    requires { PlainSize bytes.now left line.size line.length }
    ensures { PlainChunk bytes.now left result }
{
    let behind = &bytes[line.length..];
    if behind.len() < 2
        || line.size > behind.len() - 2
        || behind[line.size] != b'\r'
        || behind[line.size + 1] != b'\n'
    {
        return Chunk::Begun(line);
    }
    Chunk::Whole(line)
}

// Puts the data of a whole chunk at a place where it fits.
fn put_data(src: &[u8], out: &mut [u8], at: usize)
    requires { at + length src.now ≤ length out.old }
    ensures { out.new ≡ placed out.old at src.now }
{
    let end = at + src.len();
    block_copies::copy(&mut out[at..end], src);
}
