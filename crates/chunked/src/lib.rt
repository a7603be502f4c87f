// Reads chunked bodies in two passes over the input: the first decides, the second copies the data of a body that is whole.
#![tactic(auto)]

ghost use Rattle.std.specs.Prelude.{◌≡◌, ℕ, ◌+◌, ◌-◌, ◌*◌, ◌<◌, ◌≤◌, true, List, [], ◌∷◌, length};
ghost use Rattle.octets.specs.Bytes.{hex?, hex_value};
ghost use Rattle.framing.specs.declared.LinePos.TheVariants.{First};
ghost use Rattle.framing.specs.declared.State.TheVariants.{Line, LineFeed, Trail, EndLf};
ghost use Rattle.framing.specs.helpers.Machine.{trailer};
ghost use Rattle.framing.specs.Reading.{decode_output, decode as decodeIn};
ghost use Rattle.chunked.specs.Verdict.{verdict};
ghost use Rattle.positions.specs.helpers.Ends.{cr_byte};
ghost use Rattle.chunked.specs.helpers.Passes.{ending_answer, Closing};
ghost use Rattle.chunked.specs.helpers.Passes.{At, WholeOf, SizeRead, LineRead, Last, LineAt, ChunkRead};
ghost use Rattle.chunked.specs.helpers.Passes.{CrlfAt, LastAt, ChunkAt, SomeChunk, Known, Short, Plain, Reached};
ghost use Rattle.chunked.specs.helpers.Passes.{HasSecond, SizeAt, FirstCr, SameAt, word_at, Chunks, InChunks, Laid};
ghost use Rattle.chunked.specs.helpers.Tails.{TailAt, TailKnown, DigitsTo};

use framing::{ExtPos, LINE_LIMIT, TRAILER_LIMIT, TrailPos, Whole};
use octets::Refusal;

// Whole: what is told of the body. More: the input may begin a body.
#[derive(Clone, Copy)]
pub enum Answer {
    Whole(Whole),
    More,
    Refused(Refusal),
}

// What reading ends with: a whole body of so many bytes, with the length of its trailer; or the answer. It is smaller than an answer,
// because every chunk line is read through it (0.9 of the time at chunks of random length).
#[derive(Clone, Copy)]
enum Ending {
    Whole { taken: usize, trailer: usize },
    More,
    Refused(Refusal),
}

// A chunk line that was read: its place, its bytes with CR LF, and its size. No bytes: none was read. It and `Tail` stand in no `Option`:
// with one, 1.1 times the instructions at chunks of 1 to 64.
#[derive(Clone, Copy)]
struct ChunkLine {
    at: usize,
    length: usize,
    size: usize,
}

const NO_LINE: ChunkLine = ChunkLine {
    at: 0,
    length: 0,
    size: 0,
};

// What stands behind the digits of a chunk line that was read: its place, and its bytes with CR LF. No bytes: nothing is known.
#[derive(Clone, Copy)]
struct Tail {
    at: usize,
    length: usize,
}

const NO_TAIL: Tail = Tail { at: 0, length: 0 };

// How far the first pass has come: the place of the next chunk line, the bytes of data before it, and the line of the last chunk, if the
// next is to be compared with it.
#[derive(Clone, Copy)]
struct Run {
    at: usize,
    total: usize,
    last: ChunkLine,
}

const START: Run = Run {
    at: 0,
    total: 0,
    last: NO_LINE,
};

// What the first pass finds: the answer, and the line of the last chunk, if it is known. In a body of one chunk it is the first line too:
// the second pass then need not read it again (0.8 of the time at one chunk of 1,024 bytes).
#[derive(Clone, Copy)]
struct Decided {
    answer: Answer,
    last: ChunkLine,
}

// The digits but 0 as bits: `1` to `9`, `A` to `F`, `a` to `f`, counted from `0`.
const LEADING: u64 = 0x7e0000007e03fe;

// CR and LF as one number, CR the lower byte.
const CRLF: u16 = 0x0a0d;

// How many bytes a short chunk is copied by, with what stands behind it.
const WIDE: usize = 64;

// Reads a chunked body at the front of `input`. Whole: its data stands at the front of `out`, and the rest of `out` is kept. Any other
// answer leaves `out` as it was.
pub fn decode(input: &[u8], out: &mut [u8]) -> Answer
    ensures answers { verdict result ≡ decodeIn (length out.old) input.now }
    ensures writes { out.new ≡ decode_output input.now out.old }
{
    let Decided { answer, last } = decide(input, out.len());
    if let Answer::Whole(body) = answer {
        copy(input, out, body.length, last);
    }
    answer
}

// The answer alone: the first pass. Data is never looked at. What a quick path passes over is not looked at again; where it stands still,
// the careful path reads one chunk.
fn decide(input: &[u8], room: usize) -> Decided
    ensures answers { verdict result.answer ≡ decodeIn room input.now }
    ensures chunks { InChunks room input.now result.answer × Known input.now result.last }
{
    let mut run = START;
    loop {
        let Run { at, total, last } = run;
        if last_line(input, at) {
            let answer = ending_answer(closing(input, at + 3, total, room), total);
            return Decided { answer, last };
        }
        let next = quick_chunks(input, run, room);
        if next.at > at {
            run = next;
        } else {
            match chunk(input, at, total, room) {
                Ok(last) => {
                    run = Run {
                        at: at + last.length + last.size + 2,
                        total: total + last.size,
                        last,
                    }
                }
                Err(ending) => {
                    let answer = ending_answer(ending, total);
                    return Decided { answer, last };
                }
            }
        }
    }
}

// Passes over chunks with the line of the last one, then over chunks with one or two digits and what stood behind the digits of that line.
// Each kind has a loop of its own, which keeps what it needs in registers (0.75 of the time at chunks of 16).
fn quick_chunks(input: &[u8], run: Run, room: usize) -> Run
    requires { Reached room input.now run }
    ensures { Reached room input.now result × (run.at ≤ result.at) }
{
    let next = same_chunks(input, run, room);
    let tail = tail_of(input, run.last);
    if tail.length > 0 {
        return read_chunks(
            input,
            next,
            room,
            |at, left| tailed_chunk(input, tail, at, left),
        );
    }
    read_chunks(input, next, room, |at, left| short_chunk(input, at, left))
}

// Passes over chunks with the line of the last one.
fn same_chunks(input: &[u8], run: Run, room: usize) -> Run
    requires { Reached room input.now run }
    ensures { Reached room input.now result × (run.at ≤ result.at) }
{
    let last = run.last;
    let mut at = run.at;
    let mut total = run.total;
    while again(input, last, at, room - total) {
        at = at + last.length + last.size + 2;
        total += last.size;
    }
    Run { at, total, last }
}

// Passes over chunks with lines that `read` finds at a place, with what is left of the room, up to one that has the size of the one before:
// its line may come again.
fn read_chunks<F: Fn(usize, usize) -> ChunkLine>(
    input: &[u8],
    run: Run,
    room: usize,
    read: F,
) -> Run
    requires reached { Reached room input.now run }
    requires callable { (at left : ℕ) → at ≤ length input.now → F.pre read at left }
    requires reads { (at left : ℕ) (line : ChunkLine) → at ≤ length input.now → F.post read at left line → Plain input.now at left line }
    ensures { Reached room input.now result × (run.at ≤ result.at) }
{
    let mut at = run.at;
    let mut left = room - run.total;
    let mut size = 0;
    loop {
        let last = read(at, left);
        if last.length == 0 {
            let total = room - left;
            return Run { at, total, last };
        }
        at = at + last.length + last.size + 2;
        left -= last.size;
        if last.size == size {
            let total = room - left;
            return Run { at, total, last };
        }
        size = last.size;
    }
}

// Copies the data of a body that is whole: the second pass.
fn copy(input: &[u8], out: &mut [u8], len: usize, first: ChunkLine)
    requires whole_of { WholeOf (length out.old) input.now len }
    requires len_in_bounds { (len ≤ length out.old) × Chunks input.now 0 len × Known input.now first }
    ensures { out.new ≡ decode_output input.now out.old }
{
    let mut at = 0;
    let mut written = 0;
    let mut last = first;
    let mut tail = NO_TAIL;
    while written < len {
        let mut line = quick_line(input, last, tail, at);
        if line.length == 0 {
            line = long_line(input, at);
            tail = tail_of(input, line);
        }
        let start = at + line.length;
        put_data(input, start, out, written, line.size, len, last.length == 0);
        last = remembered(line, last.size);
        at = start + line.size + 2;
        written += line.size;
    }
}

// Copies `size` bytes of data to the place `written`, of `len`. Short chunks are copied by one width if `one_width` says so, and what is
// written beyond the chunk is written again with later ones: no branch asks for the size (with `short_chunk` and `short_line`, 0.4 of the
// time at chunks of 1 to 64 bytes). Where sizes repeat, such branches are foreseen: by their length chunks of 16 take 0.9 of the time.
fn put_data(
    input: &[u8],
    start: usize,
    out: &mut [u8],
    written: usize,
    size: usize,
    len: usize,
    one_width: bool,
)
    requires { (written + size ≤ len) × (len ≤ length out.old) × (start + (len - written) ≤ length input.now) }
    ensures { Laid input.now out.old out.new start written size len }
{
    let left = len - written;
    if one_width && size <= WIDE && left >= WIDE {
        copying::copy(
            &mut out[written..written + WIDE],
            &input[start..start + WIDE],
        );
    } else {
        copying::copy_long(
            &mut out[written..written + size],
            &input[start..start + size],
        );
    }
}

// The line of the chunk at `at`, which the first pass has read, if it is the last line again, or one or two digits before CR LF or before
// that tail. Nothing is asked but where it ends and what its digits say (0.75 of the time at chunks of 1 to 64 with an extension).
fn quick_line(input: &[u8], last: ChunkLine, tail: Tail, at: usize) -> ChunkLine
    requires { Known input.now last × TailKnown input.now tail × SomeChunk input.now at }
    ensures { Short input.now at result }
{
    if repeats(input, last, at) {
        return last;
    }
    let short = short_line(input, at);
    if short.length > 0 {
        return short;
    }
    if tail.length > 0 {
        return tailed_line(input, tail, at);
    }
    NO_LINE
}

// Does the chunk at `at` have the last line?
fn repeats(input: &[u8], last: ChunkLine, at: usize) -> bool
    requires { Known input.now last × SomeChunk input.now at }
    ensures { result ≡ true → ChunkAt input.now at last.length last.size }
{
    if last.length == 0 || input.len() - at < last.length {
        return false;
    }
    same_line(input, last.at, at, last.length)
}

// A line that the quick paths read is compared with the next only where its size came twice: at random sizes that would be in vain.
fn remembered(line: ChunkLine, size: usize) -> ChunkLine
    ensures { (xs : List ℕ) → Known xs line → Known xs result }
{
    if line.size == size {
        return line;
    }
    ChunkLine { length: 0, ..line }
}

// Does a chunk with the same line as the last one stand at `at` and fit into what is left of the room? Then nothing waits for the
// digits to be read: chunks of one size go by at the speed of a comparison (chunks of 16 took 1.5 to 4 times as long without).
fn again(input: &[u8], last: ChunkLine, at: usize, left: usize) -> bool
    requires { (at ≤ length input.now) × Known input.now last }
    ensures { result ≡ true → (last.size ≤ left) × ChunkAt input.now at last.length last.size }
{
    let taken = last.length + last.size;
    last.length > 0
        && has_data(input, at, taken, last.size, left)
        && same_line(input, last.at, at, last.length)
}

// Are the lines of `count` bytes at `a` and at `b` the same? Most have 4 to 8 bytes: two words, which may overlap, are all of them (with
// the wide copies of `copying`, 0.6 of the time at chunks of 16 with an extension, 0.8 at chunks of 256; with `||` in place of the first
// two tests, 1.05 times the instructions at chunks of 16).
fn same_line(input: &[u8], a: usize, b: usize, count: usize) -> bool
    requires { (a + count ≤ length input.now) × (b + count ≤ length input.now) }
    ensures { result ≡ true → SameAt input.now a b count }
{
    if count < 4 {
        return same_bytes(input, a, b, count);
    }
    if count > 8 {
        return same_bytes(input, a, b, count);
    }
    if word(input, a) != word(input, b) {
        return false;
    }
    let rest = count - 4;
    word(input, a + rest) == word(input, b + rest)
}

fn same_bytes(input: &[u8], a: usize, b: usize, count: usize) -> bool
    requires { (a + count ≤ length input.now) × (b + count ≤ length input.now) }
    ensures { result ≡ true → SameAt input.now a b count }
{
    octets::same(&input[a..a + count], &input[b..b + count])
}

// Four bytes as one number, which is loaded whole.
fn word(input: &[u8], at: usize) -> u32
    requires { at + 4 ≤ length input.now }
    ensures { result ≡ word_at input.now at }
{
    u32::from_le_bytes([input[at], input[at + 1], input[at + 2], input[at + 3]])
}

// A chunk whose line is one or two digits and CR LF, the first digit not 0. No branch asks how many digits there are, which at chunks of
// 1 to 64 none could foresee.
fn short_chunk(input: &[u8], at: usize, left: usize) -> ChunkLine
    requires { at ≤ length input.now }
    ensures { Plain input.now at left result }
{
    if input.len() - at < 4 || !is_leading(input[at]) {
        return NO_LINE;
    }
    let byte = input[at + 1];
    let two = has_second(byte);
    let length = 3 + two;
    if !crlf_at(input, at + length - 2) {
        return NO_LINE;
    }
    let second = octets::hex_value(byte) as usize;
    if second * two > 15 {
        return NO_LINE;
    }
    let size = size_of(digit_value(input[at]), second, two);
    if !has_data(input, at, length + size, size, left) {
        return NO_LINE;
    }
    ChunkLine { at, length, size }
}

// The same with extensions that stood in a line before, as a tail: most senders repeat theirs (0.46 of the time at chunks of 1 to 64 with
// `;a=b`).
fn tailed_chunk(input: &[u8], tail: Tail, at: usize, left: usize) -> ChunkLine
    requires { (at ≤ length input.now) × TailAt input.now tail.at tail.length }
    ensures { Plain input.now at left result }
{
    if input.len() - at < 4 || !is_leading(input[at]) {
        return NO_LINE;
    }
    let second = octets::hex_value(input[at + 1]) as usize;
    let two = 1 - second / 16;
    let size = size_of(digit_value(input[at]), second, two);
    let length = 1 + two + tail.length;
    if !has_data(input, at, length + size, size, left)
        || !same_line(input, tail.at, at + 1 + two, tail.length)
    {
        return NO_LINE;
    }
    ChunkLine { at, length, size }
}

// Do `size` bytes, which fit into what is left of the room, end `taken` bytes behind `at`, and CR LF stand there?
fn has_data(input: &[u8], at: usize, taken: usize, size: usize, left: usize) -> bool
    requires { (at ≤ length input.now) × (taken + 2 ≤ length input.now + 8192) }
    ensures { result ≡ true → (size ≤ left) × CrlfAt input.now (at + taken) }
{
    size <= left && input.len() - at >= taken + 2 && crlf_at(input, at + taken)
}

// A digit that is not 0: the byte less that of `0` is the number of its bit. The size does not wait for it (0.98 of the time at chunks of
// 1 to 64).
fn is_leading(b: u8) -> bool
    ensures { result ≡ true → (hex? b ≡ true) × (0 < hex_value b) }
{
    let bit = b.wrapping_sub(b'0');
    bit < 64 && (LEADING >> bit) % 2 == 1
}

// What stands behind the digits of a line, if the line may have extensions and they are short. Lines of up to four digits alone have fewer
// than 7 bytes.
fn tail_of(input: &[u8], line: ChunkLine) -> Tail
    requires { Known input.now line }
    ensures { TailKnown input.now result }
{
    if line.length < 7 {
        return NO_TAIL;
    }
    let end = digits_end(input, line.at);
    let length = line.length - (end - line.at);
    if length < 4 || length > WIDE {
        return NO_TAIL;
    }
    Tail { at: end, length }
}

// The place behind the digits at `from`.
fn digits_end(input: &[u8], from: usize) -> usize
    requires { from ≤ length input.now }
    ensures { DigitsTo input.now from result }
{
    for at in from..input.len() {
        if octets::hex_value(input[at]) > 15 {
            return at;
        }
    }
    input.len()
}

// Does the line of a last chunk without extensions, `0` CR LF, stand at `at`? It is passed over, and `closing` answers: with that, a body
// of one short chunk takes 0.85 of the time.
fn last_line(input: &[u8], at: usize) -> bool
    requires { at ≤ length input.now }
    ensures { result ≡ true → LastAt input.now at }
{
    input.len() - at >= 3 && input[at] == b'0' && crlf_at(input, at + 1)
}

// The line of a chunk that is known to stand at `at`, if it is one or two digits and CR LF.
fn short_line(input: &[u8], at: usize) -> ChunkLine
    requires { SomeChunk input.now at }
    ensures { Short input.now at result }
{
    let byte = input[at + 1];
    let two = has_second(byte);
    let first = digit_value(input[at]);
    let second = digit_value(byte);
    let length = 3 + two;
    if !crlf_at(input, at + length - 2) {
        return NO_LINE;
    }
    let size = known_size(first, second, two);
    ChunkLine { at, length, size }
}

// The same, if it is one or two digits and the tail.
fn tailed_line(input: &[u8], tail: Tail, at: usize) -> ChunkLine
    requires { SomeChunk input.now at × TailAt input.now tail.at tail.length }
    ensures { Short input.now at result }
{
    let second = octets::hex_value(input[at + 1]) as usize;
    let two = 1 - second / 16;
    let length = 1 + two + tail.length;
    if input.len() - at < length || !same_line(input, tail.at, at + 1 + two, tail.length) {
        return NO_LINE;
    }
    let size = size_of(digit_value(input[at]), second, two);
    ChunkLine { at, length, size }
}

// The same, whatever the line: extensions are passed over.
fn long_line(input: &[u8], at: usize) -> ChunkLine
    requires { SomeChunk input.now at }
    ensures { Known input.now result × ChunkAt input.now at result.length result.size }
{
    let size = size_at(input, at);
    let length = cr_place(input, at) + 2 - at;
    ChunkLine { at, length, size }
}

// The size of the chunk that is known to stand at `at`.
fn size_at(input: &[u8], at: usize) -> usize
    requires { SomeChunk input.now at }
    ensures { SizeAt input.now at result }
{
    let mut value = 0;
    for end in at..input.len() {
        let digit = octets::hex_value(input[end]) as usize;
        if digit > 15 {
            break;
        }
        value = value * 16 + digit;
    }
    value
}

// The place of the first CR from `from` on, or the length.
fn cr_place(input: &[u8], from: usize) -> usize
    requires { from ≤ length input.now }
    ensures { FirstCr input.now from result }
{
    for at in from..input.len() {
        if input[at] == b'\r' {
            return at;
        }
    }
    input.len()
}

// 1 where the byte behind the first digit may be a second one, 0 where it is CR.
pub fn has_second(b: u8) -> usize
    ensures { HasSecond b result }
{
    if b == b'\r' { 0 } else { 1 }
}

// The size by two digits, or by the first alone.
fn size_of(first: usize, second: usize, two: usize) -> usize
    requires { (first < 64) × (second < 64) × (two ≤ 1) }
    ensures { (result < 2048) × (two ≡ 0 → result ≡ first) × (two ≡ 1 → result ≡ first * 16 + second) }
{
    (first << (4 * two)) + second * two
}

// The same where the byte behind the first digit is known to be a digit or CR, whose value the shift then drops.
fn known_size(first: usize, second: usize, two: usize) -> usize
    requires { (first < 64) × (second < 64) × (two ≤ 1) × (two ≡ 0 → second < 16) }
    ensures { (two ≡ 0 → result ≡ first) × (two ≡ 1 → result ≡ first * 16 + second) }
{
    (first * 16 + second) >> (4 - 4 * two)
}

// The value of a byte that is known to be a hex digit, without asking whether it is one. Of any other byte, some number below 64.
fn digit_value(b: u8) -> usize
    ensures { (result < 64) × (hex? b ≡ true → result ≡ hex_value b) × (b < 64 → result < 16) }
{
    (b % 16 + b / 64 * 9) as usize
}

// Do CR and LF stand at `at`?
fn crlf_at(input: &[u8], at: usize) -> bool
    requires { at + 2 ≤ length input.now }
    ensures { result ≡ true → CrlfAt input.now at }
{
    u16::from_le_bytes([input[at], input[at + 1]]) == CRLF
}

// The answer where reading ends so, behind `total` bytes of data.
fn ending_answer(ending: Ending, total: usize) -> Answer
    requires { Closing ending }
    ensures { verdict result ≡ ending_answer total ending }
{
    match ending {
        Ending::Whole { taken, trailer } => Answer::Whole(Whole {
            taken,
            length: total,
            trailer_start: taken - 2 - trailer,
            trailer_length: trailer,
        }),
        Ending::More => Answer::More,
        Ending::Refused(r) => Answer::Refused(r),
    }
}

// Reads the chunk at `at`, behind chunks with `total` bytes of data, and passes over its data.
fn chunk(input: &[u8], at: usize, total: usize, room: usize) -> Result<ChunkLine, Ending>
    requires { At room input.now (Line First 0 total) at }
    ensures { ChunkRead room input.now at total result }
{
    let line = line(input, at, total, room)?;
    let start = at + line.length;
    if input.len() - start <= line.size {
        return Err(Ending::More);
    }
    let end = start + line.size;
    if input[end] != b'\r' {
        return Err(Ending::Refused(Refusal::Malformed(end)));
    }
    if input.len() - end <= 1 {
        return Err(Ending::More);
    }
    if input[end + 1] != b'\n' {
        return Err(Ending::Refused(Refusal::Malformed(end + 1)));
    }
    Ok(line)
}

// Reads the chunk line at `start`, behind chunks with `total` bytes of data; and the trailer, if the line is the last. No sum wraps: a
// digit that would pass the room is refused before it is added.
fn line(input: &[u8], start: usize, total: usize, room: usize) -> Result<ChunkLine, Ending>
    requires { At room input.now (Line First 0 total) start }
    ensures { LineRead room input.now start total result }
{
    let left = room - total;
    let mut value = 0;
    for at in start..input.len() {
        let digit = octets::hex_value(input[at]) as usize;
        if digit > 15 {
            if at == start {
                return Err(Ending::Refused(Refusal::Malformed(at)));
            }
            return extensions(input, start, at, value, total, room);
        }
        if at - start == LINE_LIMIT {
            return Err(Ending::Refused(Refusal::LineTooLong(at)));
        }
        if value > left / 16 || digit > left - value * 16 {
            return Err(Ending::Refused(Refusal::BodyTooLarge(at)));
        }
        value = value * 16 + digit;
    }
    Err(Ending::More)
}

// Reads the line at `line`, whose digits have the value `size` and end at `end`, on to its CR.
fn extensions(
    input: &[u8],
    line: usize,
    end: usize,
    size: usize,
    total: usize,
    room: usize,
) -> Result<ChunkLine, Ending>
    requires { SizeRead room input.now line total size end }
    ensures { LineRead room input.now line total result }
{
    let mut pos = ExtPos::Between;
    for at in end..input.len() {
        let byte = input[at];
        if byte == b'\r' {
            if positions::ext_ends(pos) {
                return line_feed(input, line, at + 1, size, total, room);
            }
            return Err(Ending::Refused(Refusal::Malformed(at)));
        }
        pos = positions::ext_step(pos, byte);
        if !positions::ext_live(pos) {
            return Err(Ending::Refused(Refusal::Malformed(at)));
        }
        if at - line == LINE_LIMIT {
            return Err(Ending::Refused(Refusal::LineTooLong(at)));
        }
    }
    Err(Ending::More)
}

// Behind the CR of the line at `line`, which gives `size`.
fn line_feed(
    input: &[u8],
    line: usize,
    at: usize,
    size: usize,
    total: usize,
    room: usize,
) -> Result<ChunkLine, Ending>
    requires { (line ≤ at) × At room input.now (LineFeed size total) at × LineAt input.now line (at - line) size (cr_byte ∷ []) }
    ensures { LineRead room input.now line total result }
{
    if input.len() <= at {
        return Err(Ending::More);
    }
    if input[at] != b'\n' {
        return Err(Ending::Refused(Refusal::Malformed(at)));
    }
    if size == 0 {
        return Err(trailer(input, at + 1, total, room));
    }
    Ok(ChunkLine {
        at: line,
        length: at + 1 - line,
        size,
    })
}

// As `trailer`, for most trailers are empty: the closing CR LF is looked for first (0.95 of the time at one chunk of 5 bytes).
fn closing(input: &[u8], start: usize, total: usize, room: usize) -> Ending
    requires { At room input.now (Trail trailer.begin 0 total) start }
    ensures { Last room input.now total result }
{
    if input.len() - start >= 2 && crlf_at(input, start) {
        return Ending::Whole {
            taken: start + 2,
            trailer: 0,
        };
    }
    trailer(input, start, total, room)
}

// Reads the trailer at `start`, behind the last chunk's line, and the closing CR LF.
fn trailer(input: &[u8], start: usize, total: usize, room: usize) -> Ending
    requires { At room input.now (Trail trailer.begin 0 total) start }
    ensures { Last room input.now total result }
{
    let mut pos = TrailPos::LineStart;
    for at in start..input.len() {
        let byte = input[at];
        if positions::closes(pos, byte) {
            return close(input, start, at, total, room);
        }
        pos = positions::trail_step(pos, byte);
        if !positions::trail_live(pos) {
            return Ending::Refused(Refusal::Malformed(at));
        }
        if at - start == TRAILER_LIMIT {
            return Ending::Refused(Refusal::TrailerTooLong(at));
        }
        if positions::is_forbidden(pos) {
            return Ending::Refused(Refusal::ForbiddenField(at));
        }
    }
    Ending::More
}

// Behind the CR at `end` that closes a body, whose trailer is at `start`.
fn close(input: &[u8], start: usize, end: usize, total: usize, room: usize) -> Ending
    requires { (start ≤ end) × At room input.now (EndLf total (end - start)) (end + 1) }
    ensures { Last room input.now total result }
{
    if input.len() - end <= 1 {
        return Ending::More;
    }
    if input[end + 1] != b'\n' {
        return Ending::Refused(Refusal::Malformed(end + 1));
    }
    Ending::Whole {
        taken: end + 2,
        trailer: end - start,
    }
}
