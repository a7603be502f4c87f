// What the next byte of a body comes to, from any position: the machine's step as code, for readers that go a byte at a time.
#![tactic(auto)]

ghost use Rattle.std.specs.Prelude.{◌≡◌, cond, ◌&&◌, true, ℕ, suc, ◌+◌, ◌*◌, ◌<◌, ◌≤◌, eqb, leb, option_map};
ghost use Rattle.grammar.specs.Reading.{value as taken};
ghost use Rattle.octets.specs.Reading.{verdict};
ghost use Rattle.framing.specs.Grammar.{LINE_LIMIT as LINE, TRAILER_LIMIT as TRAILER};
ghost use Rattle.framing.specs.declared.LinePos.TheVariants.{Size};
ghost use Rattle.framing.specs.declared.State.TheVariants.{Line, Trail, Dead};
ghost use Rattle.framing.specs.helpers.Machine.{size_of, enter_chunk, step as stepped};
ghost use Rattle.transition.specs.Moving.{possible as possibleIn, told, transition};
ghost use Rattle.transition.specs.helpers.Lines.{digits, ext_pos_of, behind_digits};

use framing::{ExtPos, LINE_LIMIT, LinePos, State, TRAILER_LIMIT, TrailPos};
use octets::Refusal;

// What the byte behind a position comes to in that room: the next position, or its refusal, whose place counts from the byte itself; or
// none, where no body stands at that position in that room.
#[tactic(auto, unfolding(crate::specs::Moving::transition))]
pub fn next(position: State, byte: u8, room: usize) -> Option<Result<State, Refusal>>
    ensures { option_map verdict result ≡ transition room position byte }
{
    if !possible(position, room) {
        return None;
    }
    Some(step(position, byte, room))
}

fn step(position: State, byte: u8, room: usize) -> Result<State, Refusal>
    requires { possibleIn room position ≡ true }
    ensures { verdict result ≡ told room (stepped position byte) }
{
    match position {
        State::Line {
            position,
            length,
            before,
        } => line_step(position, length, before, byte, room),
        State::LineFeed { size, before } => expect(byte, b'\n', enter(size, before, room)),
        State::Data { left: 0, total } => Ok(State::DataCr { total }),
        State::Data { left, total } => Ok(State::Data {
            left: left - 1,
            total,
        }),
        State::DataCr { total } => expect(byte, b'\r', State::DataLf { total }),
        State::DataLf { total } => expect(
            byte,
            b'\n',
            State::Line {
                position: LinePos::First,
                length: 0,
                before: total,
            },
        ),
        State::Trail {
            position,
            length,
            total,
        } => trail_step(position, length, total, byte),
        State::EndLf { total, trailer } => expect(byte, b'\n', State::Done { total, trailer }),
        State::Done { .. } | State::Dead => Err(Refusal::Malformed(0)),
    }
}

// Can a body stand there in that room, by the numbers? Whatever calls have led to passes; what passes never overflows.
#[tactic(auto, unfolding(crate::specs::Moving::possible))]
pub fn possible(position: State, room: usize) -> bool
    ensures { result ≡ possibleIn room position }
{
    match position {
        State::Line {
            position,
            length,
            before,
        } => length <= LINE_LIMIT && fits(before, size_of(position), room),
        State::LineFeed { size, before } => fits(before, size, room),
        State::Data { left, total } => left < total && total <= room,
        State::DataCr { total } | State::DataLf { total } => total <= room,
        State::Trail {
            length: trailer,
            total,
            ..
        }
        | State::EndLf { total, trailer }
        | State::Done { total, trailer } => trailer <= TRAILER_LIMIT && total <= room,
        State::Dead => false,
    }
}

// No sum wraps.
fn fits(before: usize, size: usize, room: usize) -> bool
    ensures { result ≡ leb (before + size) room }
{
    before <= room && size <= room - before
}

// The size that a line has read so far.
fn size_of(position: LinePos) -> usize
    ensures { result ≡ size_of position }
{
    match position {
        LinePos::First => 0,
        LinePos::Size { value } | LinePos::Ext { value, .. } => value,
    }
}

// May a digit go on there?
fn in_digits(position: LinePos) -> bool
    ensures { result ≡ digits position }
{
    !matches!(position, LinePos::Ext { .. })
}

// Where extensions stand there: before its first digit a line goes on to none.
fn ext_of(position: LinePos) -> ExtPos
    ensures { result ≡ ext_pos_of position }
{
    match position {
        LinePos::First => ExtPos::Dead,
        LinePos::Size { .. } => ExtPos::Between,
        LinePos::Ext { position, .. } => position,
    }
}

// One byte alone goes on, to a state that is refused in no room.
fn expect(byte: u8, wanted: u8, next: State) -> Result<State, Refusal>
    ensures { (room : ℕ) → taken next ≡ told room next → verdict result ≡ told room (cond (eqb byte wanted) next Dead) }
{
    if byte == wanted {
        Ok(next)
    } else {
        Err(Refusal::Malformed(0))
    }
}

// Behind the LF of a line that gives a size.
fn enter(size: usize, before: usize, room: usize) -> State
    requires { before + size ≤ room }
    ensures { result ≡ enter_chunk size before }
{
    if size == 0 {
        return State::Trail {
            position: TrailPos::LineStart,
            length: 0,
            total: before,
        };
    }
    State::Data {
        left: size - 1,
        total: before + size,
    }
}

fn line_step(
    position: LinePos,
    length: usize,
    before: usize,
    byte: u8,
    room: usize,
) -> Result<State, Refusal>
    requires { (length ≤ LINE) × (before + size_of position ≤ room) }
    ensures { verdict result ≡ told room (stepped (Line position length before) byte) }
{
    let value = size_of(position);
    let digit = octets::hex_value(byte) as usize;
    if digit <= 15 && in_digits(position) {
        return size_step(value, digit, length, before, room);
    }
    ext_step(value, ext_of(position), length, before, byte)
}

// A digit. No sum wraps: one that would pass the room is refused before it is added.
fn size_step(
    value: usize,
    digit: usize,
    length: usize,
    before: usize,
    room: usize,
) -> Result<State, Refusal>
    requires { (length ≤ LINE) × (before + value ≤ room) }
    ensures { verdict result ≡ told room (Line (Size (value * 16 + digit)) (suc length) before) }
{
    if length == LINE_LIMIT {
        return Err(Refusal::LineTooLong(0));
    }
    let left = room - before;
    if value > left / 16 || digit > left - value * 16 {
        return Err(Refusal::BodyTooLarge(0));
    }
    Ok(State::Line {
        position: LinePos::Size {
            value: value * 16 + digit,
        },
        length: length + 1,
        before,
    })
}

// A byte behind the digits of a line that gives `value`.
fn ext_step(
    value: usize,
    position: ExtPos,
    length: usize,
    before: usize,
    byte: u8,
) -> Result<State, Refusal>
    requires { length ≤ LINE }
    ensures { (room : ℕ) → verdict result ≡ told room (behind_digits value position length before byte) }
{
    if byte == b'\r' {
        if positions::ext_ends(position) {
            return Ok(State::LineFeed {
                size: value,
                before,
            });
        }
        return Err(Refusal::Malformed(0));
    }
    let next = positions::ext_step(position, byte);
    if !positions::ext_live(next) {
        return Err(Refusal::Malformed(0));
    }
    if length == LINE_LIMIT {
        return Err(Refusal::LineTooLong(0));
    }
    Ok(State::Line {
        position: LinePos::Ext {
            value,
            position: next,
        },
        length: length + 1,
        before,
    })
}

fn trail_step(position: TrailPos, length: usize, total: usize, byte: u8) -> Result<State, Refusal>
    requires { length ≤ TRAILER }
    ensures { (room : ℕ) → verdict result ≡ told room (stepped (Trail position length total) byte) }
{
    if positions::closes(position, byte) {
        return Ok(State::EndLf {
            total,
            trailer: length,
        });
    }
    let next = positions::trail_step(position, byte);
    if !positions::trail_live(next) {
        return Err(Refusal::Malformed(0));
    }
    if length == TRAILER_LIMIT {
        return Err(Refusal::TrailerTooLong(0));
    }
    if positions::is_forbidden(next) {
        return Err(Refusal::ForbiddenField(0));
    }
    Ok(State::Trail {
        position: next,
        length: length + 1,
        total,
    })
}
