// Where a body stands as numbers, and back: for whoever keeps a position outside.
#![tactic(auto)]

ghost use Rattle.std.specs.Prelude.{◌≡◌};
ghost use Rattle.position_numbers.specs.Numbers.{ext_number, trail_number, name_of, line_numbers, trail_numbers};
ghost use Rattle.position_numbers.specs.Numbers.{ext_of, line_of, trail_of};

use framing::{ExtPos, LinePos, State, TrailPos};

// `position` is the number of the case, and `part` that of the position in a line or a trailer. `size` is what the digits or the line gave,
// or what is left of the chunk behind the next byte; `total` is the data before the line, or that of all chunks. `name` is what is
// remembered of a name in the trailer; `length` is that of the line or the trailer. What a case does not use is 0.
#[derive(Clone, Copy, Debug, PartialEq, Eq)]
pub struct Numbers {
    pub position: u8,
    pub part: u8,
    pub name: u8,
    pub size: usize,
    pub length: usize,
    pub total: usize,
}

const ZEROS: Numbers = Numbers {
    position: 0,
    part: 0,
    name: 0,
    size: 0,
    length: 0,
    total: 0,
};

// A position as numbers.
impl From<State> for Numbers {
    ghost use Rattle.position_numbers.specs.Numbers.{numbers_of};

    ghost from_gives = { λ place n. n ≡ numbers_of place };

    fn from(place: State) -> Numbers {
        match place {
            State::Line {
                position,
                length,
                before,
            } => line_numbers(position, length, before),
            State::LineFeed { size, before } => Numbers {
                position: 1,
                size,
                total: before,
                ..ZEROS
            },
            State::Data { left, total } => Numbers {
                position: 2,
                size: left,
                total,
                ..ZEROS
            },
            State::DataCr { total } => Numbers {
                position: 3,
                total,
                ..ZEROS
            },
            State::DataLf { total } => Numbers {
                position: 4,
                total,
                ..ZEROS
            },
            State::Trail {
                position,
                length,
                total,
            } => trail_numbers(position, length, total),
            State::EndLf { total, trailer } => Numbers {
                position: 6,
                length: trailer,
                total,
                ..ZEROS
            },
            State::Done { total, trailer } => Numbers {
                position: 7,
                length: trailer,
                total,
                ..ZEROS
            },
            State::Dead => Numbers {
                position: 8,
                ..ZEROS
            },
        }
    }
}

fn line_numbers(position: LinePos, length: usize, before: usize) -> Numbers
    ensures { result ≡ line_numbers position length before }
{
    let numbers = Numbers {
        length,
        total: before,
        ..ZEROS
    };
    match position {
        LinePos::First => numbers,
        LinePos::Size { value } => Numbers {
            part: 1,
            size: value,
            ..numbers
        },
        LinePos::Ext { value, position } => Numbers {
            part: ext_number(position),
            size: value,
            ..numbers
        },
    }
}

fn trail_numbers(position: TrailPos, length: usize, total: usize) -> Numbers
    ensures { result ≡ trail_numbers position length total }
{
    let (part, name) = trail_part(position);
    Numbers {
        position: 5,
        part,
        name,
        length,
        total,
        ..ZEROS
    }
}

// The position that numbers stand for, whatever they are.
impl From<Numbers> for State {
    ghost use Rattle.position_numbers.specs.Numbers.{place_of};

    ghost from_gives = { λ n place. place ≡ place_of n };

    fn from(n: Numbers) -> State {
        let Numbers {
            position,
            part,
            name,
            size,
            length,
            total,
        } = n;
        match position {
            0 => State::Line {
                position: line_of(part, size),
                length,
                before: total,
            },
            1 => State::LineFeed {
                size,
                before: total,
            },
            2 => State::Data { left: size, total },
            3 => State::DataCr { total },
            4 => State::DataLf { total },
            5 => State::Trail {
                position: trail_of(part, name),
                length,
                total,
            },
            6 => State::EndLf {
                total,
                trailer: length,
            },
            7 => State::Done {
                total,
                trailer: length,
            },
            _ => State::Dead,
        }
    }
}

// Extensions stand there: 2 to 9, behind the numbers of a line without any.
fn ext_number(position: ExtPos) -> u8
    ensures { result ≡ ext_number position }
{
    position as u8 + 2
}

// The number of the position in a trailer, and what is remembered of a name.
fn trail_part(position: TrailPos) -> (u8, u8)
    ensures { result ≡ (trail_number position, name_of position) }
{
    match position {
        TrailPos::LineStart => (0, 0),
        TrailPos::Name { agreed } => (1, agreed),
        TrailPos::Value => (2, 0),
        TrailPos::Forbidden => (3, 0),
        TrailPos::Lf => (4, 0),
        TrailPos::Dead => (5, 0),
    }
}

// Where a line stands: before its first digit, after digits with that value, or behind them.
fn line_of(part: u8, value: usize) -> LinePos
    ensures { result ≡ line_of part value }
{
    match part {
        0 => LinePos::First,
        1 => LinePos::Size { value },
        _ => LinePos::Ext {
            value,
            position: ext_of(part),
        },
    }
}

fn ext_of(part: u8) -> ExtPos
    ensures { result ≡ ext_of part }
{
    match part {
        2 => ExtPos::Between,
        3 => ExtPos::NameStart,
        4 => ExtPos::Name,
        5 => ExtPos::ValueStart,
        6 => ExtPos::Token,
        7 => ExtPos::Quoted,
        8 => ExtPos::Pair,
        _ => ExtPos::Dead,
    }
}

// A number that stands for no position is that of none that goes on.
fn trail_of(part: u8, name: u8) -> TrailPos
    ensures { result ≡ trail_of part name }
{
    match part {
        0 => TrailPos::LineStart,
        1 => TrailPos::Name { agreed: name },
        2 => TrailPos::Value,
        3 => TrailPos::Forbidden,
        4 => TrailPos::Lf,
        _ => TrailPos::Dead,
    }
}
