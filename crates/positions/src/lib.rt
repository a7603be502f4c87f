// Where the extensions of a chunk line and the trailer of a body stand, a byte at a time: what every reader of bodies asks.
#![tactic(auto)]

ghost use Rattle.std.specs.Prelude.{◌≡◌, cond, ◌&&◌, suc, ◌<◌, ◌≤◌, eqb};
ghost use Rattle.octets.specs.Bytes.{text?, content?};
ghost use Rattle.framing.specs.helpers.Extensions.{ext_step, ext_ends, ext_live};
ghost use Rattle.framing.specs.declared.TrailPos.TheVariants.{Name};
ghost use Rattle.framing.specs.Grammar.{forbidden};
ghost use Rattle.framing.specs.helpers.Names.{every};
ghost use Rattle.framing.specs.helpers.Trailer.{trailer, in_name, in_value, at_forbidden};
ghost use Rattle.positions.specs.helpers.Ends.{cr_byte};

use framing::{ExtPos, TrailPos};
use trailer_names::{EVERY, WIDTH};

// The position behind a byte of extensions.
pub fn ext_step(pos: ExtPos, byte: u8) -> ExtPos
    ensures { result ≡ ext_step pos byte }
{
    let dead = ExtPos::Dead;
    match pos {
        ExtPos::Between => pick(byte == b';', ExtPos::NameStart, dead),
        ExtPos::NameStart => pick(octets::is_token(byte), ExtPos::Name, dead),
        ExtPos::Name => {
            let other = pick(byte == b';', ExtPos::NameStart, dead);
            pick(
                octets::is_token(byte),
                ExtPos::Name,
                pick(byte == b'=', ExtPos::ValueStart, other),
            )
        }
        ExtPos::ValueStart => pick(
            octets::is_token(byte),
            ExtPos::Token,
            pick(byte == b'"', ExtPos::Quoted, dead),
        ),
        ExtPos::Token => pick(
            octets::is_token(byte),
            ExtPos::Token,
            pick(byte == b';', ExtPos::NameStart, dead),
        ),
        ExtPos::Quoted => {
            let other = pick(byte == b'"', ExtPos::Between, dead);
            pick(
                is_text(byte),
                ExtPos::Quoted,
                pick(byte == b'\\', ExtPos::Pair, other),
            )
        }
        ExtPos::Pair => pick(octets::is_escaped(byte), ExtPos::Quoted, dead),
        ExtPos::Dead => dead,
    }
}

// Each of these two asks first whether the byte is one of those from 128 on, which are all in the class: a trailer of such bytes is read in
// 0.5 of the time, a quoted value in 0.6.

fn is_text(byte: u8) -> bool
    ensures { result ≡ text? byte }
{
    byte >= 128 || octets::is_text(byte)
}

fn is_content(byte: u8) -> bool
    ensures { result ≡ content? byte }
{
    byte >= 128 || octets::is_content(byte)
}

// May the line end there?
pub fn ext_ends(pos: ExtPos) -> bool
    ensures { result ≡ ext_ends pos }
{
    matches!(pos, ExtPos::Between | ExtPos::Name | ExtPos::Token)
}

// Can extensions go on from there to their end?
pub fn ext_live(pos: ExtPos) -> bool
    ensures { result ≡ ext_live pos }
{
    !matches!(pos, ExtPos::Dead)
}

// The position behind a byte of the trailer.
pub fn trail_step(pos: TrailPos, byte: u8) -> TrailPos
    ensures { result ≡ trailer.next pos byte }
{
    match pos {
        TrailPos::LineStart if octets::is_token(byte) => {
            name_at(trailer_names::going_on(EVERY, 0, byte), 0)
        }
        TrailPos::Name { agreed } => name_step(agreed, byte),
        TrailPos::Value | TrailPos::Forbidden => value_byte(byte),
        TrailPos::Lf if byte == b'\n' => TrailPos::LineStart,
        _ => TrailPos::Dead,
    }
}

// Behind a byte of a name, or the colon that ends it. Most names soon agree with no forbidden one: then nothing is compared.
fn name_step(agreed: u8, byte: u8) -> TrailPos
    ensures { result ≡ trailer.next (Name agreed) byte }
{
    let dead = TrailPos::Dead;
    let bits = agreed % WIDTH;
    if bits == 0 {
        let value = pick(byte == b':', TrailPos::Value, dead);
        let name = TrailPos::Name { agreed: 0 };
        return pick(octets::is_token(byte), name, value);
    }
    let length = agreed / WIDTH;
    let on = trailer_names::going_on(bits, length, byte);
    let behind = pick(on == 0, TrailPos::Value, TrailPos::Forbidden);
    let other = pick(byte == b':', behind, dead);
    pick(octets::is_token(byte), name_at(on, length), other)
}

// In a name, with which those in `bits` agree behind `length` bytes and one more. With its colon the longest of them has 18 bytes.
fn name_at(bits: u8, length: u8) -> TrailPos
    requires { (bits ≤ every forbidden) × ((bits ≡ 0 → ⊥) → length < 18) }
    ensures { result ≡ in_name forbidden bits (suc length) }
{
    if bits == 0 {
        return TrailPos::Name { agreed: 0 };
    }
    TrailPos::Name {
        agreed: bits + WIDTH * (length + 1),
    }
}

fn value_byte(byte: u8) -> TrailPos
    ensures { result ≡ in_value byte }
{
    pick(
        is_content(byte),
        TrailPos::Value,
        pick(byte == b'\r', TrailPos::Lf, TrailPos::Dead),
    )
}

// Can a trailer go on from there to its end?
pub fn trail_live(pos: TrailPos) -> bool
    ensures { result ≡ trailer.alive pos }
{
    !matches!(pos, TrailPos::Dead)
}

// Was the byte the colon of a forbidden name?
pub fn is_forbidden(pos: TrailPos) -> bool
    ensures { result ≡ at_forbidden pos }
{
    matches!(pos, TrailPos::Forbidden)
}

// Is it the CR that closes the body?
pub fn closes(pos: TrailPos, byte: u8) -> bool
    ensures { result ≡ trailer.ends pos && eqb byte cr_byte }
{
    matches!(pos, TrailPos::LineStart) && byte == b'\r'
}

// One of two, by a test. Chosen, not branched to: both are there already.
fn pick<T: Copy>(test: bool, yes: T, other: T) -> T
    ensures { result ≡ cond test yes other }
{
    if test { yes } else { other }
}
