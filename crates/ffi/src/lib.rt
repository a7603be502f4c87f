// HTTP/1.1 protocol parameters and chunked bodies: the functions of the proved library, for C and C++.
//
// Bytes are a pointer and a length. A length of 0 may come with any pointer, null included; nothing is read or written through it. An
// output overlaps no input. Readers of header values take the value whole: the caller trims outer blanks. Writers write at the front of
// the output, keep the rest and give the length; the chunked reader writes the body there. A refusal writes nothing, nor does "more"; the
// reader in pieces alone writes data as it comes. No function keeps anything between calls: any number of threads may call them, each on
// bytes of its own or on inputs that they share.
//
// In each struct `number` is 0 where there is an answer, otherwise one of the refusal numbers; a field that has no meaning then is 0.
// Places count from 0.
#![tactic(auto)]

ghost use Rattle.std.specs.Prelude.{◌≡◌};
ghost use Rattle.grammar.specs.Reading.{refused};
ghost use Rattle.grammar.specs.Comparing.{refused_at};
ghost use Rattle.framing.specs.Answer as Framed;
ghost use Rattle.octets.specs.Comparing.{comparison};
ghost use Rattle.octets.specs.Reading.{number_of, place_of, verdict};
ghost use Rattle.chunked.specs.Verdict.{verdict as framed};
ghost use Rattle.ffi.specs.Fields.{same_fields, written_fields, body_fields};

use chunked::Answer;
use octets::{PairRefusal, Refusal};

// Whether two inputs are equal, or match.
#[repr(C)]
#[derive(Clone, Copy, Default)]
pub struct QzSame {
    pub number: u8,
    pub place: usize,
    // 1 or 2: the input that was refused
    pub which: u8,
    pub same: bool,
}

// What a writer did.
#[repr(C)]
#[derive(Clone, Copy, Default)]
pub struct QzWritten {
    pub number: u8,
    pub place: usize,
    // how many bytes were written
    pub length: usize,
}

// QzBody.state.
pub const WHOLE: u8 = 0;

pub const MORE: u8 = 1;

pub const REFUSED: u8 = 2;

// What the reader of chunked bodies answers.
#[repr(C)]
#[derive(Clone, Copy, Default)]
pub struct QzBody {
    // QZ_WHOLE, QZ_MORE or QZ_REFUSED
    pub state: u8,
    pub number: u8,
    pub place: usize,
    // how many bytes of the input are the body
    pub taken: usize,
    // how many bytes of data were written
    pub length: usize,
    // where the trailer stands: all its lines, without the closing CRLF; without a trailer, the place of the closing CRLF and 0
    pub trailer_start: usize,
    pub trailer_length: usize,
}

// A comparison, as C sees it.
impl From<Result<bool, PairRefusal>> for QzSame {
    ghost from_gives = { λ c same. same ≡ same_fields (comparison c) };

    fn from(c: Result<bool, PairRefusal>) -> QzSame {
        match c {
            Ok(same) => QzSame {
                same,
                ..QzSame::default()
            },
            Err(PairRefusal::First(r)) => one_refused(1, r),
            Err(PairRefusal::Second(r)) => one_refused(2, r),
        }
    }
}

// The first or the second input was refused.
fn one_refused(which: u8, r: Refusal) -> QzSame
    ensures { result ≡ same_fields (refused_at which (number_of r) (place_of r)) }
{
    QzSame::refused(which, r.number(), r.place())
}

// Each of these three takes whatever number and place a refusal may have.

impl QzSame {
    // An input was refused.
    pub fn refused(which: u8, number: u8, place: usize) -> QzSame
        ensures { result ≡ same_fields (refused_at which number place) }
    {
        QzSame {
            number,
            place,
            which,
            ..QzSame::default()
        }
    }
}

impl QzWritten {
    // Nothing was written.
    pub fn refused(number: u8, place: usize) -> QzWritten
        ensures { result ≡ written_fields (refused number place) }
    {
        QzWritten {
            number,
            place,
            ..QzWritten::default()
        }
    }
}

impl QzBody {
    // The body was refused.
    pub fn refused(number: u8, place: usize) -> QzBody
        ensures { result ≡ body_fields (Framed.refused number place) }
    {
        QzBody {
            state: REFUSED,
            number,
            place,
            ..QzBody::default()
        }
    }
}

// A writer's answer, as C sees it.
impl From<Result<usize, Refusal>> for QzWritten {
    ghost from_gives = { λ w written. written ≡ written_fields (verdict w) };

    fn from(w: Result<usize, Refusal>) -> QzWritten {
        match w {
            Ok(n) => QzWritten {
                length: n,
                ..QzWritten::default()
            },
            Err(r) => QzWritten::refused(r.number(), r.place()),
        }
    }
}

// The answer of a reader of bodies, as C sees it.
impl From<Answer> for QzBody {
    ghost from_gives = { λ a body. body ≡ body_fields (framed a) };

    fn from(a: Answer) -> QzBody {
        match a {
            Answer::Whole(body) => QzBody {
                state: WHOLE,
                taken: body.taken,
                length: body.length,
                trailer_start: body.trailer_start,
                trailer_length: body.trailer_length,
                ..QzBody::default()
            },
            Answer::More => QzBody {
                state: MORE,
                ..QzBody::default()
            },
            Answer::Refused(r) => QzBody::refused(r.number(), r.place()),
        }
    }
}
