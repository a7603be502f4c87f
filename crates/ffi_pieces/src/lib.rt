// Chunked bodies in pieces, for C and Rust. Nothing is decided here.
#![tactic(auto)]

ghost use Rattle.std.specs.Prelude.{◌≡◌, length};
ghost use Rattle.chunked.specs.Verdict.{verdict};
ghost use Rattle.pieces.specs.Reading.{begun, state_after, taken_by, answered, output_after};
ghost use Rattle.ffi.specs.Fields.{body_fields};
ghost use Rattle.ffi_pieces.specs.Fields.{pieces_fields, pieces_of, handed, fed_fields};

use chunked::Answer;
use ffi::QzBody;
use framing::State;
use octets::Refusal;
use pieces::Pieces;
use position_numbers::Numbers;

// What the reader in pieces keeps between calls: copy it freely. A field is not for callers to change. It holds no byte of the body.
#[repr(C)]
#[derive(Clone, Copy)]
pub struct QzPieces {
    pub position: u8,
    pub part: u8,
    pub name: u8,
    pub size: usize,
    pub length: usize,
    pub total: usize,
    pub taken: usize,
    pub room: usize,
    pub refused: usize,
}

// What a call of qz_pieces_feed gives.
#[repr(C)]
#[derive(Clone, Copy)]
pub struct QzFed {
    // for the next call
    pub pieces: QzPieces,
    // how many bytes of the piece were taken
    pub took: usize,
    // how many bytes of data stand at the front of the output
    pub written: usize,
    // the answer about the body so far; its place and counts are those of the body, not of the piece
    pub body: QzBody,
}

// A state, as C sees it.
impl From<Pieces> for QzPieces {
    ghost from_gives = { λ s q. q ≡ pieces_fields s };

    fn from(s: Pieces) -> QzPieces {
        let n = Numbers::from(s.position);
        QzPieces {
            position: n.position,
            part: n.part,
            name: n.name,
            size: n.size,
            length: n.length,
            total: n.total,
            taken: s.taken,
            room: s.room,
            refused: s.refused,
        }
    }
}

// The state that C hands back, whatever its numbers are.
impl From<QzPieces> for Pieces {
    ghost from_gives = { λ q s. s ≡ pieces_of q };

    fn from(q: QzPieces) -> Pieces {
        let position = State::from(Numbers {
            position: q.position,
            part: q.part,
            name: q.name,
            size: q.size,
            length: q.length,
            total: q.total,
        });
        Pieces {
            position,
            taken: q.taken,
            room: q.room,
            refused: q.refused,
        }
    }
}

// Before the first byte of a body whose data goes to an output of `room` bytes.
#[unsafe(no_mangle)]
pub extern "C" fn qz_pieces_start(room: usize) -> QzPieces
    ensures { result ≡ pieces_fields (begun room) }
{
    QzPieces::from(Pieces::start(room))
}

// Reads the next piece of a chunked body: takes the smaller of quota and piece length, fewer only where the body ends or at a refused
// byte, which is not taken, and writes the data among them. The output has `room` bytes and is the one that the last call left: the data
// so far stands at its front, after QZ_MORE and after a refusal in the body too, and the rest is as lent. It must not overlap the piece.
// Once whole or refused in the body, later valid calls take nothing and repeat the answer. A quota of 0, another output length than the
// room, or numbers that no call can have given is QZ_OUT_OF_RANGE at 0: it takes nothing, changes neither the state nor the output, and
// is no answer about the body.
#[unsafe(no_mangle)]
pub extern "C" fn qz_pieces_feed(
    pieces: QzPieces,
    piece: &[u8],
    quota: usize,
    out: &mut [u8],
) -> QzFed
    ensures answers { result ≡ fed_fields pieces (state_after (pieces_of pieces) piece.now quota (length out.old))
        (taken_by (pieces_of pieces) piece.now quota (length out.old))
        (answered (pieces_of pieces) piece.now quota (length out.old)) }
    ensures writes { out.new ≡ output_after (pieces_of pieces) piece.now quota out.old }
{
    let fed = Pieces::from(pieces).feed(piece, quota, out);
    QzFed {
        pieces: handed(pieces, fed.state, fed.answer),
        took: fed.taken,
        written: fed.state.written(),
        body: QzBody::from(fed.answer),
    }
}

// What C keeps for the next call: behind an invalid one, what it handed over.
fn handed(given: QzPieces, state: Pieces, answer: Answer) -> QzPieces
    ensures { result ≡ handed given state (body_fields (verdict answer)).number }
{
    match answer {
        Answer::Refused(Refusal::OutOfRange) => given,
        _ => QzPieces::from(state),
    }
}
