// Reads chunked bodies in pieces, as they arrive: a state by value goes from call to call, and data is written as it comes.
#![tactic(auto)]

ghost use Rattle.std.specs.Prelude.{◌≡◌, true, false, ◌+◌, ◌-◌, ◌<◌, ◌≤◌, length, take, MatchOption};
ghost use Rattle.octets.specs.Reading.{number_of, place_of};
ghost use Rattle.text.specs.Placing.{placed};
ghost use Rattle.framing.specs.declared.LinePos.TheVariants.{First};
ghost use Rattle.framing.specs.declared.State.TheVariants.{Line, Data};
ghost use Rattle.chunked.specs.Verdict.{verdict};
ghost use Rattle.plain_chunks.specs.helpers.Runs.{stands};
ghost use Rattle.pieces.specs.Grammar.{FRAMED_LIMIT as MOST};
ghost use Rattle.pieces.specs.Reading.{begun, next as stepped, answer_of, over?, advance, gathered, filled};
ghost use Rattle.pieces.specs.Reading.{listed as isListed, valid};
ghost use Rattle.pieces.specs.Reading.{state_after, taken_by, answered, output_after};
ghost use Rattle.pieces.specs.helpers.Runs.{Sound, Going, Passed, Idle};

use chunked::Answer;
use framing::{LinePos, State, Whole};
use octets::{
    BODY_TOO_LARGE, FORBIDDEN_FIELD, FRAMED_TOO_LONG, LINE_TOO_LONG, MALFORMED, Refusal,
    TRAILER_TOO_LONG,
};
use plain_chunks::Run;

// The most bytes of a framed body.
pub const FRAMED_LIMIT: usize = 1099511627776;

// What the reader keeps between calls. It holds no byte of the body.
#[derive(Clone, Copy, Debug, PartialEq, Eq)]
pub struct Pieces {
    // where the body stands behind the bytes taken
    pub position: State,
    // how many bytes of the body were taken
    pub taken: usize,
    // the length of the output
    pub room: usize,
    // the number of the refusal that the byte behind them got; 0: none. A number, since C hands it back: any other one makes a call invalid
    pub refused: usize,
}

// What a call gives: the next state, how many bytes of the piece it took, and the answer.
#[derive(Clone, Copy)]
pub struct Fed {
    pub state: Pieces,
    pub taken: usize,
    pub answer: Answer,
}

impl Pieces {
    // Before the first byte of a body whose data goes to an output of that length.
    pub fn start(room: usize) -> Pieces
        ensures { result ≡ begun room }
    {
        Pieces {
            position: line_start(0),
            taken: 0,
            room,
            refused: 0,
        }
    }

    // Takes bytes of the piece, at most the quota, and writes the data among them behind the data so far. The count is that of the
    // definition's steps. An invalid call is refusal 9 and changes nothing.
    pub fn feed(self, piece: &[u8], quota: usize, out: &mut [u8]) -> Fed
        ensures goes { result.state ≡ state_after self piece.now quota (length out.old) }
        ensures takes { result.taken ≡ taken_by self piece.now quota (length out.old) }
        ensures answers { verdict result.answer ≡ answered self piece.now quota (length out.old) }
        ensures writes { out.new ≡ output_after self piece.now quota out.old }
    {
        if !self.accepts(quota, out.len()) {
            return Fed {
                state: self,
                taken: 0,
                answer: Answer::Refused(Refusal::OutOfRange),
            };
        }
        let offered = &piece[..quota.min(piece.len())];
        let state = self.read(offered, out);
        Fed {
            state,
            taken: state.taken - self.taken,
            answer: state.answer(),
        }
    }

    // How many bytes of data stand at the front of the output.
    #[tactic(auto, unfolding(crate::specs::Reading::filled))]
    pub fn written(self) -> usize
        ensures { result ≡ filled self.position }
    {
        match self.position {
            State::Line { before, .. } | State::LineFeed { before, .. } => before,
            State::Data { left, total } => total.saturating_sub(left).saturating_sub(1),
            State::DataCr { total }
            | State::DataLf { total }
            | State::Trail { total, .. }
            | State::EndLf { total, .. }
            | State::Done { total, .. } => total,
            State::Dead => 0,
        }
    }

    // Is it a valid call?
    #[tactic(auto, unfolding(crate::specs::Reading::valid))]
    fn accepts(self, quota: usize, len: usize) -> bool
        ensures { result ≡ valid self quota len }
    {
        quota != 0
            && len == self.room
            && self.taken <= FRAMED_LIMIT
            && listed(self.refused)
            && transition::possible(self.position, self.room)
    }

    // The answer so far.
    fn answer(self) -> Answer
        requires { isListed self.refused ≡ true }
        ensures { verdict result ≡ answer_of self }
    {
        if let Some(refusal) = refusal_of(self.refused, self.taken) {
            return Answer::Refused(refusal);
        }
        match self.position {
            State::Done { total, trailer } => Answer::Whole(Whole {
                taken: self.taken,
                length: total,
                trailer_start: self.taken.saturating_sub(2).saturating_sub(trailer),
                trailer_length: trailer,
            }),
            _ => Answer::More,
        }
    }

    // Has the body ended, or was it refused?
    fn is_over(self) -> bool
        ensures { result ≡ over? self }
    {
        self.refused != 0 || matches!(self.position, State::Done { .. })
    }

    // The state behind as many of the bytes as it takes. What is passed over at once is not looked at byte by byte; the data of a chunk
    // that has begun comes before the loop, since a short piece holds nothing else (0.9 of the time in pieces of one byte).
    fn read(self, bytes: &[u8], out: &mut [u8]) -> Pieces
        requires { Sound self × (length out.old ≡ self.room) }
        ensures goes { result ≡ advance self bytes.now }
        ensures writes { out.new
            ≡ placed out.old (filled self.position) (gathered self bytes.now) }
    {
        if self.is_over() {
            return self;
        }
        let mut state = self.pass_begun(bytes, out);
        // assigned in each branch: a state chosen by one `if` is copied, 1.2 times the time where bytes go one by one
        while state.taken - self.taken < bytes.len() && !state.is_over() {
            let at = state.taken - self.taken;
            let passed = state.pass(&bytes[at..], out);
            if passed.taken > state.taken {
                state = passed;
            } else {
                state = state.next(bytes[at]);
            }
        }
        state
    }

    // Passes over the data of a chunk that has begun, if one has.
    fn pass_begun(self, bytes: &[u8], out: &mut [u8]) -> Pieces
        requires { Going self out.old }
        ensures { Passed self bytes.now out.old result out.new }
    {
        match self.position {
            State::Data { left, total } => self.pass_data(left, total, self.within(bytes), out),
            _ => self,
        }
    }

    // Passes over data, or over lines of digits and what follows them; the state as it is where neither stands next.
    fn pass(self, bytes: &[u8], out: &mut [u8]) -> Pieces
        requires { Going self out.old }
        ensures goes { Passed self bytes.now out.old result out.new }
        ensures idle { 0 < length bytes.now → result.taken ≤ self.taken → Idle self }
    {
        match self.position {
            State::Data { left, total } => self.pass_data(left, total, self.within(bytes), out),
            State::Line {
                position: LinePos::First,
                length: 0,
                before,
            } => self.pass_lines(before, self.within(bytes), out),
            _ => self,
        }
    }

    // Those of the bytes that the limit on a framed body lets in.
    fn within(self, bytes: &[u8]) -> &[u8]
        requires { self.taken ≤ MOST }
        ensures { result.now ≡ take (MOST - self.taken) bytes.now }
    {
        &bytes[..bytes.len().min(FRAMED_LIMIT - self.taken)]
    }

    // As much data as there is, and the CR LF behind it. Inlined at both calls, so that a state stays in registers: as a call, pieces of
    // one byte take 1.3 times as long.
    #[inline(always)]
    fn pass_data(self, left: usize, total: usize, bytes: &[u8], out: &mut [u8]) -> Pieces
        requires { Going self out.old × (self.position ≡ Data left total) × (self.taken + length bytes.now ≤ MOST) }
        ensures goes { Passed self bytes.now out.old result out.new }
        ensures some { result.taken ≤ self.taken → length bytes.now ≡ 0 }
    {
        let run = bytes.len().min(left + 1);
        text::put_bytes(&bytes[..run], out, total - left - 1);
        if run <= left {
            return self.moved(
                State::Data {
                    left: left - run,
                    total,
                },
                run,
            );
        }
        if bytes.len() - run >= 2 && bytes[run] == b'\r' && bytes[run + 1] == b'\n' {
            return self.moved(line_start(total), run + 2);
        }
        self.moved(State::DataCr { total }, run)
    }

    // From the start of a line: chunks whose lines are digits alone. The shortest line with its CR LF has three bytes.
    fn pass_lines(self, before: usize, bytes: &[u8], out: &mut [u8]) -> Pieces
        requires { Going self out.old × (self.position ≡ Line First 0 before) × (self.taken + length bytes.now ≤ MOST) }
        ensures { Passed self bytes.now out.old result out.new }
    {
        if bytes.len() < 3 {
            return self;
        }
        self.behind(plain_chunks::pass(before, bytes, out))
    }

    // Behind a run: before the data of a chunk of its size, or at the start of a line where that is 0.
    fn behind(self, run: Run) -> Pieces
        requires { self.taken + run.taken ≤ MOST }
        ensures { result ≡ record { position = stands run; taken = self.taken + run.taken; room = self.room; refused = 0 } }
    {
        let Run { taken, total, size } = run;
        if size == 0 {
            return self.moved(line_start(total), taken);
        }
        self.moved(
            State::Data {
                left: size - 1,
                total,
            },
            taken,
        )
    }

    // The state behind a byte that it takes, or that it refuses.
    fn next(self, byte: u8) -> Pieces
        requires { Sound self }
        ensures { result ≡ stepped self byte }
    {
        match transition::next(self.position, byte, self.room) {
            Some(Ok(_)) if self.taken == FRAMED_LIMIT => {
                self.refuse(Refusal::FramedTooLong(self.taken))
            }
            Some(Ok(position)) => self.moved(position, 1),
            Some(Err(refusal)) => self.refuse(refusal),
            None => self,
        }
    }

    // Behind so many bytes more.
    fn moved(self, position: State, count: usize) -> Pieces
        requires { self.taken + count ≤ MOST }
        ensures { result ≡ record { position = position; taken = self.taken + count; room = self.room; refused = 0 } }
    {
        Pieces {
            position,
            taken: self.taken + count,
            refused: 0,
            ..self
        }
    }

    fn refuse(self, refusal: Refusal) -> Pieces
        ensures { result ≡ record { position = self.position; taken = self.taken; room = self.room; refused = number_of refusal } }
    {
        Pieces {
            refused: refusal.number() as usize,
            ..self
        }
    }
}

// At the start of a line, behind so much data.
fn line_start(before: usize) -> State
    ensures { result ≡ Line First 0 before }
{
    State::Line {
        position: LinePos::First,
        length: 0,
        before,
    }
}

// 0, or a refusal that a body can get.
fn listed(number: usize) -> bool
    ensures { result ≡ isListed number }
{
    number == 0 || refusal_of(number, 0).is_some()
}

// The refusal of that number at that place, if a body can get it.
fn refusal_of(number: usize, place: usize) -> Option<Refusal>
    ensures { MatchOption result (isListed number ≡ true → number ≡ 0)
        (λ r. (isListed number ≡ true) × (0 < number) × (number_of r ≡ number) × (place_of r ≡ place)) }
{
    match u8::try_from(number) {
        Ok(MALFORMED) => Some(Refusal::Malformed(place)),
        Ok(LINE_TOO_LONG) => Some(Refusal::LineTooLong(place)),
        Ok(TRAILER_TOO_LONG) => Some(Refusal::TrailerTooLong(place)),
        Ok(BODY_TOO_LARGE) => Some(Refusal::BodyTooLarge(place)),
        Ok(FORBIDDEN_FIELD) => Some(Refusal::ForbiddenField(place)),
        Ok(FRAMED_TOO_LONG) => Some(Refusal::FramedTooLong(place)),
        _ => None,
    }
}
