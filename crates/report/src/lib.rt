// What the bench program says of an answer, as text; what it says of each line, and prints of an input, is in specs/ and proofs/.
#![tactic(auto)]

ghost use Rattle.std.specs.Prelude.{◌≡◌};
ghost use Rattle.framing.specs.Answer.{refused};
ghost use Rattle.text.specs.Placing.{placed, behind};
ghost use Rattle.chunked.specs.Verdict.{verdict};
ghost use Rattle.report.specs.Saying.{numbers, said_answer};

use chunked::Answer;
use numerals::Base;

// Puts what is said of an answer at `at` where it fits, and gives the place behind it. Where it does not, `out` stays as it was, and the
// place is `at`.
pub fn put_answer(answer: Answer, out: &mut [u8], at: usize) -> usize
    ensures ends { result ≡ behind out.old at (said_answer (verdict answer)) }
    ensures says { out.new ≡ placed out.old at (said_answer (verdict answer)) }
{
    match answer {
        Answer::Whole(body) => put_two(b"C ", body.taken as u64, body.length as u64, out, at),
        Answer::More => text::put_bytes(b"M\n", out, at),
        Answer::Refused(why) => put_refusal(why.number(), why.place(), out, at),
    }
}

// The same of a refusal with whatever number and place.
pub fn put_refusal(number: u8, place: usize, out: &mut [u8], at: usize) -> usize
    ensures ends { result ≡ behind out.old at (said_answer (refused number place)) }
    ensures says { out.new ≡ placed out.old at (said_answer (refused number place)) }
{
    put_two(b"R ", number as u64, place as u64, out, at)
}

// Two numbers, a blank between them, behind some bytes: all of it, or nothing.
fn put_two(begin: &[u8], first: u64, second: u64, out: &mut [u8], at: usize) -> usize
    ensures ends { result ≡ behind out.old at (numbers begin.now first second) }
    ensures says { out.new ≡ placed out.old at (numbers begin.now first second) }
{
    let first_width = numerals::width(first, Base::Decimal);
    let second_width = numerals::width(second, Base::Decimal);
    let len = begin.len() + first_width + second_width + 2;
    if at > out.len() || len > out.len() - at {
        return at;
    }
    let begin_end = text::put_bytes(begin, out, at);
    let first_end = text::put_numeral(first, Base::Decimal, out, begin_end);
    let blank_end = text::put_bytes(b" ", out, first_end);
    let second_end = text::put_numeral(second, Base::Decimal, out, blank_end);
    text::put_bytes(b"\n", out, second_end)
}
