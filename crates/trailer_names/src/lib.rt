// The names that no trailer may hold, and how far a name agrees with them: RFC 2616 14.40.
#![tactic(auto)]

ghost use Rattle.std.specs.Prelude.{◌≡◌, ◌&&◌, ℕ, ◌≤◌};
ghost use Rattle.grammar.specs.Grammar.{lower};
ghost use Rattle.framing.specs.Grammar.{forbidden};
ghost use Rattle.framing.specs.helpers.Names.{texts, has, odd, going_on};

// All of them, as bits.
pub const EVERY: u8 = 7;

// One more: what agrees and how many bytes there were are one number, the bits lowest.
pub const WIDTH: u8 = 8;

// The names among `bits` that go on with a byte behind `at` bytes, letter case ignored, as bits; the colon behind a name counts as its
// last byte.
pub fn going_on(bits: u8, at: u8, byte: u8) -> u8
    ensures { result ≡ going_on (texts forbidden) bits at byte }
{
    let place = at as usize;
    let small = octets::lower_case(byte);
    let transfer_encoding = agrees(bits, b"transfer-encoding:", place, small);
    let content_length = agrees(bits / 2, b"content-length:", place, small);
    let trailer = agrees(bits / 2 / 2, b"trailer:", place, small);
    transfer_encoding as u8 + 2 * (content_length as u8 + 2 * trailer as u8)
}

// Is the lowest bit set, and has the text that small letter at `at`?
fn agrees(bits: u8, text: &[u8], at: usize, small: u8) -> bool
    ensures { (b : ℕ) → small ≡ lower b → result ≡ odd bits && has text.now at b }
{
    bits % 2 == 1 && text.get(at) == Some(&small)
}
