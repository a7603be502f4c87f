// Document 01's bench program: lines of hexadecimal, one frame a line, each decoded as a chunked body.
#![tactic(auto)]

ghost use Rattle.std.specs.Prelude.{◌≡◌, ◌+◌, ◌*◌, ◌≤◌, IfSome, length, take};
ghost use Rattle.text.specs.Placing.{placed};
ghost use Rattle.report.specs.Saying.{said};
ghost use Rattle.report.specs.Calls.{piece_said, piece_held, last_said, Foremost};

use std::io::Read;

// The room of a body, and of a frame: two digits make a byte.
const ROOM: usize = 16384;

// The bytes of a line that are kept: one more than a good line may have.
const LINE_LENGTH: usize = 32769;

// How much is read at once, and the room for its text: no line says more than 16 bytes. With 4,096 long lines take 1.16 times as long; with
// more than this they gain little, and each run clears more room.
const PIECE: usize = 16384;

const TEXT: usize = 262160;

// What a piece of the input leaves: the bytes held of a line that it began, and the length of the text.
#[derive(Clone, Copy)]
struct Progress {
    held: usize,
    used: usize,
}

// The bytes held of a line, its frame, the body in that, and the text of what is said.
#[derive(Drop)]
struct Buffers {
    line: [u8; LINE_LENGTH],
    frame: [u8; ROOM],
    room: [u8; ROOM],
    out: [u8; TEXT],
}

fn main(rt: HostRuntime) {
    let mut piece = [0u8; PIECE];
    let mut buffers = Buffers {
        line: [0u8; LINE_LENGTH],
        frame: [0u8; ROOM],
        room: [0u8; ROOM],
        out: [0u8; TEXT],
    };
    run(&rt, &mut piece, &mut buffers);
}

// Reads and writes, which no contract can speak of. What is put to be written, those of `put_piece` and `put_last` say.
fn run(rt: &(impl Input + Print + Eprint), piece: &mut [u8], buffers: &mut Buffers)
    requires { 16 * length piece.old + 16 ≤ length buffers.old.out }
{
    if let Some(held) = read_all(rt, piece, buffers) {
        let used = buffers.put_last(held);
        written(rt, &buffers.out[..used]);
    }
}

// Answers the lines that end with LF, and gives how many bytes are held of one behind them; None once a write failed: nothing more is
// written. A proved loop has to end, and nothing says that an input does, so that the reads are counted.
fn read_all(
    rt: &(impl Input + Print + Eprint),
    piece: &mut [u8],
    buffers: &mut Buffers,
) -> Option<usize>
    requires { 16 * length piece.old + 16 ≤ length buffers.old.out }
    ensures holds { IfSome result (λ held. held ≤ length buffers.new.line) }
    ensures keeps { length buffers.new.out ≡ length buffers.old.out }
{
    let mut input = rt.reader();
    let mut held = 0;
    'reads: for _ in 0..u64::MAX {
        let count = match input.read(piece) {
            Ok(count) => count,
            Err(_) => {
                complain(rt, "bench: standard input: read failed");
                0
            }
        };
        if count == 0 {
            return Some(held);
        }
        let progress = buffers.put_piece(&piece[..count], held);
        let used = progress.used;
        if !written(rt, &buffers.out[..used]) {
            return None;
        }
        held = progress.held;
    }
    Some(held)
}

// Says what failed on standard error. Nothing can be done where that fails too.
fn complain(rt: &impl Eprint, what: &str) {
    let _ = rt.eprintln(what);
}

// Writes to standard output, and gives whether all was written; where not, standard error says so.
fn written(rt: &(impl Print + Eprint), text: &[u8]) -> bool {
    match rt.write_all(text) {
        Ok(()) => true,
        Err(_) => {
            complain(rt, "bench: standard output: write failed");
            false
        }
    }
}

impl Buffers {
    // Puts what is said of the lines that end in this piece at the front of `out`, and holds what it begins of the next.
    fn put_piece(&mut self, piece: &[u8], held: usize) -> Progress
        requires { (16 * length piece.now + 16 ≤ length self.old.out) × (held ≤ length self.old.line) }
        ensures says { Foremost result.used self.new.out (piece_said self.old.line held piece.now) }
        ensures keeps { self.new.out ≡ placed self.old.out 0 (piece_said self.old.line held piece.now) }
        ensures holds { Foremost result.held self.new.line (piece_held self.old.line held piece.now) }
    {
        let mut at = 0;
        let mut begun = held;
        let mut used = 0;
        // a cursor: a turn takes one line
        while at < piece.len() {
            let gathered = lines::gather(&piece[at..], &mut self.line, begun);
            at += gathered.taken;
            if gathered.ended {
                used = self.put_line(gathered.held, used);
                begun = 0;
            } else {
                begun = gathered.held;
            }
        }
        Progress { held: begun, used }
    }

    // At the end of input: puts what is said of the bytes held, if there are any, at the front of `out`.
    fn put_last(&mut self, held: usize) -> usize
        requires { held ≤ length self.old.line }
        ensures says { Foremost result self.new.out (last_said (take held self.old.line)) }
        ensures keeps { self.new.out ≡ placed self.old.out 0 (last_said (take held self.old.line)) }
    {
        if self.line[..held].is_empty() {
            return 0;
        }
        self.put_line(held, 0)
    }

    // Puts what is said of the line that is held at `at`, and gives the place behind it.
    fn put_line(&mut self, held: usize, at: usize) -> usize
        requires { (held ≤ length self.old.line) × (at + 16 ≤ length self.old.out) }
        ensures ends { result ≡ at + length (said (take held self.old.line)) }
        ensures says { self.new.out ≡ placed self.old.out at (said (take held self.old.line)) }
        ensures lines { self.new.line ≡ self.old.line }
    {
        match lines::from_hex(&self.line[..held], &mut self.frame) {
            Some(count) => report::put_answer(
                chunked::decode(&self.frame[..count], &mut self.room),
                &mut self.out,
                at,
            ),
            None => text::put_bytes(b"X\n", &mut self.out, at),
        }
    }
}
