// Chunked bodies: where a reader may stand in one, and what is told of a whole one. Grammar, limits and demands are in specs/ and proofs/.
#![tactic(auto)]

// The most bytes of a chunk line, and of the trailer.
pub const LINE_LIMIT: usize = 1024;

pub const TRAILER_LIMIT: usize = 8192;

// Where the extensions of a chunk line stand.
#[derive(Clone, Copy, Debug, PartialEq, Eq)]
pub enum ExtPos {
    // before the first one, or behind the closing quote of one
    Between,
    // behind `;`
    NameStart,
    Name,
    // behind `=`
    ValueStart,
    Token,
    Quoted,
    // behind a backslash in quotes
    Pair,
    // no extension goes on from here
    Dead,
}

// Where a chunk line stands: before its first digit, after digits, behind them. `value` is that of the digits so far.
#[derive(Clone, Copy, Debug, PartialEq, Eq)]
pub enum LinePos {
    First,
    Size { value: usize },
    Ext { value: usize, position: ExtPos },
}

// Where trailer lines stand.
#[derive(Clone, Copy, Debug, PartialEq, Eq)]
pub enum TrailPos {
    // behind the line before, or where the trailer begins
    LineStart,
    // in a name; `agreed` says which forbidden names agree with it so far, and how many bytes it has; 0 where none does
    Name { agreed: u8 },
    Value,
    // behind the colon of a forbidden name
    Forbidden,
    // behind the CR of a line
    Lf,
    // no trailer goes on from here
    Dead,
}

// Where a body stands. `length` counts the bytes so far of the line or the trailer, `size` is what the line gave, `left` the bytes of the
// chunk behind the next one; `before` is the data of the chunks before the line, `total` that of all chunks, the one being read included;
// `trailer` is the length of the trailer.
#[derive(Clone, Copy, Debug, PartialEq, Eq)]
pub enum State {
    Line {
        position: LinePos,
        length: usize,
        before: usize,
    },
    LineFeed {
        size: usize,
        before: usize,
    },
    Data {
        left: usize,
        total: usize,
    },
    DataCr {
        total: usize,
    },
    DataLf {
        total: usize,
    },
    Trail {
        position: TrailPos,
        length: usize,
        total: usize,
    },
    EndLf {
        total: usize,
        trailer: usize,
    },
    Done {
        total: usize,
        trailer: usize,
    },
    Dead,
}

// What is told of a body that is whole: the bytes that it takes, the length of its data, and where its trailer stands, which ends before
// the closing CRLF; without a trailer, the place of the closing CRLF and 0.
#[derive(Clone, Copy, Debug, PartialEq, Eq)]
pub struct Whole {
    pub taken: usize,
    pub length: usize,
    pub trailer_start: usize,
    pub trailer_length: usize,
}
