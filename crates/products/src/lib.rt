// Product tokens with comments: RFC 2616 3.8 and 2.2.
#![tactic(auto)]

ghost use Rattle.std.specs.Prelude.{◌≡◌, ◌≤◌, ◌<◌, length};
ghost use Rattle.grammar.specs.helpers.Judge.{header};
ghost use Rattle.products.specs.Grammar.{comment_text?, rules};
ghost use Rattle.octets.specs.Reading.{verdict};
ghost use Rattle.products.specs.helpers.Scan.{CommentAt, ContentAt, PlainAt, Inside, Found, NoComment, ItemAt};

use octets::Refusal;

// How many levels of comments may be open.
const LEVEL_LIMIT: usize = 8;

// The bytes of a comment's text: HT, 32 to 126 without `(`, `)` and `\`, 128 to 255.
const COMMENT_TEXT: octets::Class = [
    0xfffffcff00000200,
    0x7fffffffefffffff,
    0xffffffffffffffff,
    0xffffffffffffffff,
];

// How many products and outermost comments there are, and the deepest level of comments.
#[derive(Clone, Copy, Debug, PartialEq, Eq)]
pub struct Products {
    pub products: usize,
    pub comments: usize,
    pub deepest: usize,
}

// An item: the place behind it, and what was found through it.
#[derive(Clone, Copy)]
struct Item {
    end: usize,
    found: Products,
}

// A comment, or what one holds: the place where it ends, and how many levels deep it is.
#[derive(Clone, Copy)]
struct Closed {
    end: usize,
    levels: usize,
}

// Reads products and comments, with blanks between and at least one between two products.
pub fn read(s: &[u8]) -> Result<Products, Refusal>
    ensures { verdict result ≡ header rules s.now }
{
    octets::check_length(s)?;
    let mut found = Products {
        products: 0,
        comments: 0,
        deepest: 0,
    };
    let mut at = 0;
    loop {
        let item = read_item(s, at, found)?;
        if s.len() <= item.end {
            return Ok(item.found);
        }
        found = item.found;
        at = scans::class_end(octets::BLANK, s, item.end);
    }
}

// Reads the product or the comment that stands at `at`.
fn read_item(s: &[u8], at: usize, found: Products) -> Result<Item, Refusal>
    requires { Found s.now at found }
    ensures { ItemAt s.now at result }
{
    if s.len() <= at {
        return Err(Refusal::Malformed(at));
    }
    if s[at] != b'(' {
        return read_product(s, at, found);
    }
    let comment = read_comment(s, at, LEVEL_LIMIT)?;
    Ok(Item {
        end: comment.end,
        found: Products {
            comments: found.comments + 1,
            deepest: found.deepest.max(comment.levels),
            ..found
        },
    })
}

// Reads the product that stands at `at`: a token, and a slash with another token if there is one.
fn read_product(s: &[u8], at: usize, found: Products) -> Result<Item, Refusal>
    requires { NoComment s.now at found }
    ensures { ItemAt s.now at result }
{
    let name = scans::class_end(octets::TOKEN, s, at);
    if name == at {
        return Err(Refusal::Malformed(at));
    }
    let found = Products {
        products: found.products + 1,
        ..found
    };
    if s.len() <= name || s[name] != b'/' {
        return Ok(Item { end: name, found });
    }
    let end = scans::class_end(octets::TOKEN, s, name + 1);
    if end == name + 1 {
        return Err(Refusal::Malformed(end));
    }
    Ok(Item { end, found })
}

// Reads the comment that opens at `at`, where `allowed` more levels may be opened.
#[cycle(read_comment_read_content)]
fn read_comment(s: &[u8], at: usize, allowed: usize) -> Result<Closed, Refusal>
    requires { at < length s.now }
    ensures { CommentAt s.now at allowed result }
{
    if allowed == 0 {
        return Err(Refusal::CommentTooDeep(at));
    }
    let content = read_content(s, at + 1, allowed - 1)?;
    Ok(Closed {
        end: content.end + 1,
        levels: content.levels + 1,
    })
}

// Reads text, pairs and comments from `from` to the `)` that closes them, where `allowed` more levels may be opened.
#[cycle(read_comment_read_content)]
fn read_content(s: &[u8], from: usize, allowed: usize) -> Result<Closed, Refusal>
    requires { from ≤ length s.now }
    ensures { ContentAt s.now from allowed result }
{
    let mut levels = 0;
    let mut i = from;
    while i < s.len() {
        match s[i] {
            b')' => return Ok(Closed { end: i, levels }),
            b'(' => {
                let comment = read_comment(s, i, allowed)?;
                levels = levels.max(comment.levels);
                i = comment.end;
            }
            _ => i = read_plain(s, i)?,
        }
    }
    Err(Refusal::Malformed(i))
}

// A byte of a comment's text. Those from 128 on all are, which is asked first: a comment of such bytes is read in 0.3 of the time, one of
// letters in 0.4.
fn is_comment_text(byte: u8) -> bool
    ensures { result ≡ comment_text? byte }
{
    if byte >= 128 {
        return true;
    }
    octets::in_class(COMMENT_TEXT, byte)
}

// Reads a byte of text or a pair: the place behind it.
fn read_plain(s: &[u8], at: usize) -> Result<usize, Refusal>
    requires { Inside s.now at }
    ensures { PlainAt s.now at result }
{
    if is_comment_text(s[at]) {
        return Ok(at + 1);
    }
    if s[at] != b'\\' {
        return Err(Refusal::Malformed(at));
    }
    if s.len() <= at + 1 || !octets::is_escaped(s[at + 1]) {
        return Err(Refusal::Malformed(at + 1));
    }
    Ok(at + 2)
}
