// http URLs compared by what they mean: RFC 2616 3.2.3.
#![tactic(auto)]

ghost use Rattle.std.specs.Prelude.{◌≡◌};
ghost use Rattle.octets.specs.Comparing.{comparison};
ghost use Rattle.url_equal.specs.Meaning.{same_query, same_page, equality};
ghost use Rattle.url_equal.specs.Places.{query_in, page_in};

use http_url::{Span, Url};
use octets::PairRefusal;

// Reads the first, then the second, and compares what they mean. Document 01 asks for `let .. else` here.
pub fn equal(a: &[u8], b: &[u8]) -> Result<bool, PairRefusal>
    ensures { comparison result ≡ equality a.now b.now }
{
    let first = http_url::read(a).map_err(PairRefusal::First);
    let Ok(u) = first else {
        return first.map(|_| false);
    };
    let second = http_url::read(b).map_err(PairRefusal::Second);
    let Ok(v) = second else {
        return second.map(|_| false);
    };
    Ok(same_url(a, u, b, v))
}

// Do the parts of two URLs mean the same?
fn same_url(a: &[u8], u: Url, b: &[u8], v: Url) -> bool
    ensures { result ≡ same_page (page_in a.now u) (page_in b.now v) }
{
    if !octets::same_ignoring_case(http_url::text_at(a, u.host), http_url::text_at(b, v.host)) {
        return false;
    }
    if u.port != v.port {
        return false;
    }
    if !escapes::same(http_url::path_at(a, u), http_url::path_at(b, v)) {
        return false;
    }
    same_query(a, u.query, b, v.query)
}

// Are two queries the same? An absent one and an empty one are not.
fn same_query(a: &[u8], x: Option<Span>, b: &[u8], y: Option<Span>) -> bool
    ensures { result ≡ same_query (query_in a.now x) (query_in b.now y) }
{
    match (x, y) {
        (None, None) => true,
        (Some(x), Some(y)) => escapes::same(http_url::text_at(a, x), http_url::text_at(b, y)),
        _ => false,
    }
}
