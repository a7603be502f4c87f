// Products and comments for C and Rust. Nothing is decided here.
#![tactic(auto)]

ghost use Rattle.std.specs.Prelude.{◌≡◌};
ghost use Rattle.grammar.specs.helpers.Judge.{header};
ghost use Rattle.octets.specs.Reading.{verdict};
ghost use Rattle.products.specs.Grammar.{rules as product-lists};
ghost use Rattle.ffi_products.specs.Fields.{products_fields};

use octets::Refusal;
use products::Products;

// Products and comments that were read.
#[repr(C)]
#[derive(Clone, Copy, Default)]
pub struct QzProducts {
    pub number: u8,
    pub place: usize,
    pub products: usize,
    // outermost ones
    pub comments: usize,
    // the deepest level of comments; 0 without comments
    pub deepest: usize,
}

// What a reader of products gives, as C sees it.
impl From<Result<Products, Refusal>> for QzProducts {
    ghost from_gives = { λ v read. read ≡ products_fields (verdict v) };

    fn from(v: Result<Products, Refusal>) -> QzProducts {
        match v {
            Ok(v) => QzProducts {
                products: v.products,
                comments: v.comments,
                deepest: v.deepest,
                ..QzProducts::default()
            },
            Err(r) => QzProducts {
                number: r.number(),
                place: r.place(),
                ..QzProducts::default()
            },
        }
    }
}

// Products and comments with blanks between; comments hold comments to eight levels.
#[unsafe(no_mangle)]
pub extern "C" fn qz_products_read(s: &[u8]) -> QzProducts
    ensures { result ≡ products_fields (header product-lists s.now) }
{
    QzProducts::from(products::read(s))
}
