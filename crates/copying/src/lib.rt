// Copies bytes by blocks.
#![tactic(auto)]

ghost use Rattle.std.specs.Prelude.{◌≡◌, ◌++◌, ◌+◌, ◌<◌, ◌≤◌, length, drop};
ghost use Rattle.numerals.specs.Numeral.{put};
ghost use Rattle.copying.specs.helpers.Runs.{Front, block_at};

// Puts `src` at the front of `dst` if it fits, and keeps the rest. By blocks: the last one may overlap the one before it.
pub fn copy(dst: &mut [u8], src: &[u8])
    ensures { dst.new ≡ put src.now dst.old }
{
    if src.len() > dst.len() {
        return;
    }
    if src.len() < 16 {
        copy_bytes(dst, src);
        return;
    }
    copy_rest(dst, src, 0);
}

// As `copy`, for runs of which most are long: see `copy_wide`. It stands apart, because in `copy` it would make callers too long to be
// compiled into their loops.
pub fn copy_long(dst: &mut [u8], src: &[u8])
    ensures { dst.new ≡ put src.now dst.old }
{
    let len = src.len();
    if len > dst.len() {
        return;
    }
    if len < 16 {
        copy_few(dst, src);
        return;
    }
    let at = copy_wide(dst, src);
    copy_rest(dst, src, at);
}

// The bytes from `from` on, behind those that are copied.
fn copy_rest(dst: &mut [u8], src: &[u8], from: usize)
    requires src_in_bounds { (length src.now ≤ length dst.old) × (16 ≤ length src.now) × (from < length src.now) }
    requires front { Front dst.old src.now dst.old from }
    ensures { dst.new ≡ src.now ++ drop (length src.now) dst.old }
{
    let len = src.len();
    let mut at = from;
    while len - at > 16 {
        copy_block::<16>(dst, src, at);
        at += 16;
    }
    copy_block::<16>(dst, src, len - 16);
}

// Copies four blocks at a time as long as more than these is left, and gives how many bytes that were (with `same_line` of `chunked`, 0.8
// of the time at chunks of 256).
fn copy_wide(dst: &mut [u8], src: &[u8]) -> usize
    requires { (length src.now ≤ length dst.old) × (0 < length src.now) }
    ensures { Front dst.old src.now dst.new result × (result < length src.now) }
{
    let len = src.len();
    let mut at = 0;
    while len - at > 64 {
        copy_block::<16>(dst, src, at);
        copy_block::<16>(dst, src, at + 16);
        copy_block::<16>(dst, src, at + 32);
        copy_block::<16>(dst, src, at + 48);
        at += 64;
    }
    at
}

// Fewer than 16 bytes: one to four blocks of 4, which may overlap, and no branch that asks how many (a body of one chunk of 5 bytes takes
// 0.95 of the time).
fn copy_few(dst: &mut [u8], src: &[u8])
    requires { (length src.now ≤ length dst.old) × (length src.now < 16) }
    ensures { dst.new ≡ src.now ++ drop (length src.now) dst.old }
{
    let len = src.len();
    if len < 4 {
        copy_bytes(dst, src);
        return;
    }
    let last = len - 4;
    copy_block::<4>(dst, src, 0);
    copy_block::<4>(dst, src, last.min(4));
    copy_block::<4>(dst, src, last.min(8));
    copy_block::<4>(dst, src, last);
}

// One byte at a time.
fn copy_bytes(dst: &mut [u8], src: &[u8])
    requires { length src.now ≤ length dst.old }
    ensures { dst.new ≡ src.now ++ drop (length src.now) dst.old }
{
    for (i, byte) in src.iter().enumerate() {
        dst[i] = *byte;
    }
}

// The block of `N` bytes at `at`.
fn copy_block<const N: usize>(dst: &mut [u8], src: &[u8], at: usize)
    requires { (length src.now ≤ length dst.old) × (at + N ≤ length src.now) }
    ensures { dst.new ≡ block_at N src.now dst.old at }
{
    let end = at + N;
    put_block::<N>(&mut dst[at..end], block::<N>(&src[at..end]));
}

// The bytes of a block, by value: they are read before any is written, so that a copy is one wide move. By a loop: std's `copy_from_slice`
// asks whether the two overlap, and is then not compiled into the loops of callers (twice the time of `pieces` at chunks of 16).
fn block<const N: usize>(src: &[u8]) -> [u8; N]
    requires { length src.now ≡ N }
    ensures { result ≡ src.now }
{
    let mut bytes = [0; N];
    for i in 0..N {
        bytes[i] = src[i];
    }
    bytes
}

fn put_block<const N: usize>(dst: &mut [u8], bytes: [u8; N])
    requires { length dst.old ≡ N }
    ensures { dst.new ≡ bytes.entry }
{
    for i in 0..N {
        dst[i] = bytes[i];
    }
}
