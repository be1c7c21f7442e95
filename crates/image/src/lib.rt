// Records of 528 bytes: their words, whole records copied out, changed and stored, and runs of stores under a limit. That record b lies in the
// image is asked of each call, as of an index into a slice: the two are the caller's own, and a type that held both would be built at each call.
#![tactic(auto)]

ghost use Rattle.std.specs.Prelude.{◌≡◌, ◌++◌, ◌+◌, ◌*◌, ◌<◌, ◌≤◌, length, drop, IfSome};
ghost use Rattle.std.specs.Int.{w16};
ghost use Rattle.std.proofs.Common.{SFits};
ghost use Rattle.image.specs.View.{pair, put, put2, blank};
ghost use Rattle.image.specs.Signed.{signed, word_of};
ghost use Rattle.image.specs.Image.{view, rec_of};
ghost use Rattle.image.specs.Stores.{bytes_of, lay, over};
ghost use Rattle.image.specs.Saves.{store_of, stores_of, all_stores, words, with_data, with_text, Applied, Made, Fit, AllFit};

// A byte as a number, and below 256: `usize::from` promises the number alone.
pub fn wide(x: u8) -> usize
    ensures { (result ≡ x) × (result < 256) }
{
    x as usize
}

// Word w of block b.
pub fn word(img: &[u8], b: usize, w: usize) -> usize
    requires { (528 * b + 528 ≤ length img.now) × (w < 264) }
    ensures { (result ≡ view img.now b w) × (result < 65536) }
{
    let i = 528 * b + 2 * w;
    wide(img[i]) + 256 * wide(img[i + 1])
}

// Words w and w + 1 of block b as one number, low word first.
pub fn pair(img: &[u8], b: usize, w: usize) -> usize
    requires { (528 * b + 528 ≤ length img.now) × (w < 263) }
    ensures { (result ≡ pair (view img.now) b w) × (result < 4294967296) }
{
    word(img, b, w) + 65536 * word(img, b, w + 1)
}

// A word as the signed number that it is, without a branch: half of all words up, round to the others, and down again. This and `word_of` are
// of i32 and not of i16, as docs have them: the sums around them would not fit in 16 bits.
pub fn signed(w: usize) -> i32
    requires { w < 65536 }
    ensures { result ≡ signed w }
{
    ((w + 32768) % 65536) as i32 - 32768
}

// Word w of block b as the signed number that it is.
pub fn signed_word(img: &[u8], b: usize, w: usize) -> i32
    requires { (528 * b + 528 ≤ length img.now) × (w < 264) }
    ensures { (result ≡ signed (view img.now b w)) × (view img.now b w < 65536) }
{
    signed(word(img, b, w))
}

// The word that a signed number is.
pub fn word_of(n: i32) -> usize
    requires { SFits w16 n }
    ensures { (result ≡ word_of n) × (result < 65536) }
{
    if n < 0 {
        (n + 65536) as usize
    } else {
        n as usize
    }
}

// Record b, copied out.
pub fn record(img: &[u8], b: usize) -> [u8; 528]
    requires { 528 * b + 528 ≤ length img.now }
    ensures { rec_of result ≡ view img.now b }
{
    let at = 528 * b;
    let end = at + 528;
    let mut r = [0u8; 528];
    r.copy_from_slice(&img[at..end]);
    r
}

// The bytes of src over those of the buffer from `at` on.
pub fn put_at(buf: &mut [u8], at: usize, src: &[u8])
    requires { at + length src.now ≤ length buf.old }
    ensures { buf.new ≡ lay buf.old at src.now }
{
    let end = at + src.len();
    buf[at..end].copy_from_slice(src);
}

// A record of zeros.
pub fn blank() -> [u8; 528]
    ensures { rec_of result ≡ blank }
{
    [0u8; 528]
}

// A record with v as its word w.
pub fn with_word(r: [u8; 528], w: usize, v: usize) -> [u8; 528]
    requires { (w < 264) × (v < 65536) }
    ensures { rec_of result ≡ put w v (rec_of r) }
{
    let mut x = r;
    let i = 2 * w;
    x[i] = (v % 256) as u8;
    x[i + 1] = (v / 256) as u8;
    x
}

// A record with the signed number n as its word w.
pub fn with_signed(r: [u8; 528], w: usize, n: i32) -> [u8; 528]
    requires { (w < 264) × (SFits w16 n) }
    ensures { rec_of result ≡ put w (word_of n) (rec_of r) }
{
    with_word(r, w, word_of(n))
}

// A record with v as its words w and w + 1.
pub fn with_pair(r: [u8; 528], w: usize, v: usize) -> [u8; 528]
    requires { (w < 263) × (v < 4294967296) }
    ensures { rec_of result ≡ put2 w v (rec_of r) }
{
    with_word(with_word(r, w + 1, v / 65536), w, v % 65536)
}

// A record with `d` as its data.
pub fn with_data(r: [u8; 528], d: &[u8; 512]) -> [u8; 528]
    ensures { rec_of result ≡ with_data (words d.now) (rec_of r) }
{
    let mut x = r;
    x[16..].copy_from_slice(d);
    x
}

// A record with `d` as its description. It begins where data does; the two differ in length and in what is promised.
pub fn with_text(r: [u8; 528], d: &[u8; 104]) -> [u8; 528]
    ensures { rec_of result ≡ with_text (words d.now) (rec_of r) }
{
    let mut x = r;
    x[16..120].copy_from_slice(d);
    x
}

// Writes the record r over the first 528 bytes of the part.
fn store(part: &mut [u8], r: &[u8])
    requires { (528 ≤ length part.old) × (length r.now ≡ 528) }
    ensures { part.new ≡ bytes_of (rec_of r.now) ++ drop 528 part.old }
{
    part[..528].copy_from_slice(r);
}

// Writes the record r as record b.
pub fn store_at(img: &mut [u8], b: usize, r: [u8; 528])
    requires { 528 * b + 528 ≤ length img.old }
    ensures { img.new ≡ over img.old b (bytes_of (rec_of r)) }
{
    let at = 528 * b;
    store(&mut img[at..], &r);
}

// A whole record to store in a block.
#[derive(Clone, Copy)]
pub struct Save {
    pub at: usize,
    pub rec: [u8; 528],
}

// One store under a limit, if there is one: made where the limit leaves room. Answers the room that is left.
pub fn step(img: &mut [u8], left: usize, save: Option<Save>) -> usize
    requires { IfSome save (Fit img.old) }
    ensures { Applied left (stores_of save) img.old img.new result }
{
    let Some(s) = save else {
        return left;
    };
    if 0 < left {
        store_at(img, s.at, s.rec);
        return left - 1;
    }
    left
}

// The stores of a list, in order, but for the places where it has none; the first `limit` of them are made. Answers how many.
pub fn perform(img: &mut [u8], limit: usize, saves: &[Option<Save>]) -> usize
    requires { AllFit img.old saves.now }
    ensures { Made limit (all_stores saves.now) img.old img.new result }
{
    let mut left = limit;
    for s in saves {
        left = step(img, left, *s);
    }
    limit.saturating_sub(left)
}

// A store of the record r in block b.
pub fn saved(b: usize, r: [u8; 528]) -> Save
    ensures { (store_of result ≡ record { at = b; rec = rec_of r }) × (result.at ≡ b) }
{
    Save { at: b, rec: r }
}
