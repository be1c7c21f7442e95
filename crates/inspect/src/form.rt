// Whether a file is well formed.
ghost use Rattle.std.specs.Prelude.{◌≡◌, ◌||◌, ◌+◌, ◌*◌, ◌≤◌, ◌<◌, ltb, eqb, length};
ghost use Rattle.base.specs.Tests.{all};
ghost use Rattle.image.specs.View.{pair};
ghost use Rattle.image.specs.Image.{view};
ghost use Rattle.volume.specs.Files.{len, well_formed};
ghost use Rattle.inspect.specs.Form.{nil_from, nils_good, numbers_good};
ghost use Rattle.inspect.specs.Parts.{Readable};

use crate::{Volume, keys, numbers};
use volume::words::{
    DIRECT, DOUBLE, IN_USE, INDIRECT, LAST_ADDRESS, LAST_BLOCK, LOW_ADDRESS, LOW_NUMBER,
    SECOND_DOUBLE,
};

// A pair in 32 bits.
fn narrow(x: usize) -> u32
    requires { x < 4294967296 }
    ensures { result ≡ x }
{
    x as u32
}

// Whether of the n entries from word w on those from k on are nil: whether no bit is set in any. With no way out of the fold, and
// with 32 bits kept, the compiler reads several at a time.
fn nil_from(img: &[u8], f: usize, w: usize, k: usize, n: usize) -> bool
    requires { (528 * f + 528 ≤ length img.now) × (w + 2 * n < 263) }
    ensures { result ≡ all n (nil_from (view img.now) f w k) }
{
    (k..n).fold(0u32, |any, i| any | narrow(image::pair(img, f, w + 2 * i))) == 0
}

// Whether a double entry of the FIB, that at word w, is asked for by n blocks, which is so beyond `first`, or nil.
fn double_good(img: &[u8], f: usize, w: usize, first: usize, n: usize) -> bool
    requires { (528 * f + 528 ≤ length img.now) × (w < 263) }
    ensures { result ≡ (ltb first n || eqb (pair (view img.now) f w) 0) }
{
    if first < n {
        return true;
    }
    image::pair(img, f, w) == 0
}

// Whether the entries of the FIB that n blocks do not need are nil.
fn nils_good(img: &[u8], f: usize, n: usize) -> bool
    requires { (528 * f + 528 ≤ length img.now) × (n ≤ 32767) }
    ensures { result ≡ nils_good (view img.now) f n }
{
    if !nil_from(img, f, DIRECT, n, 64) {
        return false;
    }
    if !nil_from(img, f, INDIRECT, 289usize.saturating_sub(keys::low(n)), 32) {
        return false;
    }
    if !double_good(img, f, DOUBLE, 4160, n) {
        return false;
    }
    double_good(img, f, SECOND_DOUBLE, 20544, n)
}

impl Volume<'_> {
    // Whether the numbers and addresses of f, whose index is good, are those of its n blocks.
    fn numbers_good(&self, f: usize, n: usize) -> bool
        requires { (Readable self.now.p self.now.img.now f) × (n ≡ len (view self.now.img.now) f) }
        ensures { result ≡ numbers_good self.now.p (view self.now.img.now) f n }
    {
        if image::word(self.img, f, IN_USE) != keys::size_of(n) {
            return false;
        }
        let last = self.at_key(f, keys::HOME + n);
        if !drive::is_lda(self.p.drive, image::pair(self.img, f, LAST_ADDRESS), last) {
            return false;
        }
        let low = keys::low(n);
        if !numbers::is_number(self.img, f, LOW_NUMBER, numbers::number_of(low)) {
            return false;
        }
        let top = self.at_key(f, low);
        drive::is_lda(self.p.drive, image::pair(self.img, f, LOW_ADDRESS), top)
    }

    // Whether f is well formed.
    pub fn well_formed(&self, f: usize) -> bool
        requires { f ≤ self.now.p.e }
        ensures { result ≡ well_formed self.now.p (view self.now.img.now) f }
    {
        let l = image::signed_word(self.img, f, LAST_BLOCK);
        if !numbers::last_good(l) {
            return false;
        }
        let n = numbers::blocks_to(l);
        if !self.index_good(f, n) {
            return false;
        }
        if !nils_good(self.img, f, n) {
            return false;
        }
        self.numbers_good(f, n)
    }
}
