// Relative numbers as signed numbers: a header word is converted exactly, and tested as the number that it is.
ghost use Rattle.std.specs.Prelude.{◌≡◌, true, ◌+◌, ◌*◌, ◌≤◌, ◌<◌, eqb, length};
ghost use Rattle.std.specs.Int.{w16};
ghost use Rattle.std.proofs.Common.{SFits};
ghost use Rattle.image.specs.Image.{view};
ghost use Rattle.image.specs.Signed.{signed, word_of};
ghost use Rattle.volume.specs.Words.{relative_at};
ghost use Rattle.volume.specs.Keys.{key_of, number};
ghost use Rattle.inspect.specs.Numbers.{last_good, blocks_to};

use volume::words::RELATIVE;

// Whether word w of block b is the signed number n.
pub fn is_number(img: &[u8], b: usize, w: usize, n: i32) -> bool
    requires { (528 * b + 528 ≤ length img.now) × (w < 264) × (SFits w16 n) }
    ensures { result ≡ eqb (view img.now b w) (word_of n) }
{
    if image::signed_word(img, b, w) == n {
        true
    } else {
        false
    }
}

// Whether the relative number of block b is n.
pub fn has_number(img: &[u8], b: usize, n: i32) -> bool
    requires { (528 * b + 528 ≤ length img.now) × (SFits w16 n) }
    ensures { result ≡ eqb (view img.now b relative_at) (word_of n) }
{
    is_number(img, b, RELATIVE, n)
}

// The relative number of key k.
pub fn number_of(k: usize) -> i32
    requires { (1 ≤ k) × (k < 33060) }
    ensures { result ≡ signed (number k) }
{
    (k as i32) - 292
}

// The key of the relative number n.
pub fn key_of(n: i32) -> usize
    requires { SFits w16 n }
    ensures { (result ≡ key_of (word_of n)) × (result < 65536) }
{
    if n < -292 {
        ((n + 292) + 65536) as usize
    } else {
        (n + 292) as usize
    }
}

// Whether L is from -1 to 32,766.
pub fn last_good(l: i32) -> bool
    ensures { result ≡ last_good l }
{
    if l < -1 {
        return false;
    }
    l <= 32766
}

// L + 1, for such an L.
pub fn blocks_to(l: i32) -> usize
    requires { last_good l ≡ true }
    ensures { (result ≡ blocks_to l) × (result ≤ 32767) }
{
    (l + 1) as usize
}
