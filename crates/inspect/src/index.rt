// A file's index: whether its entries name the right blocks, and the block of a key.
ghost use Rattle.std.specs.Prelude.{◌≡◌, true, ◌≢◌, ◌+◌, ◌*◌, ◌/◌, ◌%◌, ◌≤◌, ◌<◌, length};
ghost use Rattle.std.specs.Int.{w16};
ghost use Rattle.std.proofs.Common.{SFits};
ghost use Rattle.base.specs.Tests.{all};
ghost use Rattle.drive.specs.Address.{pda, lda_block};
ghost use Rattle.image.specs.View.{pair};
ghost use Rattle.image.specs.Image.{view};
ghost use Rattle.image.specs.Signed.{word_of};
ghost use Rattle.volume.specs.Words.{slot_at};
ghost use Rattle.volume.specs.Keys.{number, reach, up, slot};
ghost use Rattle.volume.specs.Files.{len, spot, present, named};
ghost use Rattle.inspect.specs.Form.{names, data_test, double_test, doubles_good, entries_good, index_good};
ghost use Rattle.inspect.specs.Parts.{Readable};

use crate::{Volume, keys, numbers};
use volume::words::{DIRECT, LAST_BLOCK, SERIAL, SLOTS};

// L + 1, of an f whose L is within reach.
pub fn len(img: &[u8], f: usize) -> usize
    requires { (528 * f + 528 ≤ length img.now) × (len (view img.now) f ≤ reach) }
    ensures { (result ≡ len (view img.now) f) × (result ≤ 32767) }
{
    numbers::blocks_to(image::signed_word(img, f, LAST_BLOCK))
}

// The block that the entry of key k in block q names.
fn entry_block(img: &[u8], drive: usize, q: usize, k: usize) -> usize
    requires { (528 * q + 528 ≤ length img.now) × (k < 37220) }
    ensures { (result ≡ lda_block drive (pair (view img.now) q (slot k))) × (result < 16777216) }
{
    drive::lda_block(drive, image::pair(img, q, keys::slot(k)))
}

// The block that the entry of key k in block q is known to name.
pub fn read(img: &[u8], q: usize, k: usize) -> usize
    requires { (528 * q + 528 ≤ length img.now) × (k < 37220) }
    ensures { result ≡ pair (view img.now) q (slot k) / 256 % 2097152 }
{
    drive::known_lda(image::pair(img, q, keys::slot(k)))
}

// The key of the pointer block over data through which k is named, or k where there is none.
fn through(k: usize) -> usize
    requires { k < 33060 }
    ensures { (355 < k → result ≡ up k) × (k ≤ 355 → result ≡ k) × (result < 356) }
{
    if 355 < k { keys::up(k) } else { k }
}

impl Volume<'_> {
    // Whether the LDA x is that of a block of the partition with the serial `own` and the relative number n.
    fn names(&self, own: usize, x: usize, n: i32) -> bool
        requires { SFits w16 n }
        ensures { result ≡ names self.now.p (view self.now.img.now) own x (word_of n) }
    {
        // A number that is decoded as a block above s is that block's LDA.
        let b = drive::lda_block(self.p.drive, x);
        if b <= self.p.s {
            return false;
        }
        if self.p.e < b {
            return false;
        }
        if image::pair(self.img, b, SERIAL) != own {
            return false;
        }
        numbers::has_number(self.img, b, n)
    }

    // The block that names key k, which no pointer block over data does: the FIB, or -2 or -3.
    fn holder(&self, f: usize, k: usize) -> usize
        requires { (f ≤ self.now.p.e) × (1 ≤ k) × (k < 356) }
        ensures { (result ≡ spot self.now.p (view self.now.img.now) f (up k)) × (result < 16777216) }
    {
        if 256 < k {
            return f;
        }
        entry_block(self.img, self.p.drive, f, keys::up(k))
    }

    // The block that the index names as pointer block k.
    fn ptr(&self, f: usize, k: usize) -> usize
        requires { (f ≤ self.now.p.e) × (1 ≤ k) × (k < 291) × (spot self.now.p (view self.now.img.now) f (up k) ≤ self.now.p.e) }
        ensures { (result ≡ spot self.now.p (view self.now.img.now) f k) × (result < 16777216) }
    {
        entry_block(self.img, self.p.drive, self.holder(f, k), k)
    }

    // Whether the index names pointer block k of f with its number.
    fn ptr_named(&self, f: usize, own: usize, k: usize) -> bool
        requires { (f ≤ self.now.p.e) × (own ≡ pda self.now.p.drive f) × (1 ≤ k) × (k < 291) × (spot self.now.p (view self.now.img.now) f (up k) ≤ self.now.p.e) }
        ensures { result ≡ named self.now.p (view self.now.img.now) f k }
    {
        let x = image::pair(self.img, self.holder(f, k), keys::slot(k));
        self.names(own, x, numbers::number_of(k))
    }

    // Whether direct entry r names block r of f.
    fn direct_named(&self, f: usize, own: usize, r: usize) -> bool
        requires { (f ≤ self.now.p.e) × (own ≡ pda self.now.p.drive f) × (r < 64) }
        ensures { result ≡ data_test self.now.p (view self.now.img.now) f r }
    {
        let x = image::pair(self.img, f, DIRECT + 2 * r);
        self.names(own, x, numbers::number_of(keys::FIRST + r))
    }

    // Whether entry j of pointer block i, which is block q, names its block of the file with the address `own`.
    fn entry_named(&self, own: usize, q: usize, i: usize, j: usize) -> bool
        requires { (q ≤ self.now.p.e) × (356 + 128 * i + j < 33060) × (j < 128) }
        ensures { result ≡ names self.now.p (view self.now.img.now) own (pair (view self.now.img.now) q (slot_at j)) (number (356 + 128 * i + j)) }
    {
        let x = image::pair(self.img, q, SLOTS + 2 * j);
        self.names(own, x, numbers::number_of(356 + 128 * i + j))
    }

    // Whether the first m direct entries name the first m blocks of f.
    fn direct_good(&self, f: usize, own: usize, m: usize) -> bool
        requires { (f ≤ self.now.p.e) × (own ≡ pda self.now.p.drive f) × (m ≤ 64) }
        ensures { result ≡ all m (data_test self.now.p (view self.now.img.now) f) }
    {
        (0..m).all(|r| self.direct_named(f, own, r))
    }

    // Whether the first m of -2 and -3 are named with their numbers.
    fn doubles_good(&self, f: usize, m: usize) -> bool
        requires { (f ≤ self.now.p.e) × (m ≤ 2) }
        ensures { result ≡ all m (double_test self.now.p (view self.now.img.now) f) }
    {
        (0..m).all(|i| self.ptr_named(f, drive::pda(self.p.drive, f), 290 - i))
    }

    // Whether every entry over data and every data block that n blocks need is named well, where -2 and -3 are. A pointer block is looked up
    // once for its entries, so that two loops are one inside the other and are left by a label, which is kept as one of the forms in docs/DECISIONS.md.
    fn entries_good(&self, f: usize, n: usize) -> bool
        requires { (f ≤ self.now.p.e) × (n ≤ 32767) × (doubles_good self.now.p (view self.now.img.now) f n ≡ true) }
        ensures { result ≡ entries_good self.now.p (view self.now.img.now) f n }
    {
        let own = drive::pda(self.p.drive, f);
        if !self.direct_good(f, own, n.min(64)) {
            return false;
        }
        let pointers = 289usize.saturating_sub(keys::low(n));
        let mut good = true;
        'index: for i in 0..pointers {
            if !self.ptr_named(f, own, keys::POINTER - i) {
                good = false;
                break 'index;
            }
            let q = self.ptr(f, keys::POINTER - i);
            let m = (n - (64 + 128 * i)).min(128);
            for j in 0..m {
                if !self.entry_named(own, q, i, j) {
                    good = false;
                    break 'index;
                }
            }
        }
        good
    }

    // Whether every entry that n blocks need is good: without blocks no address is worked out.
    pub fn index_good(&self, f: usize, n: usize) -> bool
        requires { (f ≤ self.now.p.e) × (n ≤ 32767) }
        ensures { result ≡ index_good self.now.p (view self.now.img.now) f n }
    {
        if n < 1 {
            return true;
        }
        if self.doubles_good(f, keys::HOME - keys::nearest(n)) {
            self.entries_good(f, n)
        } else {
            false
        }
    }

    // The block that names key k of f, whose index is good, by at most two entries; of the FIB itself.
    pub fn holder_of(&self, f: usize, k: usize) -> usize
        requires { (Readable self.now.p self.now.img.now f) × (present self.now.p (view self.now.img.now) f k ≡ true) }
        ensures { (result ≡ spot self.now.p (view self.now.img.now) f (up k)) × (result ≤ self.now.p.e) }
    {
        let u = through(k);
        let q = self.holder(f, u);
        if 355 < k { read(self.img, q, u) } else { q }
    }

    // The block of key k of f but the FIB's, whose index is good, by up to three entries. It is called, so that `at_key` without it is small
    // enough to be copied into its callers.
    #[inline(never)]
    fn far_key(&self, f: usize, k: usize) -> usize
        requires { (Readable self.now.p self.now.img.now f) × (present self.now.p (view self.now.img.now) f k ≡ true) × (k ≢ 291) }
        ensures { (result ≡ spot self.now.p (view self.now.img.now) f k) × (result ≤ self.now.p.e) }
    {
        read(self.img, self.holder_of(f, k), k)
    }

    // The block of key k of f, whose index is good: an entry that is asked for is the LDA of a block. Short ways for the keys to which at most
    // two entries lead: most are theirs.
    pub fn at_key(&self, f: usize, k: usize) -> usize
        requires { (Readable self.now.p self.now.img.now f) × (present self.now.p (view self.now.img.now) f k ≡ true) }
        ensures { (result ≡ spot self.now.p (view self.now.img.now) f k) × (result ≤ self.now.p.e) }
    {
        if k == keys::HOME {
            return f;
        }
        if k <= keys::HOME {
            return self.far_key(f, k);
        }
        if k <= 355 {
            return read(self.img, f, k);
        }
        if 4451 < k {
            return self.far_key(f, k);
        }
        read(self.img, read(self.img, f, keys::up(k)), k)
    }
}
