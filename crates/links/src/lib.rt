// Who owns a block, and whether a file's blocks are linked in order: for partitions in which no candidate is malformed.
#![tactic(auto)]

ghost use Rattle.std.specs.Prelude.{◌≡◌, true, ◌||◌, ◌≢◌, ◌+◌, ◌*◌, ◌≤◌, ◌<◌, length, ltb, eqb};
ghost use Rattle.base.specs.Tests.{both, all};
ghost use Rattle.drive.specs.Address.{pda};
ghost use Rattle.image.specs.View.{pair};
ghost use Rattle.image.specs.Image.{view};
ghost use Rattle.volume.specs.Words.{serial_at, relative_at, next_at, previous_at, slot_at};
ghost use Rattle.volume.specs.Keys.{key_of, child, first};
ghost use Rattle.volume.specs.Files.{owned, present, above, below, link, linked};
ghost use Rattle.volume.specs.Answers.{Unmarred};

use inspect::{File, Volume};
use volume::words::{NEXT, PREVIOUS, RELATIVE, SERIAL, SLOTS};

// A good partition with no malformed candidate: every candidate in it is a file.
#[derive(Clone, Copy)]
pub struct Clean<'a> {
    pub volume: Volume<'a>,
    ghost unmarred: { Unmarred volume.p (view volume.img.now) },
}

// The key that the relative number of block b is.
pub fn key_in(img: &[u8], b: usize) -> usize
    requires { 528 * b + 528 ≤ length img.now }
    ensures { (result ≡ key_of (view img.now b relative_at)) × (result < 65536) }
{
    inspect::key_of(image::signed_word(img, b, RELATIVE))
}

// Whether block b is owned, where no candidate is malformed: its header leads to a file, and the file to this very block.
pub fn owned(clean: &Clean<'_>, b: usize) -> bool
    requires { b ≤ clean.now.volume.p.e }
    ensures { result ≡ owned clean.now.volume.p (view clean.now.volume.img.now) b }
{
    let x = image::pair(clean.volume.img, b, SERIAL);
    // Most free blocks have no serial: nothing is to be split.
    if x == 0 {
        return false;
    }
    leads_back(clean, b, x)
}

// The same of a block whose serial is x. It is a function of its own, and called, so that for a block without a serial no register is saved and
// no room is made for a copy of what is known of the image.
#[inline(never)]
fn leads_back(clean: &Clean<'_>, b: usize, x: usize) -> bool
    requires { (b ≤ clean.now.volume.p.e) × (x ≡ pair (view clean.now.volume.img.now) b serial_at) × (x < 4294967296) }
    ensures { result ≡ owned clean.now.volume.p (view clean.now.volume.img.now) b }
{
    let volume = &clean.volume;
    let f = drive::block_of(volume.p.drive, x);
    if !volume.candidate(f) {
        return false;
    }
    let file = File { volume: *volume, f };
    let k = key_in(volume.img, b);
    if !inspect::has_key(file.len(), k) {
        return false;
    }
    file.spot(k) == b
}

// The link to key k of a file, nil for none.
fn link_to(file: &File<'_>, k: usize) -> usize
    requires { k ≢ 0 → present file.now.volume.p (view file.now.volume.img.now) file.now.f k ≡ true }
    ensures { result ≡ link file.now.volume.p (view file.now.volume.img.now) file.now.f k }
{
    if k == 0 {
        return 0;
    }
    drive::pda(file.volume.p.drive, file.spot(k))
}

// The next link that key k of a file should have.
pub fn next_of(file: &File<'_>, k: usize) -> usize
    requires { present file.now.volume.p (view file.now.volume.img.now) file.now.f k ≡ true }
    ensures { let v = view file.now.volume.img.now in result ≡ link file.now.volume.p v file.now.f (above file.now.volume.p v file.now.f k) }
{
    link_to(file, inspect::next_key(file.len(), k))
}

// The previous link that key k of a file should have.
pub fn prev_of(file: &File<'_>, k: usize) -> usize
    requires { present file.now.volume.p (view file.now.volume.img.now) file.now.f k ≡ true }
    ensures { let v = view file.now.volume.img.now in result ≡ link file.now.volume.p v file.now.f (below file.now.volume.p v file.now.f k) }
{
    link_to(file, inspect::prev_key(file.len(), k))
}

// Whether block b has the links `next` and `previous`.
fn link_good(img: &[u8], b: usize, next: usize, previous: usize) -> bool
    requires { 528 * b + 528 ≤ length img.now }
    ensures { result ≡ both (eqb (pair (view img.now) b next_at) next) (eqb (pair (view img.now) b previous_at) previous) }
{
    if image::pair(img, b, NEXT) == next {
        image::pair(img, b, PREVIOUS) == previous
    } else {
        false
    }
}

// Whether x, the next link of block b, leads to block c, and the previous link is `before`.
fn leads(volume: &Volume<'_>, b: usize, x: usize, c: usize, before: usize) -> bool
    requires { (b ≤ volume.now.p.e) × (x ≡ pair (view volume.now.img.now) b next_at) × (x < 4294967296) × (c < 4294967296) }
    ensures { result ≡ both (eqb (pair (view volume.now.img.now) b next_at) (pda volume.now.p.drive c)) (eqb (pair (view volume.now.img.now) b previous_at) before) }
{
    if drive::is_pda(volume.p.drive, x, c) {
        image::pair(volume.img, b, PREVIOUS) == before
    } else {
        false
    }
}

// Whether each entry of pointer block k, which is block q, is asked for by n blocks, or nil.
fn tail_good(img: &[u8], n: usize, k: usize, q: usize) -> bool
    requires { (528 * q + 528 ≤ length img.now) × (n ≤ 32767) × (k < 291) }
    ensures { result ≡ all 128 (λ i. ltb (first (child k (slot_at i))) n || eqb (pair (view img.now) q (slot_at i)) 0) }
{
    (inspect::entries_of(n, k)..128).all(|i| image::pair(img, q, SLOTS + 2 * i) == 0)
}

// Whether the blocks of a file are linked in order, from key to key. At key k the walk has its block b, the address of b, and that of the
// block before: a link that leads to a block is the block's address. Block q is the one that names k, where k is a data block's: it is
// looked up once and not for each of its entries.
fn linked_on(file: &File<'_>) -> bool
    ensures { result ≡ linked file.now.volume.p (view file.now.volume.img.now) file.now.f }
{
    let volume = &file.volume;
    let n = file.len();
    let mut k = inspect::low(n);
    let mut before: usize = 0;
    let mut b = file.spot(k);
    let mut own = drive::pda(volume.p.drive, b);
    let mut q = file.f;
    loop {
        if k < inspect::HOME {
            if !tail_good(volume.img, n, k, b) {
                return false;
            }
        }
        let j = inspect::next_key(n, k);
        if j == 0 {
            return link_good(volume.img, b, 0, before);
        }
        let mut c = file.f;
        if inspect::stays(j) {
            c = inspect::read(volume.img, q, j);
        } else {
            q = volume.holder_of(file.f, j);
            c = file.spot(j);
        }
        let x = image::pair(volume.img, b, NEXT);
        if !leads(volume, b, x, c, before) {
            return false;
        }
        before = own;
        own = x;
        b = c;
        k = j;
    }
}

// Whether the blocks of a file are linked in order. Without data the FIB is all there is, and no address is worked out.
pub fn linked(file: &File<'_>) -> bool
    ensures { result ≡ linked file.now.volume.p (view file.now.volume.img.now) file.now.f }
{
    if file.len() < 1 {
        link_good(file.volume.img, file.f, 0, 0)
    } else {
        linked_on(file)
    }
}
