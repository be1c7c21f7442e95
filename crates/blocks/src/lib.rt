// The record that repair stores in each block, made of the image as it is: an unowned block's, an owned block's and the PIB's.
#![tactic(auto)]

ghost use Rattle.std.specs.Prelude.{◌≡◌, true, ◌+◌, ◌*◌, ◌≤◌, ◌<◌, length};
ghost use Rattle.drive.specs.Address.{or_nil};
ghost use Rattle.image.specs.View.{put, put2};
ghost use Rattle.image.specs.Image.{view, rec_of};
ghost use Rattle.volume.specs.Words.{serial_at, filler_at, next_at, previous_at};
ghost use Rattle.volume.specs.Files.{owned};
ghost use Rattle.volume.specs.Plans.{as_filler, trimmed, shaped, relinked};
ghost use Rattle.blocks.specs.Records.{cleared, pib_record};

use inspect::{File, HOME};
use links::Clean;
use volume::words::{FILLER, FREE_HEAD, FREE_TAIL, NEXT, NUMBER_FREE, PREVIOUS, SERIAL, SLOTS};

// The record of an unowned block of the chain that begins at `first`: no serial, the filler of the first, and its neighbours.
pub fn freed(
    img: &[u8],
    drive: usize,
    b: usize,
    first: usize,
    above: usize,
    below: usize,
) -> [u8; 528]
    requires { (528 * b + 528 ≤ length img.now) × (above < 69552) × (below < 69552) }
    ensures { rec_of result ≡ put2 serial_at 0 (put filler_at (as_filler first) (put2 next_at (or_nil drive above) (put2 previous_at (or_nil drive below) (view img.now b)))) }
{
    let x = image::record(img, b);
    let x = image::with_pair(x, PREVIOUS, drive::or_nil(drive, below));
    let x = image::with_pair(x, NEXT, drive::or_nil(drive, above));
    let x = image::with_word(x, FILLER, first % 65536);
    image::with_pair(x, SERIAL, 0)
}

// The PIB's record for n free blocks from `first` to `last`.
pub fn pib(img: &[u8], drive: usize, s: usize, first: usize, last: usize, n: usize) -> [u8; 528]
    requires { (528 * s + 528 ≤ length img.now) × (first < 69552) × (last < 69552) × (n < 69552) }
    ensures { rec_of result ≡ pib_record drive (view img.now) s first last n }
{
    let head = drive::address(drive, image::pair(img, s, FREE_HEAD), first);
    let tail = drive::address(drive, image::pair(img, s, FREE_TAIL), last);
    let x = image::record(img, s);
    let x = image::with_pair(x, NUMBER_FREE, n);
    let x = image::with_pair(x, FREE_TAIL, tail);
    image::with_pair(x, FREE_HEAD, head)
}

// A record whose words from w on are nil.
fn cleared(r: [u8; 528], w: usize) -> [u8; 528]
    requires { w ≤ 264 }
    ensures { rec_of result ≡ cleared w (rec_of r) }
{
    let mut x = r;
    x[2 * w..].fill(0);
    x
}

// Pointer block k of a file with n blocks, the entries that L does not ask for nil.
fn trimmed(r: [u8; 528], n: usize, k: usize) -> [u8; 528]
    requires { (n ≤ 32767) × (k < 291) }
    ensures { rec_of result ≡ trimmed n k (rec_of r) }
{
    cleared(r, SLOTS + 2 * inspect::entries_of(n, k))
}

// Block b as key k of its file, which has n blocks: a pointer block has its unused entries nil.
fn content(img: &[u8], b: usize, n: usize, k: usize) -> [u8; 528]
    requires { (528 * b + 528 ≤ length img.now) × (n ≤ 32767) }
    ensures { rec_of result ≡ shaped n k (view img.now b) }
{
    let x = image::record(img, b);
    if k < HOME {
        return trimmed(x, n, k);
    }
    x
}

// The record of an owned block, with the links of its key in its file.
pub fn relinked(clean: &Clean<'_>, b: usize) -> [u8; 528]
    requires { (b ≤ clean.now.volume.p.e) × (owned clean.now.volume.p (view clean.now.volume.img.now) b ≡ true) }
    ensures { rec_of result ≡ relinked clean.now.volume.p (view clean.now.volume.img.now) b }
{
    let volume = clean.volume;
    let f = drive::pda_block(volume.p.drive, image::pair(volume.img, b, SERIAL));
    let file = File { volume, f };
    let k = links::key_in(volume.img, b);
    let next = links::next_of(&file, k);
    let previous = links::prev_of(&file, k);
    let x = content(volume.img, b, file.len(), k);
    let x = image::with_pair(x, PREVIOUS, previous);
    image::with_pair(x, NEXT, next)
}
