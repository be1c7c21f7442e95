// The records and the stores of destroy.
#![tactic(auto)]

ghost use Rattle.std.specs.Prelude.{◌≡◌, ◌∷◌, [], Some, ◌<◌};
ghost use Rattle.drive.specs.Address.{pda};
ghost use Rattle.image.specs.View.{pair, put2};
ghost use Rattle.image.specs.Image.{view, rec_of};
ghost use Rattle.image.specs.Saves.{Made};
ghost use Rattle.volume.specs.Plans.{st, stores, gone, top_gone, fib_gone, top_gone_stores, last_gone_stores, pib_more, destroyed};
ghost use Rattle.volume.specs.Words.{next_at, number_free_at};
ghost use Rattle.records.specs.Records.{Block, StandsFor, Destroys};

use image::Save;
use volume::words::{FILLER, FREE_TAIL, NEXT, NUMBER_FREE, PREVIOUS, SERIAL};

// What destroy releases: the file f with n blocks in use, the first in link order `top` and the last `last`; h is FreeHead's block and
// `tail` FreeTail's. `alone`: the first is the FIB; `empty`: the last is. They are told by the caller's keys, and `destroyed` takes them as tests.
#[derive(Clone, Copy)]
pub struct Release {
    pub f: usize,
    pub alone: bool,
    pub empty: bool,
    pub n: usize,
    pub top: usize,
    pub last: usize,
    pub tail: usize,
    pub h: usize,
}

// Block b as the last of a file that is gone: serial zero, FreeHead's LBN as filler.
fn gone(img: &[u8], h: usize, b: usize) -> [u8; 528]
    requires { Block img.now b }
    ensures { rec_of result ≡ gone (view img.now) h b }
{
    let x = image::with_word(image::record(img, b), FILLER, h % 65536);
    image::with_pair(x, SERIAL, 0)
}

// Block b as the first of a file that is gone: it follows the old free tail.
fn top_gone(img: &[u8], drive: usize, h: usize, tail: usize, b: usize) -> [u8; 528]
    requires { (Block img.now b) × (Block img.now tail) }
    ensures { rec_of result ≡ top_gone drive (view img.now) h tail b }
{
    image::with_pair(gone(img, h, b), PREVIOUS, drive::pda(drive, tail))
}

// The FIB, which is the first block where `alone`.
fn fib_save(img: &[u8], drive: usize, h: usize, tail: usize, f: usize, alone: bool) -> Save
    requires { (Block img.now f) × (Block img.now tail) }
    ensures { StandsFor img.now (st f (fib_gone drive (view img.now) h tail f alone) ∷ []) (Some result) }
{
    if alone {
        return image::saved(f, top_gone(img, drive, h, tail, f));
    }
    image::saved(f, image::with_pair(image::record(img, f), SERIAL, 0))
}

// The first block, if it is not the FIB.
fn top_save(
    img: &[u8],
    drive: usize,
    h: usize,
    tail: usize,
    top: usize,
    alone: bool,
) -> Option<Save>
    requires { (Block img.now top) × (Block img.now tail) }
    ensures { StandsFor img.now (top_gone_stores drive (view img.now) h tail top alone) result }
{
    if alone {
        return None;
    }
    Some(image::saved(top, top_gone(img, drive, h, tail, top)))
}

// The last block, if it is not the FIB.
fn last_save(img: &[u8], h: usize, last: usize, empty: bool) -> Option<Save>
    requires { Block img.now last }
    ensures { StandsFor img.now (last_gone_stores (view img.now) h last empty) result }
{
    if empty {
        return None;
    }
    Some(image::saved(last, gone(img, h, last)))
}

// The old free tail, which the file's first block follows.
fn tail_save(img: &[u8], drive: usize, tail: usize, top: usize) -> Save
    requires { (Block img.now tail) × (Block img.now top) }
    ensures { StandsFor img.now (st tail (put2 next_at (pda drive top) (view img.now tail)) ∷ []) (Some result) }
{
    image::saved(
        tail,
        image::with_pair(image::record(img, tail), NEXT, drive::pda(drive, top)),
    )
}

// The PIB s with n free blocks more, the last of them `last`.
fn pib_more_save(img: &[u8], drive: usize, s: usize, last: usize, n: usize) -> Save
    requires { (Block img.now s) × (Block img.now last) × (n < 65536) × (pair (view img.now) s number_free_at < 69552) }
    ensures { StandsFor img.now (st s (pib_more drive (view img.now) s last n) ∷ []) (Some result) }
{
    let m = image::pair(img, s, NUMBER_FREE) + n;
    let x = image::with_pair(image::record(img, s), NUMBER_FREE, m);
    let tail = drive::address(drive, image::pair(img, s, FREE_TAIL), last);
    image::saved(s, image::with_pair(x, FREE_TAIL, tail))
}

// The stores of destroy: FIB, first block, last block, old free tail, PIB.
pub fn destroy_store(img: &mut [u8], drive: usize, s: usize, w: Release, limit: usize) -> usize
    requires { Destroys img.old s w.f w.n w.top w.last w.tail }
    ensures { Made limit (stores (destroyed drive (view img.old) s w.f w.alone w.empty w.n w.top w.last w.tail w.h)) img.old img.new result }
{
    let fib = fib_save(img, drive, w.h, w.tail, w.f, w.alone);
    let low = top_save(img, drive, w.h, w.tail, w.top, w.alone);
    let end = last_save(img, w.h, w.last, w.empty);
    let joint = tail_save(img, drive, w.tail, w.top);
    let pib = pib_more_save(img, drive, s, w.last, w.n);
    image::perform(img, limit, &[Some(fib), low, end, Some(joint), Some(pib)])
}
