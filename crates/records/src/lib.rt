// The records that the changing calls store, each built from the unchanged image, and the stores of each call. Blocks and counts are
// plain numbers here: which ones a call takes is decided by its caller.
#![tactic(auto)]

ghost use Rattle.std.specs.Prelude.{◌∷◌, [], Some, ◌<◌};
ghost use Rattle.image.specs.Image.{view};
ghost use Rattle.image.specs.Saves.{words, Made};
ghost use Rattle.volume.specs.Plans.{st, stores, new_first, pib_less, fresh_fib};
ghost use Rattle.records.specs.Records.{Block, StandsFor, created, replaced, described};

use image::Save;
use volume::words::{
    FIB, FILLER, FREE_HEAD, IN_USE, KIND, LAST_ADDRESS, LAST_BLOCK, LOW_ADDRESS, LOW_NUMBER,
    NUMBER_FREE, PREVIOUS, RELATIVE, SERIAL,
};

// ---- describe and replace

// The store of describe: the FIB f with another description.
pub fn describe_store(img: &mut [u8], f: usize, text: &[u8; 104], limit: usize) -> usize
    requires { Block img.old f }
    ensures { Made limit (stores (described (view img.old) f (words text.now))) img.old img.new result }
{
    let fib = image::saved(f, image::with_text(image::record(img, f), text));
    image::perform(img, limit, &[Some(fib)])
}

// The store of replace: block b with other data.
pub fn replace_store(img: &mut [u8], b: usize, block: &[u8; 512], limit: usize) -> usize
    requires { Block img.old b }
    ensures { Made limit (stores (replaced (view img.old) b (words block.now))) img.old img.new result }
{
    let data = image::saved(b, image::with_data(image::record(img, b), block));
    image::perform(img, limit, &[Some(data)])
}

// ---- allocation

// Block g as the first free block.
pub fn first_save(img: &[u8], g: usize) -> Save
    requires { Block img.now g }
    ensures { StandsFor img.now (st g (new_first (view img.now) g) ∷ []) (Some result) }
{
    let x = image::with_word(image::record(img, g), FILLER, g % 65536);
    image::saved(g, image::with_pair(x, PREVIOUS, 0))
}

// The PIB s with n free blocks fewer, from g on.
pub fn pib_less_save(img: &[u8], drive: usize, s: usize, g: usize, n: usize) -> Save
    requires { (Block img.now s) × (Block img.now g) }
    ensures { StandsFor img.now (st s (pib_less drive (view img.now) s g n) ∷ []) (Some result) }
{
    let m = image::pair(img, s, NUMBER_FREE).saturating_sub(n);
    let x = image::with_pair(image::record(img, s), NUMBER_FREE, m);
    let head = drive::address(drive, image::pair(img, s, FREE_HEAD), g);
    image::saved(s, image::with_pair(x, FREE_HEAD, head))
}

// ---- create

// Block h as the FIB of an empty file.
fn fresh_save(img: &[u8], drive: usize, h: usize, kind: usize) -> Save
    requires { (Block img.now h) × (kind < 65536) }
    ensures { StandsFor img.now (st h (fresh_fib drive (view img.now) h kind) ∷ []) (Some result) }
{
    let own = drive::lda(drive, h);
    let x = image::with_pair(image::blank(), LOW_ADDRESS, own);
    let x = image::with_signed(x, LOW_NUMBER, FIB);
    let x = image::with_pair(x, LAST_ADDRESS, own);
    let x = image::with_signed(x, LAST_BLOCK, FIB);
    let x = image::with_word(x, IN_USE, 1);
    let x = image::with_word(x, KIND, kind);
    let x = image::with_word(x, FILLER, image::word(img, h, FILLER));
    let x = image::with_signed(x, RELATIVE, FIB);
    image::saved(h, image::with_pair(x, SERIAL, drive::pda(drive, h)))
}

// The stores of create: the FIB h, the new first free block g, the PIB s.
pub fn create_store(
    img: &mut [u8],
    drive: usize,
    s: usize,
    h: usize,
    g: usize,
    kind: usize,
    limit: usize,
) -> usize
    requires { (Block img.old s) × (Block img.old h) × (Block img.old g) × (kind < 65536) }
    ensures { Made limit (stores (created drive (view img.old) s h g kind)) img.old img.new result }
{
    let fib = fresh_save(img, drive, h, kind);
    let first = first_save(img, g);
    let pib = pib_less_save(img, drive, s, g, 1);
    image::perform(img, limit, &[Some(fib), Some(first), Some(pib)])
}
