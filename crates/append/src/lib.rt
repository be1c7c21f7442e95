// The records and the stores of a write of the block behind the last.
#![tactic(auto)]

ghost use Rattle.std.specs.Prelude.{◌≡◌, true, map, ◌∷◌, [], ◌+◌, ◌<◌};
ghost use Rattle.base.specs.Tests.{pick};
ghost use Rattle.drive.specs.Address.{lda};
ghost use Rattle.image.specs.View.{Rec};
ghost use Rattle.image.specs.Image.{view, rec_of};
ghost use Rattle.image.specs.Saves.{words, Made};
ghost use Rattle.volume.specs.Keys.{home, slot};
ghost use Rattle.volume.specs.Plans.{stores};
ghost use Rattle.volume.specs.Writes.{put2_if, over, inner, present', base, entered, store, write_plan};
ghost use Rattle.records.specs.Records.{StandsFor};
ghost use Rattle.append.specs.Appends.{Appends};

use image::Save;
use inspect::keys::POINTER;
use inspect::{FIRST, HOME};
use volume::Partition;
use volume::words::{IN_USE, LAST_ADDRESS, LAST_BLOCK, LOW_ADDRESS, LOW_NUMBER};

pub mod place; // place.rt: blocks and links by key

// A write of the block behind the last, in the partition p: the file f of n blocks; m how many blocks are taken, a the new data block, q
// the new pointer block over it and d the new -2 or -3, where these are new; g the first free block afterwards.
#[derive(Clone, Copy)]
pub struct Append {
    pub p: Partition,
    pub f: usize,
    pub n: usize,
    pub m: usize,
    pub a: usize,
    pub q: usize,
    pub d: usize,
    pub g: usize,
}

// A write that is planned on the image as it is.
#[derive(Clone, Copy)]
pub struct Planned<'a> {
    pub img: &'a [u8],
    pub w: Append,
    ghost appends: { Appends w img.now },
}

// A record with the address of block b as the entry of key k, where `on`, which is `put2_if`'s test: an option in its place would hold a block
// that is only there where the test is.
fn entry_if(r: [u8; 528], on: bool, drive: usize, k: usize, b: usize) -> [u8; 528]
    requires { (k < 37220) × ((on ≡ true) → (b < 69552)) }
    ensures { rec_of result ≡ put2_if on (slot k) (lda drive b) (rec_of r) }
{
    if on {
        return image::with_pair(r, inspect::slot(k), drive::lda(drive, b));
    }
    r
}

impl Planned<'_> {
    // What the record of key k, not the data's, is made from: a new block, or the one that is there.
    #[tactic(auto, using(crate::proofs::Laws::still_there, crate::proofs::Laws::base_stamped, crate::proofs::Laws::base_there))]
    fn base(&self, k: usize) -> [u8; 528]
        requires { (present' self.now.w.p (view self.now.img.now) self.now.w.f self.now.w.n k ≡ true) × (k < 292 + self.now.w.n) }
        ensures { (dat : Rec) → rec_of result ≡ base self.now.w.p (view self.now.img.now) self.now.w.f self.now.w.n dat k }
    {
        if self.is_new(k) {
            return self.stamp(k);
        }
        image::record(self.img, self.spot(k))
    }

    // The record of key k, not the data's, with the entries of the new keys that it names.
    #[tactic(auto, using(crate::proofs::Laws::entered_is))]
    fn entered(&self, k: usize) -> [u8; 528]
        requires { (present' self.now.w.p (view self.now.img.now) self.now.w.f self.now.w.n k ≡ true) × (k < 292 + self.now.w.n) }
        ensures { let w = self.now.w in let v = view self.now.img.now in (dat : Rec) → rec_of result ≡ entered w.p v w.f w.n dat k (base w.p v w.f w.n dat k) }
    {
        let drive = self.w.p.drive;
        let data = FIRST + self.w.n;
        let pointer = inspect::up(data);
        let double = inspect::up(pointer);
        let x = self.base(k);
        let x = entry_if(x, (2 < self.w.m) & (HOME == k), drive, double, self.w.d);
        let x = entry_if(x, (1 < self.w.m) & (double == k), drive, pointer, self.w.q);
        entry_if(x, pointer == k, drive, data, self.w.a)
    }

    // The new data block.
    #[tactic(auto, using(crate::proofs::Laws::behind, crate::proofs::Laws::data_new, crate::proofs::Numbers::data_there))]
    fn data_save(&self, block: &[u8; 512]) -> Save
        ensures { let w = self.now.w in StandsFor self.now.img.now (store w.p (view self.now.img.now) w.f w.n (words block.now) (over w.n 0) ∷ []) (Some result) }
    {
        let k = FIRST + self.w.n;
        let x = image::with_data(self.stamp(k), block);
        self.key_save(k, x)
    }

    // The block of key k, not the data's, where `on`, unless that is the FIB.
    fn inner_save(&self, on: bool, k: usize) -> Option<Save>
        requires { (on ≡ true) → ((present' self.now.w.p (view self.now.img.now) self.now.w.f self.now.w.n k ≡ true) × (k < 292 + self.now.w.n)) }
        ensures { let w = self.now.w in (dat : Rec) → StandsFor self.now.img.now (map (store w.p (view self.now.img.now) w.f w.n dat) (inner (pick on (k ∷ []) []))) result }
    {
        if on & (k != HOME) {
            return Some(self.key_save(k, self.entered(k)));
        }
        None
    }

    // The FIB, with the entries that it gains, L, and the counts.
    fn fib_save(&self) -> Save
        ensures { let w = self.now.w in (dat : Rec) → StandsFor self.now.img.now (store w.p (view self.now.img.now) w.f w.n dat home ∷ []) (Some result) }
    {
        let Append { p, f, n, a, .. } = self.w;
        let low = inspect::low(n + 1);
        let top = self.block_of(low);
        let last_at = drive::address(p.drive, image::pair(self.img, f, LAST_ADDRESS), a);
        let low_at = drive::address(p.drive, image::pair(self.img, f, LOW_ADDRESS), top);
        let x = self.entered(HOME);
        let x = image::with_pair(x, LAST_ADDRESS, last_at);
        let x = image::with_signed(x, LAST_BLOCK, inspect::number_of(FIRST + n));
        let x = image::with_pair(x, LOW_ADDRESS, low_at);
        let x = image::with_signed(x, LOW_NUMBER, inspect::number_of(low));
        let x = image::with_word(x, IN_USE, inspect::size_of(n + 1));
        self.key_save(HOME, x)
    }
}

// The stores of the write: data; the pointer block over it; -2 or -3 where it is new or gains an entry, and its neighbours where it is
// new; old last block; old first block where a pointer block is new; FIB; new first free block; PIB.
#[tactic(auto, using(crate::proofs::Laws::keys_there))]
pub fn append_store(img: &mut [u8], w: Append, block: &[u8; 512], limit: usize) -> usize
    requires { Appends w img.old }
    ensures { Made limit (stores (write_plan w.p (view img.old) w.f w.n (words block.now))) img.old img.new result }
{
    let plan = Planned { img, w };
    let ptr = inspect::up(FIRST + w.n);
    let dbl = inspect::up(ptr);
    let two = 1 < w.m;
    let three = 2 < w.m;
    let data = Some(plan.data_save(block));
    let pointer = plan.inner_save(true, ptr);
    let double = plan.inner_save(two, dbl);
    let below = plan.inner_save(three, POINTER);
    let above = plan.inner_save(three, dbl + 1);
    let last = plan.inner_save(true, HOME + w.n);
    let top = plan.inner_save(two, inspect::low(w.n));
    let fib = Some(plan.fib_save());
    let first = Some(records::first_save(img, w.g));
    let pib = Some(records::pib_less_save(img, w.p.drive, w.p.s, w.g, w.m));
    let row = [
        data, pointer, double, below, above, last, top, fib, first, pib,
    ];
    image::perform(img, limit, &row)
}
