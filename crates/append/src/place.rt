// Where the blocks of a file stand after a write, key by key, and how they are linked.
ghost use Rattle.std.specs.Prelude.{◌≡◌, true, List, ◌∷◌, [], ℕ, ◌≤◌, ◌<◌};
ghost use Rattle.image.specs.View.{View, Rec};
ghost use Rattle.image.specs.Image.{view, rec_of};
ghost use Rattle.volume.specs.declared.Partition.{Partition};
ghost use Rattle.volume.specs.Keys.{reach};
ghost use Rattle.volume.specs.Files.{spot, present};
ghost use Rattle.volume.specs.Writes.{needs, is_new, fresh, present', spot', link', empty, body, store};
ghost use Rattle.growth.specs.Ready.{Behind};
ghost use Rattle.records.specs.Records.{Block, StandsFor};
ghost use Rattle.append.specs.Appends.{Appends};

use crate::{Append, Planned};
use image::Save;
use inspect::{FIRST, File, Volume};
use volume::words::{FILLER, NEXT, PREVIOUS, RELATIVE, SERIAL};

// How many blocks a write of block n takes, n behind the last: data, the pointer block over it, -2 or -3.
pub fn needs(n: usize) -> usize
    requires { n < reach }
    ensures { (1 ≤ result) × (result ≤ 3) × ((π : Partition) (v : View) (f : ℕ) → Behind π v f n → result ≡ needs π v f n) }
{
    if inspect::low(n) <= inspect::low(n + 1) {
        return 1;
    }
    if inspect::keys::nearest(n) <= inspect::keys::nearest(n + 1) {
        2
    } else {
        3
    }
}

// Whether key k is new, which the numbers of a write tell without the image.
pub fn is_new(w: Append, k: usize) -> bool
    requires { w.n < reach }
    ensures { (l : List ℕ) → Appends w l → result ≡ is_new w.p (view l) w.f w.n k }
{
    let data = FIRST + w.n;
    let pointer = inspect::up(data);
    let double = inspect::up(pointer);
    (k == data) | ((1 < w.m) & (k == pointer)) | ((2 < w.m) & (k == double))
}

impl Planned<'_> {
    // Whether key k is new.
    pub fn is_new(&self, k: usize) -> bool
        ensures { result ≡ is_new self.now.w.p (view self.now.img.now) self.now.w.f self.now.w.n k }
    {
        is_new(self.w, k)
    }

    // The block that a new key k gets.
    #[tactic(auto, using(crate::proofs::Laws::fresh_data, crate::proofs::Laws::fresh_pointer, crate::proofs::Laws::fresh_double))]
    fn fresh(&self, k: usize) -> usize
        requires { is_new self.now.w.p (view self.now.img.now) self.now.w.f self.now.w.n k ≡ true }
        ensures { result ≡ fresh self.now.w.p (view self.now.img.now) self.now.w.f self.now.w.n k }
    {
        let data = FIRST + self.w.n;
        if k == data {
            return self.w.a;
        }
        if k == inspect::up(data) {
            self.w.q
        } else {
            self.w.d
        }
    }

    // Key k as a new block.
    #[tactic(auto, using(crate::proofs::Laws::fresh_block))]
    pub fn stamp(&self, k: usize) -> [u8; 528]
        requires { is_new self.now.w.p (view self.now.img.now) self.now.w.f self.now.w.n k ≡ true }
        ensures { (dat : Rec) → rec_of result ≡ empty self.now.w.p (view self.now.img.now) self.now.w.f self.now.w.n dat k }
    {
        let filler = image::word(self.img, self.fresh(k), FILLER);
        let x = image::with_word(image::blank(), FILLER, filler);
        let x = image::with_signed(x, RELATIVE, inspect::number_of(k));
        image::with_pair(x, SERIAL, drive::pda(self.w.p.drive, self.w.f))
    }

    // The block of key k, which the file has already.
    pub fn spot(&self, k: usize) -> usize
        requires { present self.now.w.p (view self.now.img.now) self.now.w.f k ≡ true }
        ensures { (result ≡ spot self.now.w.p (view self.now.img.now) self.now.w.f k) × (result ≤ self.now.w.p.e) }
    {
        let volume = Volume {
            img: self.img,
            p: self.w.p,
        };
        let file = File {
            volume,
            f: self.w.f,
        };
        file.spot(k)
    }

    // The block of key k afterwards.
    #[tactic(auto, using(crate::proofs::Laws::still_there, crate::proofs::Laws::at_old))]
    pub fn block_of(&self, k: usize) -> usize
        requires { present' self.now.w.p (view self.now.img.now) self.now.w.f self.now.w.n k ≡ true }
        ensures { (result ≡ spot' self.now.w.p (view self.now.img.now) self.now.w.f self.now.w.n k) × (Block self.now.img.now result) }
    {
        if self.is_new(k) {
            return self.fresh(k);
        }
        self.spot(k)
    }

    // The link to key k afterwards, nil for 0.
    #[tactic(auto, using(crate::proofs::Laws::link_none, crate::proofs::Laws::link_some))]
    fn link_to(&self, k: usize) -> usize
        requires { (0 < k) → (present' self.now.w.p (view self.now.img.now) self.now.w.f self.now.w.n k ≡ true) }
        ensures { (result ≡ link' self.now.w.p (view self.now.img.now) self.now.w.f self.now.w.n k) × (result < 4294967296) }
    {
        if k < 1 {
            return 0;
        }
        drive::pda(self.w.p.drive, self.block_of(k))
    }

    // The store of key k, which has the record x but for its links.
    #[tactic(auto, using(crate::proofs::Laws::key_small, crate::proofs::Laws::next_there, crate::proofs::Laws::prev_there))]
    pub fn key_save(&self, k: usize, x: [u8; 528]) -> Save
        requires { present' self.now.w.p (view self.now.img.now) self.now.w.f self.now.w.n k ≡ true }
        ensures { let w = self.now.w in let v = view self.now.img.now in (dat : Rec) → rec_of x ≡ body w.p v w.f w.n dat k → StandsFor self.now.img.now (store w.p v w.f w.n dat k ∷ []) (Some result) }
    {
        let below = inspect::prev_key(self.w.n + 1, k);
        let above = inspect::next_key(self.w.n + 1, k);
        let back = self.link_to(below);
        let on = self.link_to(above);
        let b = self.block_of(k);
        image::saved(
            b,
            image::with_pair(image::with_pair(x, PREVIOUS, back), NEXT, on),
        )
    }
}
