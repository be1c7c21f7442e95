// Repair: every file is linked again, the unowned blocks are chained in ascending order, and the PIB follows. It stores as it goes, so
// each record is made of the partly repaired image, and its stores are those of the image as it was all the same.
#![tactic(auto)]

ghost use Rattle.std.specs.Prelude.{◌≡◌, true, suc, ◌+◌, ◌-◌, ◌*◌, ◌≤◌, ◌<◌, length, [], ◌∷◌};
ghost use Rattle.base.specs.Tests.{those, head_of};
ghost use Rattle.drive.specs.Address.{or_nil};
ghost use Rattle.image.specs.View.{put, put2};
ghost use Rattle.image.specs.Image.{view};
ghost use Rattle.image.specs.Saves.{Applied};
ghost use Rattle.volume.specs.Words.{serial_at, filler_at, next_at, previous_at};
ghost use Rattle.volume.specs.Files.{owned, unowned};
ghost use Rattle.volume.specs.Plans.{st, as_filler, relinked};
ghost use Rattle.volume.specs.Calls.{repair_in, planned, Call, Answered};
ghost use Rattle.blocks.specs.Ready.{Ready};
ghost use Rattle.repair.specs.Mending.{is_free, Turn, Turned, Mending};

use base::Refusal;
use inspect::Volume;
use links::Clean;
use volume::{Answer, Partition};

// How far repair has come: the stores that the limit leaves, the last unowned block passed and the first one ahead, each 0 if there is
// none, since that is what the chain's ends store for their neighbours, and how many unowned blocks were passed.
#[derive(Clone, Copy)]
struct Progress {
    pub left: usize,
    pub last: usize,
    pub next: usize,
    pub count: usize,
}

// The first unowned block from `from` on, or 0.
fn unowned_from(clean: &Clean<'_>, from: usize) -> usize
    ensures { result ≡ head_of 0 (those from (suc clean.now.volume.p.e - from) (is_free clean.now.volume.p (view clean.now.volume.img.now))) }
{
    (from..clean.volume.p.e + 1)
        .find(|&b| !links::owned(clean, b))
        .unwrap_or(0)
}

// What stores takes the image and the partition apart: its first store would end what a `Clean` says of the image. Where the limit leaves no
// store, no record is made.

// Stores what an unowned block b of the chain from `first` on becomes, the next unowned one being `above`. Answers the stores that are left.
fn free(img: &mut [u8], p: Partition, first: usize, b: usize, above: usize, t: Progress) -> usize
    requires { (528 * b + 528 ≤ length img.old) × (above < 69552) × (t.last < 69552) }
    ensures { Applied t.left (st b (put2 serial_at 0 (put filler_at (as_filler first) (put2 next_at (or_nil p.drive above) (put2 previous_at (or_nil p.drive t.last) (view img.old b))))) ∷ []) img.old img.new result }
{
    if t.left < 1 {
        return t.left;
    }
    let x = blocks::freed(img, p.drive, b, first, above, t.last);
    image::step(img, t.left, Some(image::saved(b, x)))
}

// Stores what an owned block b becomes, its file's links. Answers the stores that are left.
fn relink(img: &mut [u8], p: Partition, b: usize, left: usize) -> usize
    requires { (Ready p img.old) × (b ≤ p.e) × (owned p (view img.old) b ≡ true) }
    ensures { Applied left (st b (relinked p (view img.old) b) ∷ []) img.old img.new result }
{
    if left < 1 {
        return left;
    }
    let clean = Clean {
        volume: Volume { img, p },
    };
    let x = blocks::relinked(&clean, b);
    image::step(img, left, Some(image::saved(b, x)))
}

// Repairs block b: an unowned one gets its neighbours in the chain from `first` on, an owned one its file's links.
fn turn(img: &mut [u8], p: Partition, first: usize, b: usize, t: Progress) -> Progress
    requires { Turn p img.old first b t }
    ensures { Turned p img.old img.new b t result }
{
    if b == t.next {
        let clean = Clean {
            volume: Volume { img, p },
        };
        let above = unowned_from(&clean, b + 1);
        return Progress {
            left: free(img, p, first, b, above, t),
            last: b,
            next: above,
            count: t.count + 1,
        };
    }
    Progress {
        left: relink(img, p, b, t.left),
        ..t
    }
}

// Repairs the blocks s+1 to e in order, under the limit.
fn mend(img: &mut [u8], p: Partition, first: usize, limit: usize) -> Progress
    requires { (Ready p img.old) × (first ≡ head_of 0 (unowned p (view img.old))) }
    ensures { Mending p img.old limit img.new (suc p.e) result }
{
    let mut t = Progress {
        left: limit,
        last: 0,
        next: first,
        count: 0,
    };
    let end = p.e + 1;
    for b in p.s + 1..end {
        t = turn(img, p, first, b, t);
    }
    t
}

// Repair of a partition with no malformed candidate: refused where no block is unowned.
fn repair_in(img: &mut [u8], p: Partition, limit: usize) -> Answer
    requires { Ready p img.old }
    ensures { Answered limit (repair_in p (view img.old)) img.old img.new result }
{
    let clean = Clean {
        volume: Volume { img, p },
    };
    let first = unowned_from(&clean, p.s + 1);
    if first < 1 {
        return Answer::refused(Refusal::NothingFree);
    }
    let t = mend(img, p, first, limit);
    let left = t.left;
    let x = blocks::pib(img, p.drive, p.s, first, t.last, t.count);
    let left = image::step(img, left, Some(image::saved(p.s, x)));
    Answer {
        made: limit.saturating_sub(left),
        outcome: Ok(Some((0, 0, 0))),
    }
}

// Repair, a public call.
pub fn repair(img: &mut [u8], drive: usize, s: usize, limit: usize) -> Answer
    ensures { Answered limit (planned drive img.old s Call.repair) img.old img.new result }
{
    let e = match inspect::partition(img, drive, s) {
        Ok(e) => e,
        Err(why) => return Answer::refused(why),
    };
    let p = Partition { drive, s, e };
    let volume = Volume { img, p };
    match volume.lowest_malformed() {
        Some(f) => Answer::refused(Refusal::Malformed(f)),
        None => repair_in(img, p, limit),
    }
}
