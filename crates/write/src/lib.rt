// The changing call write: a block that is there is replaced, and the block behind the last is appended.
#![tactic(auto)]

ghost use Rattle.std.specs.Prelude.{◌≡◌, true, ◌≤◌, ◌<◌};
ghost use Rattle.image.specs.Image.{view};
ghost use Rattle.image.specs.Saves.{words};
ghost use Rattle.volume.specs.Keys.{reach};
ghost use Rattle.volume.specs.Files.{candidate, len};
ghost use Rattle.volume.specs.Plans.{free_at};
ghost use Rattle.volume.specs.Calls.{lent_block, append_in, write_in, Answered, planned, write};
ghost use Rattle.records.specs.Records.{Block};
ghost use Rattle.change.specs.Gate.{Opens};

use append::Append;
use base::Refusal;
use change::Sound;
use inspect::{File, REACH, Volume};
use volume::{Answer, Lent, Partition, Unfit};

// What writes takes the image and the partition apart, as in `change`.

// The first free block once m are taken, one to three, of which q is the second and d the third.
fn left(img: &[u8], p: Partition, m: usize, q: usize, d: usize) -> usize
    requires { (1 ≤ m) × (m ≤ 3) × (q ≡ free_at p (view img.now) 1) × (d ≡ free_at p (view img.now) 2) × ((2 < m) → (Block img.now d)) }
    ensures { result ≡ free_at p (view img.now) m }
{
    if m < 2 {
        return q;
    }
    if m < 3 {
        return d;
    }
    change::free::next(img, p.drive, d)
}

// Append to the file f of n blocks in a sound partition: 8. The data block is the first free block, a new pointer block over it the second,
// and a new -2 or -3 the third.
fn append_open(
    img: &mut [u8],
    p: Partition,
    f: usize,
    n: usize,
    block: &[u8; 512],
    limit: usize,
) -> Answer
    requires { (Opens p img.old) × (candidate p (view img.old) f ≡ true) × (n ≡ len (view img.old) f) × (n < reach) }
    ensures { Answered limit (append_in p (view img.old) f n (words block.now)) img.old img.new result }
{
    let sound = Sound {
        volume: Volume { img, p },
    };
    let m = append::place::needs(n);
    if sound.room() <= m {
        return Answer::refused(Refusal::Full);
    }
    let a = sound.head();
    let q = change::free::next(img, p.drive, a);
    let d = change::free::next(img, p.drive, q);
    let g = left(img, p, m, q, d);
    let w = Append {
        p,
        f,
        n,
        m,
        a,
        q,
        d,
        g,
    };
    let made = append::append_store(img, w, block, limit);
    Answer::done(0, made)
}

// Replace block r of the file f in a sound partition.
fn replace_open(
    img: &mut [u8],
    p: Partition,
    f: usize,
    r: usize,
    block: &[u8; 512],
    limit: usize,
) -> Answer
    requires { (Opens p img.old) × (candidate p (view img.old) f ≡ true) × (r < reach) × (r < len (view img.old) f) }
    ensures { Answered limit (write_in p (view img.old) f r (words block.now)) img.old img.new result }
{
    let volume = Volume { img, p };
    let file = File { volume, f };
    let b = file.name(r);
    Answer::done(0, records::replace_store(img, b, block, limit))
}

// Write in a sound partition: 6, 7, and 8 where it appends.
fn write_open(
    img: &mut [u8],
    p: Partition,
    f: usize,
    r: usize,
    block: &[u8; 512],
    limit: usize,
) -> Answer
    requires { Opens p img.old }
    ensures { Answered limit (write_in p (view img.old) f r (words block.now)) img.old img.new result }
{
    let volume = Volume { img, p };
    if !volume.candidate(f) {
        return Answer::refused(Refusal::NoCandidate);
    }
    if REACH <= r {
        return Answer::refused(Refusal::BadBlock);
    }
    let n = inspect::len(img, f);
    if r < n {
        return replace_open(img, p, f, r, block, limit);
    }
    if n < r {
        return Answer::refused(Refusal::BadBlock);
    }
    append_open(img, p, f, n, block, limit)
}

// The block that write is lent: 3.
#[tactic(auto, unfolding(volume::specs::Calls::lent_block))]
fn lent(block: &[u8]) -> Lent
    ensures { result ≡ lent_block block.now }
{
    if block.len() == 512 {
        Ok(())
    } else {
        Err(Unfit::Length)
    }
}

// Write: the 512 bytes of `block` become block r of the file f.
pub fn write(
    img: &mut [u8],
    drive: usize,
    s: usize,
    f: usize,
    r: usize,
    block: &[u8],
    limit: usize,
) -> Answer
    ensures { Answered limit (planned drive img.old s (write f r block.now)) img.old img.new result }
{
    match change::enter(img, drive, s, lent(block)) {
        Ok(e) => {
            let block = block.as_array().unwrap();
            write_open(img, Partition { drive, s, e }, f, r, block, limit)
        }
        Err(why) => Answer::refused(why),
    }
}
