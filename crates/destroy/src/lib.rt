// The changing call destroy: the file's blocks go to the end of the free chain.
#![tactic(auto)]

ghost use Rattle.image.specs.Image.{view};
ghost use Rattle.volume.specs.Calls.{destroy_in, Answered, planned, destroy};
ghost use Rattle.change.specs.Gate.{Opens};

use base::Refusal;
use change::Sound;
use erase::Release;
use inspect::{File, HOME, Volume};
use volume::{Answer, Partition};

// Destroy in a sound partition: 6.
#[tactic(auto, using(crate::proofs::Laws::first_here, crate::proofs::Laws::last_here))]
fn destroy_open(img: &mut [u8], p: Partition, f: usize, limit: usize) -> Answer
    requires { Opens p img.old }
    ensures { Answered limit (destroy_in p (view img.old) f) img.old img.new result }
{
    let sound = Sound {
        volume: Volume { img, p },
    };
    let volume = &sound.volume;
    if !volume.candidate(f) {
        return Answer::refused(Refusal::NoCandidate);
    }
    let file = File { volume: *volume, f };
    let k = file.len();
    let low = inspect::low(k);
    let n = inspect::size_of(k);
    let top = file.spot(low);
    let last = file.spot(HOME + k);
    let tail = sound.tail();
    let h = sound.head();
    let alone = low == HOME;
    let empty = k == 0;
    let w = Release {
        f,
        alone,
        empty,
        n,
        top,
        last,
        tail,
        h,
    };
    let made = erase::destroy_store(img, p.drive, p.s, w, limit);
    Answer::done(0, made)
}

// Destroy: the file f is no more.
pub fn destroy(img: &mut [u8], drive: usize, s: usize, f: usize, limit: usize) -> Answer
    ensures { Answered limit (planned drive img.old s (destroy f)) img.old img.new result }
{
    match change::enter(img, drive, s, Ok(())) {
        Ok(e) => destroy_open(img, Partition { drive, s, e }, f, limit),
        Err(why) => Answer::refused(why),
    }
}
