// The changing calls create and describe, and the gate that every changing call goes through. A call reads the unchanged image, plans
// its records, and then makes its stores.
#![tactic(auto)]

ghost use Rattle.std.specs.Prelude.{◌≡◌, ◌<◌};
ghost use Rattle.image.specs.Image.{view};
ghost use Rattle.image.specs.Saves.{words};
ghost use Rattle.volume.specs.Calls.{create_in, describe_in, Answered, planned, create, describe};
ghost use Rattle.volume.specs.Answers.{lowest_malformed};
ghost use Rattle.change.specs.Gate.{when_clean, gate, Opens};

use base::Refusal;
use inspect::Volume;
use volume::{Answer, Lent, Partition};

pub mod free; // free.rt: the free chain

// A sound partition, in the image that it lies in. The functions that store cannot take one, since the first store ends it: they ask the
// same of the image as it was.
#[derive(Clone, Copy)]
pub struct Sound<'a> {
    pub volume: Volume<'a>,
    ghost opens: { Opens volume.p volume.img.now },
}

// Refusals 4 and 5: the end of the partition, if it is sound.
#[tactic(auto, using(verify::proofs::Surveys::sound_unmarred))]
fn sound_end(volume: &Volume<'_>) -> Result<usize, Refusal>
    ensures { result ≡ when_clean volume.now.p (view volume.now.img.now) (lowest_malformed volume.now.p (view volume.now.img.now)) }
{
    if verify::is_sound(volume) {
        Ok(volume.p.e)
    } else {
        Err(verify::fault(volume))
    }
}

// Refusals 1, 2, 3, 12, 4 and 5, in that order: the end of the sound partition at s, or the first that applies.
#[tactic(auto, unfolding(crate::specs::Gate::gate))]
pub fn enter(img: &[u8], drive: usize, s: usize, lent: Lent) -> Result<usize, Refusal>
    ensures { result ≡ gate drive img.now s lent }
{
    let volume = inspect::open(img, drive, s)?;
    lent?;
    sound_end(&volume)
}

// Describe in a sound partition: 6.
fn describe_open(img: &mut [u8], p: Partition, f: usize, text: &[u8; 104], limit: usize) -> Answer
    requires { Opens p img.old }
    ensures { Answered limit (describe_in p (view img.old) f (words text.now)) img.old img.new result }
{
    let volume = Volume { img, p };
    if !volume.candidate(f) {
        return Answer::refused(Refusal::NoCandidate);
    }
    Answer::done(0, records::describe_store(img, f, text, limit))
}

// Create in a sound partition: 8.
fn create_open(img: &mut [u8], p: Partition, kind: usize, limit: usize) -> Answer
    requires { (Opens p img.old) × (kind < 65536) }
    ensures { Answered limit (create_in p (view img.old) kind) img.old img.new result }
{
    let sound = Sound {
        volume: Volume { img, p },
    };
    let full = sound.room() <= 1;
    if full {
        return Answer::refused(Refusal::Full);
    }
    let h = sound.head();
    let g = free::next(img, p.drive, h);
    let n = records::create_store(img, p.drive, p.s, h, g, kind, limit);
    Answer::done(h, n)
}

// Describe: the FIB f gets the 104 bytes of `text` as its description.
pub fn describe(
    img: &mut [u8],
    drive: usize,
    s: usize,
    f: usize,
    text: &[u8],
    limit: usize,
) -> Answer
    ensures { Answered limit (planned drive img.old s (describe f text.now)) img.old img.new result }
{
    match enter(img, drive, s, names::lent(text)) {
        Ok(e) => {
            let text = text.as_array().unwrap();
            describe_open(img, Partition { drive, s, e }, f, text, limit)
        }
        Err(why) => Answer::refused(why),
    }
}

// Create: the first free block becomes an empty file of that kind, and is the answer's value.
pub fn create(img: &mut [u8], drive: usize, s: usize, kind: u16, limit: usize) -> Answer
    ensures { Answered limit (planned drive img.old s (create kind)) img.old img.new result }
{
    match enter(img, drive, s, Ok(())) {
        Ok(e) => create_open(img, Partition { drive, s, e }, usize::from(kind), limit),
        Err(why) => Answer::refused(why),
    }
}
