// What comes of a partition by what check answers: it is left, repaired and checked again, set aside for a person, or refused. The image
// is changed by a repair only.
#![tactic(auto)]

ghost use Rattle.std.specs.Prelude.{◌≡◌};
ghost use Rattle.verdict.specs.Choice.{refusal, choice, mended, repaired, settled};

use base::Refusal;
use volume::Outcome;

// More stores than a repair has: a partition has at most 32,767 blocks.
const ALL: usize = 32768;

// What check counts in a sound partition: its files, owned blocks and free blocks.
#[derive(Clone, Copy)]
pub struct Tally {
    pub files: usize,
    pub owned: usize,
    pub free: usize,
}

// What is to be done about a partition: leave it, which is sound; repair it; set it aside with the block that a person must look at; or
// refuse it.
#[derive(Clone, Copy)]
pub enum Course {
    Leave(Tally),
    Repair,
    SetAside(usize),
    Refuse(Refusal),
}

// The verdict on a partition: sound; sound once repaired by so many stores; set aside with a block; or refused.
#[derive(Clone, Copy)]
pub enum Verdict {
    Sound(Tally),
    Repaired(usize, Tally),
    SetAside(usize),
    Refused(Refusal),
}

// What is to be done about a partition that check refuses: a malformed candidate is for a person, an unsound partition for repair.
fn refusal(why: Refusal) -> Course
    ensures { result ≡ refusal why }
{
    match why {
        Refusal::Malformed(f) => Course::SetAside(f),
        Refusal::Unsound => Course::Repair,
        _ => Course::Refuse(why),
    }
}

// What is to be done where check answers so. It never answers absent.
fn choice(found: Outcome) -> Course
    ensures { result ≡ choice found }
{
    match found {
        Ok(Some((files, owned, free))) => Course::Leave(Tally { files, owned, free }),
        Ok(None) => Course::Refuse(Refusal::BadPartition),
        Err(why) => refusal(why),
    }
}

// The verdict on a partition that repair made so many stores in, by what is to be done about it then.
fn mended(made: usize, then: Course) -> Verdict
    ensures { result ≡ mended made then }
{
    match then {
        Course::Leave(tally) => Verdict::Repaired(made, tally),
        Course::Repair => Verdict::Refused(Refusal::Unsound),
        Course::SetAside(f) => Verdict::SetAside(f),
        Course::Refuse(why) => Verdict::Refused(why),
    }
}

// The verdict on a partition that is not sound: all of repair's stores are made in it, and it is checked again. Repair never answers absent.
fn repaired(img: &mut [u8], drive: usize, s: usize) -> Verdict
    ensures { (result ≡ (repaired drive img.old s).verdict) × (img.new ≡ (repaired drive img.old s).image) }
{
    let answer = repair::repair(img, drive, s, ALL);
    match answer.outcome {
        Ok(Some(_)) => mended(answer.made, choice(verify::check(img, drive, s))),
        Ok(None) => Verdict::Refused(Refusal::BadPartition),
        Err(why) => Verdict::Refused(why),
    }
}

// The verdict on the partition at s.
#[tactic(auto, unfolding(crate::specs::Choice::settled))]
pub fn partition(img: &mut [u8], drive: usize, s: usize) -> Verdict
    ensures { (result ≡ (settled drive img.old s).verdict) × (img.new ≡ (settled drive img.old s).image) }
{
    match choice(verify::check(img, drive, s)) {
        Course::Leave(tally) => Verdict::Sound(tally),
        Course::Repair => repaired(img, drive, s),
        Course::SetAside(f) => Verdict::SetAside(f),
        Course::Refuse(why) => Verdict::Refused(why),
    }
}
