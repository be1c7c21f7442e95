// The report in the words of the tool: a line for each image, and the counts.
ghost use Rattle.std.specs.Prelude.{◌≡◌};
ghost use Rattle.batch.specs.Table.{status_of, one_more};

use crate::judge::{Found, Judged, NoVerdict, RECORD};
use base::Refusal;
use std::{fmt, io};
use verdict::{Tally, Verdict};

// How an image came out.
#[derive(Clone, Copy, Debug, PartialEq, Eq)]
pub enum Status {
    Sound,
    Repaired,
    SetAside,
    Refused,
}

impl fmt::Display for Status {
    fn fmt<W: fmt::Write>(&self, f: &mut fmt::Formatter<W>) -> fmt::Result {
        f.pad(match self {
            Status::Sound => "sound",
            Status::Repaired => "repaired",
            Status::SetAside => "set aside",
            Status::Refused => "refused",
        })
    }
}

impl Status {
    // How an image came out of which that is found: without a verdict it is refused.
    pub fn of(found: &Found) -> Status
        ensures { result ≡ status_of found.now }
    {
        let Ok(judged) = found else {
            return Status::Refused;
        };
        match judged.verdict {
            Verdict::Sound(_) => Status::Sound,
            Verdict::Repaired(_, _) => Status::Repaired,
            Verdict::SetAside(_) => Status::SetAside,
            Verdict::Refused(_) => Status::Refused,
        }
    }
}

// How many images came out each way.
#[derive(Clone, Copy, Default)]
pub struct Counts {
    pub sound: usize,
    pub repaired: usize,
    pub set_aside: usize,
    pub refused: usize,
}

impl Counts {
    // Counts one more image.
    pub fn add(&mut self, status: Status)
        ensures { self.new ≡ one_more self.old status }
    {
        match status {
            Status::Sound => self.sound = self.sound.saturating_add(1),
            Status::Repaired => self.repaired = self.repaired.saturating_add(1),
            Status::SetAside => self.set_aside = self.set_aside.saturating_add(1),
            Status::Refused => self.refused = self.refused.saturating_add(1),
        }
    }
}

impl fmt::Display for Counts {
    fn fmt<W: fmt::Write>(&self, f: &mut fmt::Formatter<W>) -> fmt::Result {
        let Counts {
            sound,
            repaired,
            set_aside,
            refused,
        } = *self;
        write!(
            f,
            "{sound} sound, {repaired} repaired, {set_aside} set aside, {refused} refused"
        )
    }
}

// What a partition holds.
#[derive(Clone, Copy)]
struct Held(Tally);

impl fmt::Display for Held {
    fn fmt<W: fmt::Write>(&self, f: &mut fmt::Formatter<W>) -> fmt::Result {
        let Tally { files, owned, free } = self.0;
        let what = if files == 1 { "file" } else { "files" };
        write!(f, "{files} {what}, {owned} blocks owned, {free} free")
    }
}

impl Judged {
    // Why the image, or its partition, is refused so.
    fn why<W: fmt::Write>(&self, f: &mut fmt::Formatter<W>, why: Refusal) -> fmt::Result {
        let Judged { length, start, .. } = *self;
        match why {
            Refusal::BadImage if length == 0 => f.write_str("the image is empty"),
            Refusal::BadImage if length % RECORD == 0 => {
                f.write_str("no drive of that number has so many blocks")
            }
            Refusal::BadImage => write!(
                f,
                "the image's {length} bytes are no whole number of 528-byte records"
            ),
            Refusal::BadPartition => f.write_str("no good partition starts at any block"),
            Refusal::NothingFree => write!(
                f,
                "the partition at block {start} has no free block, so there is no chain to repair"
            ),
            _ => write!(f, "the partition at block {start} is not as it must be"),
        }
    }
}

impl fmt::Display for Judged {
    fn fmt<W: fmt::Write>(&self, f: &mut fmt::Formatter<W>) -> fmt::Result {
        match self.verdict {
            Verdict::Sound(tally) => {
                let held = Held(tally);
                write!(f, "{held}")
            }
            Verdict::Repaired(stores, tally) => {
                let held = Held(tally);
                write!(f, "{stores} stores: {held}")
            }
            Verdict::SetAside(block) => {
                write!(f, "refused (4): block {block} is a malformed file block")
            }
            Verdict::Refused(why) => {
                let number = base::number(why);
                write!(f, "refused ({number}): ")?;
                self.why(f, why)
            }
        }
    }
}

impl fmt::Display for NoVerdict {
    fn fmt<W: fmt::Write>(&self, f: &mut fmt::Formatter<W>) -> fmt::Result {
        f.write_str(match self {
            NoVerdict::Several => "more than one good partition, and this program takes one",
            NoVerdict::Long =>
                "the image is longer than 24 records, and this program takes no more",
            NoVerdict::Unread => "cannot read it",
        })
    }
}

// How wide the column of names is; a longer name moves its line to the right.
const NAMES: usize = 13;

// The line above all images.
pub fn head(rt: &impl Print) -> io::Result<()> {
    println!(rt; "{:NAMES$}  outcome", "image")
}

// The line of an image. Its name need not be text.
pub fn line(rt: &impl Print, name: &[u8], found: &Found) -> io::Result<()> {
    rt.write_all(name)?;
    let gap = NAMES.saturating_sub(name.len());
    let status = Status::of(found);
    print!(rt; "{:gap$}  {status:11}", "")?;
    match found {
        Ok(judged) => println!(rt; "{judged}"),
        Err(why) => println!(rt; "{why}"),
    }
}
