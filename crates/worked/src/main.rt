// The worked example M12 of the rules, run with the library's own calls: a fresh partition of seven blocks on drive 0, a file of two
// blocks, the second append cut after each of its stores and repaired, and the file destroyed.
#![tactic(auto)]

ghost use Rattle.std.specs.Prelude.{◌<◌};

use std::{fmt, io, iter};
use volume::Answer;
use volume::words::{FREE_HEAD, LAST_BLOCK, NEXT, PARTITION_END, PARTITION_START};

const DRIVE: usize = 0;

// The partition's first block, which has the head of the free chain, and its last.
const START: usize = 1;

const END: usize = 7;

// The file that is created, by its block, and its type.
const FILE: usize = 2;

const KIND: u16 = 5;

// More stores than any call here has.
const ALL: usize = 100;

const RECORD: usize = 528;

type Image = [u8; 8 * RECORD];

// The example's calls; an append has the relative number of its block.
#[derive(Clone, Copy, PartialEq, Eq)]
enum Call {
    Repair,
    Create,
    Append(usize),
    Destroy,
}

impl fmt::Display for Call {
    fn fmt<W: fmt::Write>(&self, f: &mut fmt::Formatter<W>) -> fmt::Result {
        match self {
            Call::Repair => f.write_str("repair"),
            Call::Create => f.write_str("create"),
            Call::Append(r) => write!(f, "append {r}"),
            Call::Destroy => f.write_str("destroy"),
        }
    }
}

impl Call {
    // Makes the call, and no more stores than the limit.
    fn run(self, img: &mut Image, limit: usize) -> Answer {
        match self {
            Call::Repair => repair::repair(img, DRIVE, START, limit),
            Call::Create => change::create(img, DRIVE, START, KIND, limit),
            Call::Append(r) => write::write(img, DRIVE, START, FILE, r, &[7; 512], limit),
            Call::Destroy => destroy::destroy(img, DRIVE, START, FILE, limit),
        }
    }

    // The image after the call under a limit.
    fn after(self, mut img: Image, limit: usize) -> Image {
        self.run(&mut img, limit);
        img
    }

    // The record that the call's store k changes, if there is such a store.
    fn store(self, img: Image, k: usize) -> Option<usize>
        requires { k < 8 }
    {
        let before = self.after(img, k);
        let behind = self.after(img, k + 1);
        let byte = before.iter().zip(&behind).position(|(x, y)| x != y)?;
        Some(byte / RECORD)
    }
}

// An image of zero records, with the partition's start and end set in its first block.
#[tactic(auto, using(drive::specs::Fits::lda_small))]
fn unmade() -> Image {
    let mut img = [0; 8 * RECORD];
    let r = image::with_pair(image::blank(), PARTITION_START, drive::lda(DRIVE, START));
    let r = image::with_pair(r, PARTITION_END, drive::lda(DRIVE, END));
    image::store_at(&mut img, START, r);
    img
}

// The block that a link names; 0 names none.
fn named(b: usize) -> Option<usize> {
    (b != 0).then_some(b)
}

// The first free block.
fn head(img: &Image) -> Option<usize> {
    named(drive::lda_block(DRIVE, image::pair(img, START, FREE_HEAD)))
}

// The block that block b's next link names.
fn next(img: &Image, b: usize) -> Option<usize> {
    if END < b {
        return None;
    }
    named(drive::pda_block(DRIVE, image::pair(img, b, NEXT)))
}

// Ends a line with the free chain, at most eight blocks of it.
fn free(rt: &impl Print, img: &Image) -> io::Result<()> {
    print!(rt; ", free:")?;
    for b in iter::successors(head(img), |b| next(img, *b)).take(8) {
        print!(rt; " {b}")?;
    }
    println!(rt)
}

// Writes a line for a call: the block that create gives, the stores, and the free chain behind it. Answers the image behind it.
fn line(rt: &impl Print, img: Image, call: Call) -> io::Result<Image> {
    let mut x = img;
    let Answer { made, outcome } = call.run(&mut x, ALL);
    print!(rt; "{call}")?;
    if let (Call::Create, Ok(Some((b, _, _)))) = (call, outcome) {
        print!(rt; " gives {b}")?;
    }
    print!(rt; " makes {made} stores:")?;
    for b in (0..8).filter_map(|k| call.store(img, k)) {
        print!(rt; " {b}")?;
    }
    free(rt, &x)?;
    Ok(x)
}

// Writes a line for each cut of the second append, repaired: the last block of the file, and the free chain.
fn cuts(rt: &impl Print, img: Image) -> io::Result<()> {
    let call = Call::Append(1);
    for k in 0..6 {
        let x = Call::Repair.after(call.after(img, k), ALL);
        let last = image::word(&x, FILE, LAST_BLOCK);
        print!(rt; "{call} cut after {k} stores: L = {last}")?;
        free(rt, &x)?;
    }
    Ok(())
}

fn main(rt: HostRuntime) -> io::Result<()> {
    let fresh = line(&rt, unmade(), Call::Repair)?;
    let empty = line(&rt, fresh, Call::Create)?;
    let one = line(&rt, empty, Call::Append(0))?;
    cuts(&rt, one)?;
    let two = line(&rt, one, Call::Append(1))?;
    line(&rt, two, Call::Destroy)?;
    Ok(())
}
