// Code that reads: the partition, candidates, and well formed files.
#![tactic(auto)]

ghost use Rattle.std.specs.Prelude.{◌≡◌, ◌*◌, ◌≤◌, ◌<◌, length, Err, MatchResult};
ghost use Rattle.image.specs.Image.{view};
ghost use Rattle.volume.specs.Files.{candidate, is_file, is_malformed};
ghost use Rattle.volume.specs.Answers.{image_good, part_good, partition, lowest_malformed};
ghost use Rattle.volume.specs.Reads.{Lies};
ghost use Rattle.inspect.specs.Parts.{IsPartition};

use base::Refusal;
use volume::Partition;
use volume::words::{FIB, PARTITION_END, PARTITION_START, SERIAL};

pub mod file; // file.rt: a file, its length and its blocks
pub mod form; // form.rt: whether a file is well formed
pub mod index; // index.rt: a file's index
pub mod keys; // keys.rt: relative numbers in link order
pub mod numbers; // numbers.rt: relative numbers

pub use file::File;
pub use index::{len, read};
pub use keys::{
    FIRST, HOME, POINTER, REACH, entries_of, has_key, low, nearest, next_key, prev_key, size_of,
    slot, stays, up,
};
pub use numbers::{blocks_to, has_number, is_number, key_of, last_good, number_of};

// A good partition, in the image that it lies in.
#[derive(Clone, Copy)]
pub struct Volume<'a> {
    pub img: &'a [u8],
    pub p: Partition,
    ghost lies: { Lies p img.now },
}

// Whether the drive is known and n bytes are an image for it.
pub fn image_good(drive: usize, n: usize) -> bool
    ensures { result ≡ image_good drive n }
{
    if 3 < drive {
        return false;
    }
    if n < 1 {
        return false;
    }
    if n % 528 != 0 {
        return false;
    }
    n / 528 <= drive::blocks(drive)
}

// Whether s names a good partition of an image of n blocks.
pub fn part_good(img: &[u8], drive: usize, n: usize, s: usize) -> bool
    requires { (528 * n ≤ length img.now) × (n < 69553) }
    ensures { result ≡ part_good drive n (view img.now) s }
{
    if s < 1 {
        return false;
    }
    if n <= s {
        return false;
    }
    if !drive::is_lda(drive, image::pair(img, s, PARTITION_START), s) {
        return false;
    }
    let x = image::pair(img, s, PARTITION_END);
    let e = drive::lda_block(drive, x);
    if !drive::is_lda(drive, x, e) {
        return false;
    }
    if e <= s {
        return false;
    }
    if n <= e {
        return false;
    }
    e - s + 1 <= 32767
}

// The end of the partition at s.
pub fn partition(img: &[u8], drive: usize, s: usize) -> Result<usize, Refusal>
    ensures { result ≡ partition drive img.now s }
{
    if !image_good(drive, img.len()) {
        return Err(Refusal::BadImage);
    }
    let n = img.len() / 528;
    if part_good(img, drive, n, s) {
        Ok(drive::lda_block(drive, image::pair(img, s, PARTITION_END)))
    } else {
        Err(Refusal::BadPartition)
    }
}

// The opened partition at s, or why it is refused.
pub fn open(img: &[u8], drive: usize, s: usize) -> Result<Volume<'_>, Refusal>
    ensures { MatchResult result (λ v. IsPartition drive img.now s v.p v.img.now) (λ why. partition drive img.now s ≡ Err why) }
{
    let e = partition(img, drive, s)?;
    Ok(Volume {
        img,
        p: Partition { drive, s, e },
    })
}

impl Volume<'_> {
    // Whether f is a candidate.
    pub fn candidate(&self, f: usize) -> bool
        ensures { result ≡ candidate self.now.p (view self.now.img.now) f }
    {
        if f <= self.p.s {
            return false;
        }
        if self.p.e < f {
            return false;
        }
        // Before the serial, whose parts must be asked: most blocks are no FIB.
        if !numbers::has_number(self.img, f, FIB) {
            return false;
        }
        drive::is_pda(self.p.drive, image::pair(self.img, f, SERIAL), f)
    }

    // Whether f is a file.
    pub fn is_file(&self, f: usize) -> bool
        ensures { result ≡ is_file self.now.p (view self.now.img.now) f }
    {
        if self.candidate(f) {
            self.well_formed(f)
        } else {
            false
        }
    }

    // Whether f is a malformed candidate.
    fn is_malformed(&self, f: usize) -> bool
        ensures { result ≡ is_malformed self.now.p (view self.now.img.now) f }
    {
        if self.candidate(f) {
            !self.well_formed(f)
        } else {
            false
        }
    }

    // The lowest malformed candidate.
    pub fn lowest_malformed(&self) -> Option<usize>
        ensures { result ≡ lowest_malformed self.now.p (view self.now.img.now) }
    {
        (self.p.s + 1..self.p.e + 1).find(|&f| self.is_malformed(f))
    }
}
