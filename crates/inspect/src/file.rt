// A file of a good partition: its length, and its blocks.
ghost use Rattle.std.specs.Prelude.{◌≡◌, true, ◌≤◌, ◌<◌, MatchResult};
ghost use Rattle.image.specs.Image.{view};
ghost use Rattle.volume.specs.Files.{len, spot, present, name};
ghost use Rattle.inspect.specs.Parts.{IsFileAt, IsNoFile, Opened};

use crate::{Volume, keys};
use base::Refusal;

// A file of a good partition: a block that is well formed.
#[derive(Clone, Copy)]
pub struct File<'a> {
    pub volume: Volume<'a>,
    pub f: usize,
    ghost opened: { Opened volume.p volume.img.now f },
}

impl<'a> File<'a> {
    // L + 1.
    pub fn len(&self) -> usize
        ensures { (result ≡ len (view self.now.volume.img.now) self.now.f) × (result ≤ 32767) }
    {
        crate::len(self.volume.img, self.f)
    }

    // The block of key k.
    pub fn spot(&self, k: usize) -> usize
        requires { present self.now.volume.p (view self.now.volume.img.now) self.now.f k ≡ true }
        ensures { (result ≡ spot self.now.volume.p (view self.now.volume.img.now) self.now.f k) × (result ≤ self.now.volume.p.e) }
    {
        self.volume.at_key(self.f, k)
    }

    // Block r.
    pub fn name(&self, r: usize) -> usize
        requires { r < len (view self.now.volume.img.now) self.now.f }
        ensures { (result ≡ name self.now.volume.p (view self.now.volume.img.now) self.now.f r) × (result ≤ self.now.volume.p.e) }
    {
        self.spot(keys::FIRST + r)
    }
}

impl<'a> Volume<'a> {
    // The file at f, or why there is none.
    pub fn file(&self, f: usize) -> Result<File<'a>, Refusal>
        ensures { MatchResult result (λ x. IsFileAt self.now.p self.now.img.now f x.volume.p x.volume.img.now x.f) (λ why. IsNoFile self.now.p (view self.now.img.now) f why) }
    {
        if !self.candidate(f) {
            return Err(Refusal::NoCandidate);
        }
        if !self.well_formed(f) {
            return Err(Refusal::Malformed(f));
        }
        Ok(File { volume: *self, f })
    }
}
