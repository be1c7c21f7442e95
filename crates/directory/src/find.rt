// The first entry of a directory with a name.
ghost use Rattle.std.specs.Prelude.{◌≡◌, ◌+◌, ◌≤◌, length};
ghost use Rattle.base.specs.Tests.{both};
ghost use Rattle.directory.specs.Directory.{same_name, selected, name_at, taken_at, find};

use crate::{Rule, entry};
use inspect::File;

impl Rule<'_> {
    // Whether the entry at a place of the image, in block r of its directory, is taken and has the name.
    #[tactic(auto, using(crate::specs::Paths::finds))]
    fn has_name(&self, img: &[u8], r: usize, at: usize, part: &[u8]) -> bool
        requires { at + 32 ≤ length img.now }
        ensures { result ≡ both (taken_at img.now (selected self.now.weights.now) r at) (same_name (name_at img.now at) part.now) }
    {
        if !self.taken(img, r, at) {
            return false;
        }
        let from = at + entry::NAME;
        let end = from + image::wide(img[at + entry::LENGTH]);
        entry::same(&img[from..end], part)
    }

    // The first entry of a directory with the name. A block is looked up once for its 16 entries, which one search over all would not do.
    #[tactic(auto, using(crate::specs::Paths::finds, volume::proofs::Steps::search_end))]
    pub fn find(&self, file: &File<'_>, part: &[u8]) -> Option<usize>
        ensures { result ≡ find file.now.volume.p file.now.volume.img.now (selected self.now.weights.now) part.now file.now.f }
    {
        let k = file.len();
        for r in 0..k {
            let b = file.name(r);
            for i in 0..16 {
                if self.has_name(file.volume.img, r, 528 * b + 16 + entry::ENTRY * i, part) {
                    return Some(16 * r + i);
                }
            }
        }
        None
    }
}
