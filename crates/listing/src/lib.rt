// The files of a partition one after the other: the call next file.
#![tactic(auto)]

ghost use Rattle.std.specs.Prelude.{◌≡◌};
ghost use Rattle.image.specs.Image.{view};
ghost use Rattle.volume.specs.Answers.{file_above, next_file};

use inspect::Volume;
use volume::Outcome;

// The lowest file above b.
fn file_above(volume: &Volume<'_>, b: usize) -> Option<usize>
    ensures { result ≡ file_above volume.now.p (view volume.now.img.now) b }
{
    let a = b.max(volume.p.s);
    if volume.p.e <= a {
        return None;
    }
    (a + 1..volume.p.e + 1).find(|&f| volume.is_file(f))
}

// Next file, a public call: the lowest file above a block.
#[tactic(auto, unfolding(volume::specs::Answers::next_file))]
pub fn next_file(img: &[u8], drive: usize, s: usize, after: usize) -> Outcome
    ensures { result ≡ next_file drive img.now s after }
{
    let volume = inspect::open(img, drive, s)?;
    let found = file_above(&volume, after);
    Ok(found.map(|f| (f, 0, 0)))
}
