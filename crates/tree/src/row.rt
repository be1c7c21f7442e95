// A row of the tree, laid over the caller's bytes.
ghost use Rattle.std.specs.Prelude.{◌≡◌, ◌+◌, ◌*◌, ◌≤◌, ◌<◌, length};
ghost use Rattle.base.specs.Tests.{pick};
ghost use Rattle.image.specs.Image.{view};
ghost use Rattle.volume.specs.Files.{len};
ghost use Rattle.directory.specs.Directory.{block_of, what_of, name_length, name_at, place_of, row_of};
ghost use Rattle.image.specs.Stores.{lay};

use directory::{Target, entry};
use inspect::File;

// The LBN of a target, 0 if it dangles.
fn block_of(target: Target) -> usize
    ensures { result ≡ block_of target }
{
    match target {
        Target::File(t) | Target::Directory(t) => t,
        Target::Dangling => 0,
    }
}

// The number in a row for what a target is.
fn what_of(target: Target) -> u8
    ensures { result ≡ what_of target }
{
    match target {
        Target::File(_) => 0,
        Target::Directory(_) => 1,
        Target::Dangling => 2,
    }
}

// Row n.
#[tactic(auto, using(crate::proofs::Laws::row_laid))]
fn put_row(rows: &mut [u8], n: usize, target: Target, level: usize, name: &[u8])
    requires { (32 * n + 32 ≤ length rows.old) × (length name.now ≤ 25) × (level < 256) }
    ensures { rows.new ≡ lay rows.old (32 * n) (row_of (block_of target) level (what_of target) name.now) }
{
    let a = 32 * n;
    let k = name.len();
    let t = block_of(target);
    let head = [
        (t % 256) as u8,
        (t / 256 % 256) as u8,
        (t / 65536 % 256) as u8,
        (t / 16777216 % 256) as u8,
        level as u8,
        what_of(target),
        k as u8,
    ];
    image::put_at(rows, a, &head);
    image::put_at(rows, a + 7, name);
    let z = [0u8; 25];
    let m = 25 - k;
    image::put_at(rows, a + 7 + k, &z[0..m]);
}

// The row of entry j of a directory as row n; nothing unless `on`.
#[tactic(auto, using(crate::proofs::Laws::name_few, crate::proofs::Laws::name_read, crate::proofs::Laws::part_short))]
pub fn entry_row(
    rows: &mut [u8],
    file: &File<'_>,
    j: usize,
    level: usize,
    target: Target,
    n: usize,
    on: bool,
)
    requires { (j < 16 * len (view file.now.volume.img.now) file.now.f) × (name_length file.now.volume.img.now (place_of file.now.volume.p file.now.volume.img.now file.now.f j) ≤ 25) × (level < 256) × (32 * n + 32 ≤ length rows.old) }
    ensures { rows.new ≡ pick on (lay rows.old (32 * n) (row_of (block_of target) level (what_of target) (name_at file.now.volume.img.now (place_of file.now.volume.p file.now.volume.img.now file.now.f j)))) rows.old }
{
    if !on {
        return;
    }
    let img = file.volume.img;
    let b = file.name(j / 16);
    let at = 528 * b + 16 + entry::ENTRY * (j % 16);
    let from = at + entry::NAME;
    let end = from + image::wide(img[at + entry::LENGTH]);
    put_row(rows, n, target, level, &img[from..end]);
}
