// The walk of a tree: its remaining depth falls at each level.
ghost use Rattle.std.specs.Prelude.{◌≡◌, true, ◌*◌, ◌-◌, ◌≤◌, ◌<◌, length};
ghost use Rattle.image.specs.Image.{view};
ghost use Rattle.volume.specs.Files.{is_file};
ghost use Rattle.directory.specs.Directory.{selected, tree, walked};
ghost use Rattle.image.specs.Stores.{lay};
ghost use Rattle.tree.specs.Walks.{writes};

use crate::row;
use directory::{Directories, Stop, Target};
use inspect::File;

// Directory f and what lies below it with `left` levels left, n of `most` rows filled so far; the rows are written if `on`.
// A flag, not two walks: a refused call must leave the rows as they are, and finding out and writing are one recursion, proved once.
#[tactic(auto, using(directory::specs::Entries::met_short))]
pub fn walk(
    rows: &mut [u8],
    directories: &Directories<'_>,
    left: usize,
    f: usize,
    most: usize,
    n: usize,
    on: bool,
) -> Result<usize, Stop>
    requires { (is_file directories.now.volume.p (view directories.now.volume.img.now) f ≡ true) × (left < 10) × (32 * most ≤ length rows.old) × (most < 4294967296) }
    ensures { (result ≡ walked most (tree directories.now.volume.p directories.now.volume.img.now (selected directories.now.rule.weights.now) left f) n) × (rows.new ≡ lay rows.old (32 * n) (writes on (most - n) (tree directories.now.volume.p directories.now.volume.img.now (selected directories.now.rule.weights.now) left f))) }
{
    if left < 1 {
        return Err(Stop::Deep(f));
    }
    let below = left - 1;
    let level = 10 - left;
    let file = File {
        volume: directories.volume,
        f,
    };
    let end = 16 * file.len();
    let mut at = n;
    for j in 0..end {
        let Some(target) = directories.rule.met(&file, j) else {
            continue;
        };
        if most <= at {
            return Err(Stop::Full(at));
        }
        row::entry_row(rows, &file, j, level, target, at, on);
        at += 1;
        if let Target::Directory(t) = target {
            at = walk(rows, directories, below, t, most, at, on)?;
        }
    }
    Ok(at)
}
