// The tree of a partition's directories: a row of 32 bytes for each entry. Walked once without rows, since a refused call leaves
// them as they are, and then once more to fill them.
#![tactic(auto)]

ghost use Rattle.std.specs.Prelude.{◌≡◌, true, ◌*◌, ◌≤◌, ◌<◌, length, Some};
ghost use Rattle.image.specs.Image.{view};
ghost use Rattle.volume.specs.Files.{is_file};
ghost use Rattle.directory.specs.Directory.{most_rows, tree_root, tree_in, treed};
ghost use Rattle.image.specs.Stores.{lay};

use base::Refusal;
use directory::{Directories, LEVELS, Rule, Stop, entry};
use inspect::Volume;
use volume::Outcome;

mod row; // row.rt: a row
mod walk; // walk.rt: the walk

// How many rows n bytes are, at most as many as an answer counts.
#[tactic(auto, unfolding(directory::specs::Directory::most_rows))]
fn most_rows(n: usize) -> usize
    ensures { (result ≡ most_rows n) × (32 * result ≤ n) × (result < 4294967296) }
{
    let m = n / 32;
    if m < 4294967295 { m } else { 4294967295 }
}

// The tree from the root. The walk that writes comes to what the first one came to, so its answer is let go.
fn tree_from(directories: &Directories<'_>, root: usize, rows: &mut [u8]) -> Outcome
    requires { is_file directories.now.volume.p (view directories.now.volume.img.now) root ≡ true }
    ensures { (result ≡ (tree_root directories.now.volume.p directories.now.volume.img.now directories.now.rule.weights.now (length rows.old) (Some root)).outcome) × (rows.new ≡ lay rows.old 0 (tree_root directories.now.volume.p directories.now.volume.img.now directories.now.rule.weights.now (length rows.old) (Some root)).rows) }
{
    let most = most_rows(rows.len());
    match walk::walk(rows, directories, LEVELS, root, most, 0, false) {
        Ok(n) => {
            let _ = walk::walk(rows, directories, LEVELS, root, most, 0, true);
            Ok(Some((n, 0, 0)))
        }
        Err(Stop::Full(n)) => {
            let _ = walk::walk(rows, directories, LEVELS, root, most, 0, true);
            Ok(Some((n, 1, 0)))
        }
        Err(Stop::Deep(f)) => Err(Refusal::TooDeep(f)),
    }
}

// The tree in an opened partition.
#[tactic(auto, unfolding(directory::specs::Directory::tree_in, base::specs::Tests::both), using(crate::proofs::Laws::rooted))]
fn tree_in(volume: &Volume<'_>, rule: &[u8], rows: &mut [u8]) -> Outcome
    ensures { (result ≡ (tree_in volume.now.p volume.now.img.now rule.now (length rows.old)).outcome) × (rows.new ≡ lay rows.old 0 (tree_in volume.now.p volume.now.img.now rule.now (length rows.old)).rows) }
{
    let rule = Rule::of(rule)?;
    if rows.len() % 32 != 0 {
        return Err(Refusal::BadBuffer);
    }
    let Some(root) = entry::root(volume) else {
        return Err(Refusal::NoCandidate);
    };
    let directories = Directories {
        volume: *volume,
        rule,
    };
    tree_from(&directories, root, rows)
}

// The tree of the partition at s, as many of its rows as fit.
#[tactic(auto, unfolding(directory::specs::Directory::treed), using(crate::specs::Items::lay_none))]
pub fn tree(img: &[u8], drive: usize, s: usize, rule: &[u8], rows: &mut [u8]) -> Outcome
    ensures { (result ≡ (treed drive img.now s rule.now (length rows.old)).outcome) × (rows.new ≡ lay rows.old 0 (treed drive img.now s rule.now (length rows.old)).rows) }
{
    let volume = inspect::open(img, drive, s)?;
    tree_in(&volume, rule, rows)
}
