// Directories: what an entry is, an entry by its name, and look up of a path. specs/Directory has the definitions, the tree's too.
#![tactic(auto)]

ghost use Rattle.std.specs.Prelude.{◌≡◌, true};
ghost use Rattle.directory.specs.Directory.{is_rule, look_up};

use inspect::Volume;
use volume::Outcome;

pub mod entry; // entry.rt: what an entry is, and the root
mod find; // find.rt: an entry by its name
mod look; // look.rt: look up of a path

// How many levels are looked into, the root the first.
pub const LEVELS: usize = 9;

// The target of an entry: a file that is a directory by its type or not, or no file.
#[derive(Clone, Copy)]
pub enum Target {
    File(usize),
    Directory(usize),
    Dangling,
}

// Why a walk of the tree ended early: for want of a row, with so many filled, or at a directory of the tenth level.
#[derive(Clone, Copy)]
pub enum Stop {
    Full(usize),
    Deep(usize),
}

// A rule by which the blocks of a directory are selected for a name: 26 weights, or none.
#[derive(Clone, Copy)]
pub struct Rule<'a> {
    pub weights: &'a [u8],
    ghost ruled: { is_rule weights.now ≡ true },
}

// The directories of a volume, with the rule by which their blocks are selected.
#[derive(Clone, Copy)]
pub struct Directories<'a> {
    pub volume: Volume<'a>,
    pub rule: Rule<'a>,
}

// The file that a path leads to from the root.
#[tactic(auto, unfolding(crate::specs::Directory::look_up))]
pub fn look_up(img: &[u8], drive: usize, s: usize, rule: &[u8], path: &[u8]) -> Outcome
    ensures { result ≡ look_up drive img.now s rule.now path.now }
{
    let volume = inspect::open(img, drive, s)?;
    look::look_in(&volume, rule, path)
}
