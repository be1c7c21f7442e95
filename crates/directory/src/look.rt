// Look up of a path.
ghost use Rattle.std.specs.Prelude.{◌≡◌, true, ◌-◌, ◌≤◌, length};
ghost use Rattle.image.specs.Image.{view};
ghost use Rattle.volume.specs.Files.{is_file};
ghost use Rattle.directory.specs.Directory.{selected, part_end, entered, look, look_from, looked_as, look_in};

use crate::{Directories, LEVELS, Rule, Target, entry};
use base::Refusal;
use inspect::{File, Volume};
use volume::Outcome;

// What stands between the names of a path: '>'.
const SEPARATOR: usize = 62;

// Where the part of a path ends that starts at p.
fn part_end(path: &[u8], p: usize) -> usize
    requires { p ≤ length path.now }
    ensures { (result ≡ part_end path.now p (length path.now - p)) × (p ≤ result) × (result ≤ length path.now) }
{
    let rest = &path[p..];
    p + rest
        .iter()
        .position(|c| image::wide(*c) == SEPARATOR)
        .unwrap_or(rest.len())
}

// As the call answers it.
fn looked_as(x: Result<Option<Target>, usize>) -> Outcome
    ensures { result ≡ looked_as x }
{
    match x {
        Ok(Some(Target::File(t) | Target::Directory(t))) => Ok(Some((t, 0, 0))),
        Ok(Some(Target::Dangling)) => Ok(Some((0, 1, 0))),
        Ok(None) => Ok(None),
        Err(f) => Err(Refusal::TooDeep(f)),
    }
}

impl Directories<'_> {
    // The target of the entry with a name in directory f, if there is one.
    #[tactic(auto, using(crate::specs::Paths::enters, crate::specs::Paths::found_below))]
    fn enter(&self, f: usize, part: &[u8]) -> Option<Target>
        requires { is_file self.now.volume.p (view self.now.volume.img.now) f ≡ true }
        ensures { result ≡ entered self.now.volume.p self.now.volume.img.now (selected self.now.rule.weights.now) part.now f }
    {
        let file = File {
            volume: self.volume,
            f,
        };
        let j = self.rule.find(&file, part)?;
        let b = file.name(j / 16);
        Some(entry::target_of(&self.volume, b, j % 16))
    }

    // The target of a path that is not empty, from the root down, if there is one; or the directory of the tenth level that it leads into.
    #[tactic(auto, using(crate::specs::Paths::looks))]
    fn look(&self, root: usize, path: &[u8]) -> Result<Option<Target>, usize>
        requires { is_file self.now.volume.p (view self.now.volume.img.now) root ≡ true }
        ensures { result ≡ look self.now.volume.p self.now.volume.img.now (selected self.now.rule.weights.now) 9 path.now 0 root }
    {
        let mut f = root;
        let mut at = 0;
        for d in 0usize..LEVELS {
            let end = part_end(path, at);
            let Some(target) = self.enter(f, &path[at..end]) else {
                return Ok(None);
            };
            if path.len() <= end {
                return Ok(Some(target));
            }
            let Target::Directory(t) = target else {
                return Ok(None);
            };
            f = t;
            at = end + 1;
        }
        Err(f)
    }

    // The target of a path from the root down; the empty path is the root.
    #[tactic(auto, using(crate::specs::Paths::looks))]
    fn look_from(&self, root: usize, path: &[u8]) -> Result<Option<Target>, usize>
        requires { is_file self.now.volume.p (view self.now.volume.img.now) root ≡ true }
        ensures { result ≡ look_from self.now.volume.p self.now.volume.img.now (selected self.now.rule.weights.now) root path.now }
    {
        if path.len() < 1 {
            return Ok(Some(Target::Directory(root)));
        }
        self.look(root, path)
    }
}

// Look up in an opened partition.
#[tactic(auto, unfolding(crate::specs::Directory::look_in), using(crate::specs::Entries::file_at_is))]
pub fn look_in(volume: &Volume<'_>, rule: &[u8], path: &[u8]) -> Outcome
    ensures { result ≡ look_in volume.now.p volume.now.img.now rule.now path.now }
{
    let rule = Rule::of(rule)?;
    let Some(root) = entry::root(volume) else {
        return Err(Refusal::NoCandidate);
    };
    let directories = Directories {
        volume: *volume,
        rule,
    };
    looked_as(directories.look_from(root, path))
}
