// An entry of a directory: whether it is taken, and what its target is. The root.
ghost use Rattle.std.specs.Prelude.{◌≡◌, true, false, ◌+◌, ◌*◌, ◌≤◌, ◌<◌, length, MatchResult};
ghost use Rattle.base.specs.declared.Refusal.TheVariants.{BadBuffer};
ghost use Rattle.image.specs.Image.{view};
ghost use Rattle.volume.specs.Files.{len};
ghost use Rattle.directory.specs.Directory.{upper, same_name, hash, is_rule, selected, taken_at, is_directory, file_at, root_of, target_of, met_target, met_at};

use crate::{Rule, Target};
use base::Refusal;
use inspect::{File, Volume};
use volume::words::{FILE_TYPE, ROOT};

// Where the target of a block's first entry stands, and the file type of a directory.
const TARGET: usize = 9;

const DIRECTORY: usize = 3;

// Bytes of an entry, and where the length of its name and the name stand in it.
pub const ENTRY: usize = 32;

pub const LENGTH: usize = 6;

pub const NAME: usize = 7;

// A letter as a capital.
#[tactic(auto, using(crate::specs::Entries::uppers))]
fn upper(c: u8) -> usize
    ensures { (result ≡ upper c) × (result < 256) }
{
    let x = image::wide(c);
    if x < 97 {
        return x;
    }
    if 122 < x {
        return x;
    }
    x - 32
}

// Whether two names are the same but for case.
pub fn same(a: &[u8], b: &[u8]) -> bool
    ensures { result ≡ same_name a.now b.now }
{
    a.len() == b.len() && a.iter().zip(b).all(|(x, y)| upper(*x) == upper(*y))
}

// The product of two bytes.
#[tactic(auto, using(crate::specs::Entries::product))]
fn times(a: usize, b: usize) -> usize
    requires { (a < 256) × (b < 256) }
    ensures { (result ≡ a * b) × (result ≤ 65025) }
{
    a * b
}

// Whether n bytes may be a rule.
#[tactic(auto, unfolding(crate::specs::Directory::is_rule))]
pub fn is_rule(rule: &[u8]) -> bool
    ensures { result ≡ is_rule rule.now }
{
    let n = rule.len();
    (n == 0) | (n == 26)
}

impl<'a> Rule<'a> {
    // The rule that the bytes are.
    pub fn of(weights: &'a [u8]) -> Result<Rule<'a>, Refusal>
        ensures { MatchResult result (λ rule. (is_rule weights.now ≡ true) × (rule.weights.now ≡ weights.now)) (λ why. (is_rule weights.now ≡ false) × (why ≡ BadBuffer)) }
    {
        if is_rule(weights) {
            Ok(Rule { weights })
        } else {
            Err(Refusal::BadBuffer)
        }
    }

    // The hash of a name. A sum over a zip would have to be known to fit before it is made, which the loop's invariant tells turn by turn.
    #[tactic(auto, using(crate::specs::Entries::weighs))]
    fn hash(&self, x: &[u8]) -> usize
        requires { (length self.now.weights.now ≡ 26) × (length x.now ≤ 25) }
        ensures { result ≡ hash self.now.weights.now x.now }
    {
        let n = x.len();
        let mut sum = times(image::wide(self.weights[0]), n);
        for i in 0..n {
            sum += times(image::wide(self.weights[i + 1]), upper(x[i]));
        }
        sum % 31
    }

    // Whether block r is selected for a name.
    #[tactic(auto, using(crate::specs::Entries::selects))]
    fn selected(&self, x: &[u8], r: usize) -> bool
        requires { length x.now ≤ 25 }
        ensures { result ≡ selected self.now.weights.now x.now r }
    {
        if self.weights.len() < 1 {
            return true;
        }
        r % 31 == self.hash(x)
    }

    // Whether the entry at a place of the image, in block r of its directory, is taken.
    #[tactic(auto, using(crate::specs::Entries::takes))]
    pub fn taken(&self, img: &[u8], r: usize, at: usize) -> bool
        requires { at + 32 ≤ length img.now }
        ensures { result ≡ taken_at img.now (selected self.now.weights.now) r at }
    {
        if image::wide(img[at]) % 2 != 1 {
            return false;
        }
        let n = image::wide(img[at + LENGTH]);
        if n < 1 {
            return false;
        }
        if 25 < n {
            return false;
        }
        let from = at + NAME;
        let end = from + n;
        self.selected(&img[from..end], r)
    }

    // The target of entry j of a directory, if the entry is taken.
    #[tactic(auto, using(crate::specs::Entries::mets))]
    pub fn met(&self, file: &File<'_>, j: usize) -> Option<Target>
        requires { j < 16 * len (view file.now.volume.img.now) file.now.f }
        ensures { result ≡ met_at file.now.volume.p file.now.volume.img.now (selected self.now.weights.now) file.now.f j }
    {
        let r = j / 16;
        let i = j % 16;
        let b = file.name(r);
        let at = 528 * b + 16 + ENTRY * i;
        if !self.taken(file.volume.img, r, at) {
            return None;
        }
        Some(target_of(&file.volume, b, i))
    }
}

// The file that x decodes to as an LDA, or none.
#[tactic(auto, using(crate::specs::Entries::targets))]
pub fn file_at(volume: &Volume<'_>, x: usize) -> Option<usize>
    requires { x < 4294967296 }
    ensures { result ≡ file_at volume.now.p volume.now.img.now x }
{
    let t = drive::lda_block(volume.p.drive, x);
    if !drive::is_lda(volume.p.drive, x, t) {
        return None;
    }
    if volume.is_file(t) { Some(t) } else { None }
}

// The root directory.
pub fn root(volume: &Volume<'_>) -> Option<usize>
    ensures { result ≡ root_of volume.now.p volume.now.img.now }
{
    file_at(volume, image::pair(volume.img, volume.p.s, ROOT))
}

// Whether f is a directory by its file type.
#[tactic(auto, using(crate::specs::Entries::directory_as))]
pub fn is_directory(img: &[u8], f: usize) -> bool
    requires { 528 * f + 528 ≤ length img.now }
    ensures { result ≡ is_directory img.now f }
{
    image::word(img, f, FILE_TYPE) == DIRECTORY
}

// The target of entry i of block b.
#[tactic(auto, using(crate::specs::Entries::aims))]
pub fn target_of(volume: &Volume<'_>, b: usize, i: usize) -> Target
    requires { (b ≤ volume.now.p.e) × (i < 16) }
    ensures { result ≡ met_target volume.now.img.now (target_of volume.now.p volume.now.img.now b i) }
{
    match file_at(volume, image::pair(volume.img, b, TARGET + 16 * i)) {
        Some(t) => {
            if is_directory(volume.img, t) {
                Target::Directory(t)
            } else {
                Target::File(t)
            }
        }
        None => Target::Dangling,
    }
}
