// Code that decides soundness: the walk of the free chain, one pass over the blocks and the files among them, and check.
#![tactic(auto)]

ghost use Rattle.std.specs.Prelude.{◌≡◌, ◌-◌, ◌≤◌, ◌<◌};
ghost use Rattle.base.specs.Sums.{sum};
ghost use Rattle.image.specs.Image.{view};
ghost use Rattle.volume.specs.Files.{free_sound, sound};
ghost use Rattle.volume.specs.Answers.{check_in, checked};
ghost use Rattle.verify.specs.Walks.{onward, step_at, walk, walked, named};
ghost use Rattle.verify.specs.Survey.{size_at, standing, survey, fault};

use base::Refusal;
use inspect::{File, Volume};
use links::Clean;
use volume::words::{FREE_HEAD, FREE_TAIL, NEXT, NUMBER_FREE, PREVIOUS};
use volume::{Outcome, Partition};

// Where the free chain goes from a block: nowhere by a wrong link, to its end, or on to a block. The walk goes on, ends and fails in one match
// over the three, so none is an error or an absence.
#[derive(Clone, Copy)]
pub enum Step {
    Bad,
    End,
    On(usize),
}

// A free chain that was walked to its end: how many blocks it has, and the last.
#[derive(Clone, Copy)]
pub struct Chain {
    pub blocks: usize,
    pub last: usize,
}

// Where the next link x leads.
fn onward(p: Partition, x: usize) -> Step
    requires { x < 4294967296 }
    ensures { result ≡ onward p x }
{
    if x == 0 {
        return Step::End;
    }
    let c = drive::block_of(p.drive, x);
    if c <= p.s {
        return Step::Bad;
    }
    if p.e < c {
        return Step::Bad;
    }
    Step::On(c)
}

// Where the chain goes from block b, whose previous link should be `before`.
fn step_at(clean: &Clean<'_>, before: usize, b: usize) -> Step
    requires { b ≤ clean.now.volume.p.e }
    ensures { result ≡ step_at clean.now.volume.p (view clean.now.volume.img.now) before b }
{
    if links::owned(clean, b) {
        return Step::Bad;
    }
    let volume = &clean.volume;
    if image::pair(volume.img, b, PREVIOUS) == before {
        onward(volume.p, image::pair(volume.img, b, NEXT))
    } else {
        Step::Bad
    }
}

// The chain from `head` on, or the block of the first wrong link: the walk is left by `break` with either. It has the address of b, and that
// of the block before: the link by which it came to a block is the block's address, so that none is worked out on the way.
fn walk_from(clean: &Clean<'_>, head: usize) -> Result<Chain, usize>
    requires { head ≤ clean.now.volume.p.e }
    ensures { result ≡ walk clean.now.volume.p (view clean.now.volume.img.now) (clean.now.volume.p.e - clean.now.volume.p.s) 0 head 0 }
{
    let volume = &clean.volume;
    let most = volume.p.e - volume.p.s;
    let mut before: usize = 0;
    let mut own = drive::pda(volume.p.drive, head);
    let mut b = head;
    'walk: {
        for n in 0..most {
            match step_at(clean, before, b) {
                Step::Bad => break 'walk Err(b),
                Step::End => break 'walk Ok(Chain {
                    blocks: n + 1,
                    last: b,
                }),
                Step::On(c) => {
                    before = own;
                    own = image::pair(volume.img, b, NEXT);
                    b = c;
                }
            }
        }
        Err(b)
    }
}

// The free chain from FreeHead on, or the block of the first wrong link.
fn walked(clean: &Clean<'_>) -> Result<Chain, usize>
    ensures { result ≡ walked clean.now.volume.p (view clean.now.volume.img.now) }
{
    let volume = &clean.volume;
    let p = volume.p;
    let head = drive::lda_block(p.drive, image::pair(volume.img, p.s, FREE_HEAD));
    if head <= p.s {
        return Err(p.s);
    }
    if p.e < head {
        return Err(p.s);
    }
    walk_from(clean, head)
}

// Whether a free chain of n blocks, which ends at `last`, is the one that the PIB has.
fn chain_named(volume: &Volume<'_>, n: usize, last: usize) -> bool
    requires { last ≤ volume.now.p.e }
    ensures { result ≡ named volume.now.p (view volume.now.img.now) n last }
{
    let p = volume.p;
    let x = image::pair(volume.img, p.s, FREE_HEAD);
    if !drive::is_lda(p.drive, x, drive::lda_block(p.drive, x)) {
        return false;
    }
    if !drive::is_lda(p.drive, image::pair(volume.img, p.s, FREE_TAIL), last) {
        return false;
    }
    image::pair(volume.img, p.s, NUMBER_FREE) == n
}

// Whether the free chain has each unowned block once and no other, and the PIB names it. The files have `owned` blocks.
fn free_good(clean: &Clean<'_>, owned: usize) -> bool
    requires { owned ≡ sum (clean.now.volume.p.e - clean.now.volume.p.s) (size_at clean.now.volume.p (view clean.now.volume.img.now)) }
    ensures { result ≡ free_sound clean.now.volume.p (view clean.now.volume.img.now) }
{
    let Ok(chain) = walked(clean) else {
        return false;
    };
    let volume = &clean.volume;
    if chain.blocks != volume.p.e - volume.p.s - owned {
        return false;
    }
    chain_named(volume, chain.blocks, chain.last)
}

// How many blocks candidate f has, if it is well formed and linked.
fn stands(volume: &Volume<'_>, f: usize) -> Option<usize>
    requires { f ≤ volume.now.p.e }
    ensures { result ≡ standing volume.now.p (view volume.now.img.now) f }
{
    if !volume.well_formed(f) {
        return None;
    }
    let file = File { volume: *volume, f };
    if links::linked(&file) {
        Some(inspect::size_of(file.len()))
    } else {
        None
    }
}

// One pass over the blocks: how many files there are and how many blocks they have, if each candidate is one that is linked.
fn surveyed(volume: &Volume<'_>) -> Option<(usize, usize)>
    ensures { result ≡ survey volume.now.p (view volume.now.img.now) }
{
    let mut files: usize = 0;
    let mut owned: usize = 0;
    for f in volume.p.s + 1..volume.p.e + 1 {
        if !volume.candidate(f) {
            continue;
        }
        owned += stands(volume, f)?;
        files += 1;
    }
    Some((files, owned))
}

// Whether a partition is sound.
pub fn is_sound(volume: &Volume<'_>) -> bool
    ensures { result ≡ sound volume.now.p (view volume.now.img.now) }
{
    match surveyed(volume) {
        Some((_, owned)) => free_good(&Clean { volume: *volume }, owned),
        None => false,
    }
}

// Why a partition that is not sound is refused: a malformed candidate comes before links and the free chain.
pub fn fault(volume: &Volume<'_>) -> Refusal
    ensures { result ≡ fault volume.now.p (view volume.now.img.now) }
{
    match volume.lowest_malformed() {
        Some(f) => Refusal::Malformed(f),
        None => Refusal::Unsound,
    }
}

// Check of a good partition.
fn check_in(volume: &Volume<'_>) -> Outcome
    ensures { result ≡ check_in volume.now.p (view volume.now.img.now) }
{
    let Some((files, owned)) = surveyed(volume) else {
        return Err(fault(volume));
    };
    if free_good(&Clean { volume: *volume }, owned) {
        Ok(Some((files, owned, volume.p.e - volume.p.s - owned)))
    } else {
        Err(Refusal::Unsound)
    }
}

// Check, a public call: files, owned blocks and free blocks, or why it is refused.
#[tactic(auto, unfolding(volume::specs::Answers::checked))]
pub fn check(img: &[u8], drive: usize, s: usize) -> Outcome
    ensures { result ≡ checked drive img.now s }
{
    let volume = inspect::open(img, drive, s)?;
    check_in(&volume)
}
