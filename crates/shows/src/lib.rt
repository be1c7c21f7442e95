// Show, and show of a pair: a block's 512 bytes as a part of the lent image, and what tells the empty answers apart.
#![tactic(auto)]

ghost use Rattle.std.specs.Prelude.{◌≡◌, [], ◌+◌, ◌≤◌, length, take, drop};
ghost use Rattle.image.specs.Image.{view};
ghost use Rattle.volume.specs.Answers.{show_in, shown, part_of, shown_pair, part_of_pair};

use base::Refusal;
use inspect::Volume;
use volume::{Outcome, PairAnswer, Source};

// What show answers in an opened partition: where the bytes of block r stand.
#[tactic(auto, unfolding(volume::specs::Answers::show_in))]
pub fn show_in(volume: &Volume<'_>, f: usize, r: usize) -> Outcome
    ensures { result ≡ show_in volume.now.p (view volume.now.img.now) f r }
{
    let file = volume.file(f)?;
    if inspect::REACH <= r {
        return Err(Refusal::BadBlock);
    }
    if r < file.len() {
        let b = file.name(r);
        Ok(Some((528 * b + 16, 512, 0)))
    } else {
        Ok(None)
    }
}

// Show's second call, a public call: shown and where, absent, or why it is refused.
#[tactic(auto, unfolding(volume::specs::Answers::shown))]
pub fn show_answer(img: &[u8], drive: usize, s: usize, f: usize, r: usize) -> Outcome
    ensures { result ≡ shown drive img.now s f r }
{
    let volume = inspect::open(img, drive, s)?;
    show_in(&volume, f, r)
}

// The 512 bytes from `at` on.
#[tactic(auto, using(inspect::proofs::Laws::length_512))]
fn part_at(img: &[u8], at: usize) -> &[u8]
    requires { at + 512 ≤ length img.now }
    ensures { result.now ≡ take 512 (drop at img.now) }
{
    let end = at + 512;
    &img[at..end]
}

// A part of length zero.
fn nothing(img: &[u8]) -> &[u8]
    ensures { result.now ≡ [] }
{
    &img[0..0]
}

// Show, a public call: the 512 bytes of block r of file f, or a part of length zero.
#[tactic(auto, using(inspect::proofs::Laws::shown_in))]
pub fn show(img: &[u8], drive: usize, s: usize, f: usize, r: usize) -> &[u8]
    ensures { result.now ≡ part_of img.now (shown drive img.now s f r) }
{
    match show_answer(img, drive, s, f, r) {
        Ok(Some((at, _, _))) => part_at(img, at),
        _ => nothing(img),
    }
}

// Show of a pair's second call, a public call: the repaired image's answer unless that is refused, and then the original's.
#[tactic(auto, unfolding(volume::specs::Answers::shown_pair))]
pub fn show_pair_answer(
    original: &[u8],
    repaired: &[u8],
    drive: usize,
    s: usize,
    f: usize,
    r: usize,
) -> PairAnswer
    ensures { result ≡ shown_pair drive original.now repaired.now s f r }
{
    match show_answer(repaired, drive, s, f, r) {
        Ok(shown) => PairAnswer {
            image: Source::Repaired,
            outcome: Ok(shown),
        },
        Err(_) => PairAnswer {
            image: Source::Original,
            outcome: show_answer(original, drive, s, f, r),
        },
    }
}

// Show of a pair, a public call: a part of the repaired image, or of the original where the repaired one refuses.
#[tactic(auto, using(inspect::proofs::Laws::shown_in), unfolding(volume::specs::Answers::shown_pair))]
pub fn show_pair<'a>(
    original: &'a [u8],
    repaired: &'a [u8],
    drive: usize,
    s: usize,
    f: usize,
    r: usize,
) -> &'a [u8]
    ensures { result.now ≡ part_of_pair original.now repaired.now (shown_pair drive original.now repaired.now s f r) }
{
    match show_answer(repaired, drive, s, f, r) {
        Ok(Some((at, _, _))) => part_at(repaired, at),
        Ok(None) => nothing(repaired),
        Err(_) => show(original, drive, s, f, r),
    }
}
