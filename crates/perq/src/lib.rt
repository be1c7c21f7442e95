// The library's calls as include/perq.h declares them. Each is thin: the call itself stands in a crate below, with the same contract.
#![tactic(auto)]

ghost use Rattle.std.specs.Prelude.{◌≡◌, ◌<◌};
ghost use Rattle.base.specs.Refusals.{number, culprit};
ghost use Rattle.drive.specs.Answers.{lbn_to_pda, pda_to_lbn, lbn_to_lda, lda_to_lbn, lbn_to_file_id, file_id_to_lbn};
ghost use Rattle.drive.specs.Fits.{Fits};
ghost use Rattle.perq.specs.Fits.{OutcomeFits};
ghost use Rattle.perq.specs.Flat.{answer, flat_converted, flat, image_number, flat_from};

use base::Refusal;
use volume::{Outcome, Source};

mod changes; // changes.rt: the calls that change the image
mod directories; // directories.rt: the calls that read directories
mod reads; // reads.rt: the calls that change nothing

// An answer as seven numbers: see include/perq.h.
#[repr(C)]
#[derive(Clone, Copy)]
pub struct PerqAnswer {
    pub outcome: u32,
    pub number: u32,
    pub block: u32,
    pub made: u32,
    pub a: u32,
    pub b: u32,
    pub c: u32,
}

// A number that fits, as C has it. `u32::try_from` would test what is known.
fn narrow(x: usize) -> u32
    requires { x < 4294967296 }
    ensures { result ≡ x }
{
    x as u32
}

// A call that is refused, after so many stores, by a pair's image or not.
fn refused(why: Refusal, made: usize, image: usize) -> PerqAnswer
    requires { (culprit why < 4294967296) × (made < 4294967296) × (image < 4294967296) }
    ensures { result ≡ answer 2 (number why) (culprit why) made 0 0 image }
{
    PerqAnswer {
        outcome: 2,
        number: base::number(why),
        block: narrow(base::culprit(why)),
        made: narrow(made),
        a: 0,
        b: 0,
        c: narrow(image),
    }
}

// A call that is not refused, with its values.
fn came_to(outcome: u32, made: usize, a: usize, b: usize, c: usize) -> PerqAnswer
    requires { (made < 4294967296) × (a < 4294967296) × (b < 4294967296) × (c < 4294967296) }
    ensures { result ≡ answer outcome 0 0 made a b c }
{
    PerqAnswer {
        outcome: outcome,
        number: 0,
        block: 0,
        made: narrow(made),
        a: narrow(a),
        b: narrow(b),
        c: narrow(c),
    }
}

// A conversion's answer.
fn converted(x: Result<usize, Refusal>) -> PerqAnswer
    requires { Fits x }
    ensures { result ≡ flat_converted x }
{
    match x {
        Ok(n) => came_to(0, 0, n, 0, 0),
        Err(why) => refused(why, 0, 0),
    }
}

// The answer of any other call, which made so many stores.
fn flat(made: usize, x: Outcome) -> PerqAnswer
    requires { (made < 4294967296) × (OutcomeFits x) }
    ensures { result ≡ flat made x }
{
    match x {
        Ok(Some((a, b, c))) => came_to(0, made, a, b, c),
        Ok(None) => came_to(1, made, 0, 0, 0),
        Err(why) => refused(why, made, 0),
    }
}

// The number by which c names an image of a pair.
fn image_number(image: Source) -> usize
    ensures { (result ≡ image_number image) × (result < 4294967296) }
{
    match image {
        Source::Repaired => 1,
        Source::Original => 2,
    }
}

// The answer of show of a pair, which `image` gave.
fn flat_from(image: Source, x: Outcome) -> PerqAnswer
    requires { OutcomeFits x }
    ensures { result ≡ flat_from image x }
{
    let image = image_number(image);
    match x {
        Ok(Some((a, b, _))) => came_to(0, 0, a, b, image),
        Ok(None) => came_to(1, 0, 0, 0, image),
        Err(why) => refused(why, 0, image),
    }
}

// LBN to PDA.
#[unsafe(no_mangle)]
pub extern "C" fn perq_lbn_to_pda(drive: u32, lbn: u32) -> PerqAnswer
    ensures { result ≡ flat_converted (lbn_to_pda drive lbn) }
{
    converted(drive::lbn_to_pda(drive, lbn))
}

// PDA to LBN.
#[unsafe(no_mangle)]
pub extern "C" fn perq_pda_to_lbn(drive: u32, pda: u32) -> PerqAnswer
    ensures { result ≡ flat_converted (pda_to_lbn drive pda) }
{
    converted(drive::pda_to_lbn(drive, pda))
}

// LBN to LDA.
#[unsafe(no_mangle)]
pub extern "C" fn perq_lbn_to_lda(drive: u32, lbn: u32) -> PerqAnswer
    ensures { result ≡ flat_converted (lbn_to_lda drive lbn) }
{
    converted(drive::lbn_to_lda(drive, lbn))
}

// LDA to LBN.
#[unsafe(no_mangle)]
pub extern "C" fn perq_lda_to_lbn(drive: u32, lda: u32) -> PerqAnswer
    ensures { result ≡ flat_converted (lda_to_lbn drive lda) }
{
    converted(drive::lda_to_lbn(drive, lda))
}

// LBN to FileID.
#[unsafe(no_mangle)]
pub extern "C" fn perq_lbn_to_fileid(drive: u32, lbn: u32) -> PerqAnswer
    ensures { result ≡ flat_converted (lbn_to_file_id drive lbn) }
{
    converted(drive::lbn_to_fileid(drive, lbn))
}

// FileID to LBN.
#[unsafe(no_mangle)]
pub extern "C" fn perq_fileid_to_lbn(drive: u32, fileid: u32) -> PerqAnswer
    ensures { result ≡ flat_converted (file_id_to_lbn drive fileid) }
{
    converted(drive::fileid_to_lbn(drive, fileid))
}
