// Reading into a caller's buffer: a block, a description. A refused call leaves the buffer as it is.
#![tactic(auto)]

ghost use Rattle.std.specs.Prelude.{◌≡◌, length};
ghost use Rattle.volume.specs.Answers.{read_from, plain, read_into, described_as, described_into};

use base::Refusal;
use volume::Outcome;

// The bytes of src over the buffer, which is as long.
pub fn put(buf: &mut [u8], src: &[u8])
    requires { length buf.old ≡ length src.now }
    ensures { buf.new ≡ src.now }
{
    buf.copy_from_slice(src);
}

// Where the block that is to be read stands, for a buffer of n bytes.
#[tactic(auto, unfolding(volume::specs::Answers::read_from))]
fn read_from(img: &[u8], drive: usize, s: usize, f: usize, r: usize, n: usize) -> Outcome
    ensures { result ≡ read_from drive img.now s f r n }
{
    let volume = inspect::open(img, drive, s)?;
    if n != 512 {
        return Err(Refusal::BadBuffer);
    }
    shows::show_in(&volume, f, r)
}

// Block r of file f, copied into the buffer; zeros where it is absent.
#[tactic(auto, using(image::proofs::Laws::span, crate::proofs::Laws::read_done))]
pub fn read(img: &[u8], drive: usize, s: usize, f: usize, r: usize, buf: &mut [u8]) -> Outcome
    ensures { (result ≡ plain (read_from drive img.now s f r (length buf.old))) × (buf.new ≡ read_into img.now buf.old (read_from drive img.now s f r (length buf.old))) }
{
    let n = buf.len();
    match read_from(img, drive, s, f, r, n)? {
        Some((at, _, _)) => {
            let end = at + 512;
            put(buf, &img[at..end]);
            Ok(Some((0, 0, 0)))
        }
        None => {
            put(buf, &[0u8; 512]);
            Ok(None)
        }
    }
}

// What the description's reader answers, for a buffer of n bytes.
#[tactic(auto, unfolding(volume::specs::Answers::described_as))]
fn described_as(img: &[u8], drive: usize, s: usize, f: usize, n: usize) -> Outcome
    ensures { result ≡ described_as drive img.now s f n }
{
    let volume = inspect::open(img, drive, s)?;
    if n != 104 {
        return Err(Refusal::BadBuffer);
    }
    volume.file(f)?;
    Ok(Some((0, 0, 0)))
}

// The description of file f, copied into the buffer.
#[tactic(auto, using(image::proofs::Laws::span, crate::proofs::Laws::part_long, crate::proofs::Laws::described_done))]
pub fn description(img: &[u8], drive: usize, s: usize, f: usize, buf: &mut [u8]) -> Outcome
    ensures { (result ≡ described_as drive img.now s f (length buf.old)) × (buf.new ≡ described_into img.now f buf.old (described_as drive img.now s f (length buf.old))) }
{
    let n = buf.len();
    match described_as(img, drive, s, f, n)? {
        Some(values) => {
            let at = 528 * f + 16;
            let end = at + 104;
            put(buf, &img[at..end]);
            Ok(Some(values))
        }
        None => Ok(None),
    }
}
