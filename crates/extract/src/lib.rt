// Extract: a whole file into a caller's buffer, block by block. A refused call leaves the buffer as it is.
#![tactic(auto)]

ghost use Rattle.std.specs.Prelude.{◌≡◌, ◌*◌, length};
ghost use Rattle.image.specs.Image.{view};
ghost use Rattle.volume.specs.Files.{len};
ghost use Rattle.volume.specs.Answers.{block_bytes, extract_in, extract_into, extracted};
ghost use Rattle.extract.specs.Into.{extracted_into};

use base::Refusal;
use inspect::{File, Volume};
use volume::Outcome;

// The k blocks of a file, one after the other, into the buffer.
#[tactic(auto, using(reading::proofs::Laws::part_long, crate::proofs::Laws::copied_all))]
fn copy_blocks(file: &File<'_>, k: usize, buf: &mut [u8])
    requires { (k ≡ len (view file.now.volume.img.now) file.now.f) × (length buf.old ≡ 512 * k) }
    ensures { buf.new ≡ block_bytes file.now.volume.p file.now.volume.img.now file.now.f 0 k }
{
    for r in 0..k {
        let b = file.name(r);
        let from = 528 * b + 16;
        let end = from + 512;
        image::put_at(buf, 512 * r, &file.volume.img[from..end]);
    }
}

// Extract in an opened partition.
#[tactic(auto, unfolding(volume::specs::Answers::extract_in))]
fn extract_in(volume: &Volume<'_>, f: usize, buf: &mut [u8]) -> Outcome
    ensures { (result ≡ extract_in volume.now.p (view volume.now.img.now) f (length buf.old)) × (buf.new ≡ extract_into volume.now.p volume.now.img.now f buf.old (extract_in volume.now.p (view volume.now.img.now) f (length buf.old))) }
{
    let file = volume.file(f)?;
    let k = file.len();
    if buf.len() != 512 * k {
        return Err(Refusal::BadBuffer);
    }
    copy_blocks(&file, k, buf);
    Ok(Some((k, 0, 0)))
}

// The whole of file f, block by block, into a buffer of 512 bytes for each.
#[tactic(auto, unfolding(volume::specs::Answers::extracted, crate::specs::Into::extracted_into))]
pub fn extract(img: &[u8], drive: usize, s: usize, f: usize, buf: &mut [u8]) -> Outcome
    ensures { (result ≡ extracted drive img.now s f (length buf.old)) × (buf.new ≡ extracted_into drive img.now s f buf.old) }
{
    let volume = inspect::open(img, drive, s)?;
    extract_in(&volume, f, buf)
}
