// The calls that change nothing, for a host.
ghost use Rattle.std.specs.Prelude.{◌≡◌, length};
ghost use Rattle.volume.specs.Answers.{checked, next_file, shown, shown_pair, read_from, plain, read_into, described_as, described_into, extracted};
ghost use Rattle.volume.specs.Names.{name_answer};
ghost use Rattle.extract.specs.Into.{extracted_into};
ghost use Rattle.perq.specs.Flat.{flat, flat_from};

use crate::PerqAnswer;

// Check: files, owned blocks and free blocks.
#[unsafe(no_mangle)]
pub extern "C" fn perq_check(image: &[u8], drive: u32, s: u32) -> PerqAnswer
    ensures { result ≡ flat 0 (checked drive image.now s) }
{
    crate::flat(0, verify::check(image, drive as usize, s as usize))
}

// The lowest file above `after`.
#[unsafe(no_mangle)]
pub extern "C" fn perq_next_file(image: &[u8], drive: u32, s: u32, after: u32) -> PerqAnswer
    ensures { result ≡ flat 0 (next_file drive image.now s after) }
{
    crate::flat(
        0,
        listing::next_file(image, drive as usize, s as usize, after as usize),
    )
}

// Where the bytes of block r stand in the image.
#[unsafe(no_mangle)]
pub extern "C" fn perq_show(image: &[u8], drive: u32, s: u32, f: u32, r: u32) -> PerqAnswer
    ensures { result ≡ flat 0 (shown drive image.now s f r) }
{
    crate::flat(
        0,
        shows::show_answer(image, drive as usize, s as usize, f as usize, r as usize),
    )
}

// Where the bytes of block r stand in the repaired image, or where that refuses in the original.
#[unsafe(no_mangle)]
pub extern "C" fn perq_show_pair(
    original: &[u8],
    repaired: &[u8],
    drive: u32,
    s: u32,
    f: u32,
    r: u32,
) -> PerqAnswer
    ensures { result ≡ flat_from (shown_pair drive original.now repaired.now s f r).image (shown_pair drive original.now repaired.now s f r).outcome }
{
    let x = shows::show_pair_answer(
        original,
        repaired,
        drive as usize,
        s as usize,
        f as usize,
        r as usize,
    );
    crate::flat_from(x.image, x.outcome)
}

// Block r of file f, copied into the buffer of 512 bytes.
#[unsafe(no_mangle)]
pub extern "C" fn perq_read(
    image: &[u8],
    drive: u32,
    s: u32,
    f: u32,
    r: u32,
    buffer: &mut [u8],
) -> PerqAnswer
    ensures { (result ≡ flat 0 (plain (read_from drive image.now s f r (length buffer.old)))) × (buffer.new ≡ read_into image.now buffer.old (read_from drive image.now s f r (length buffer.old))) }
{
    crate::flat(
        0,
        reading::read(
            image,
            drive as usize,
            s as usize,
            f as usize,
            r as usize,
            buffer,
        ),
    )
}

// The description of file f, copied into the buffer of 104 bytes.
#[unsafe(no_mangle)]
pub extern "C" fn perq_description(
    image: &[u8],
    drive: u32,
    s: u32,
    f: u32,
    buffer: &mut [u8],
) -> PerqAnswer
    ensures { (result ≡ flat 0 (described_as drive image.now s f (length buffer.old))) × (buffer.new ≡ described_into image.now f buffer.old (described_as drive image.now s f (length buffer.old))) }
{
    crate::flat(
        0,
        reading::description(image, drive as usize, s as usize, f as usize, buffer),
    )
}

// The whole of file f, block by block, into a buffer of 512 bytes for each.
#[unsafe(no_mangle)]
pub extern "C" fn perq_extract(
    image: &[u8],
    drive: u32,
    s: u32,
    f: u32,
    buffer: &mut [u8],
) -> PerqAnswer
    ensures { (result ≡ flat 0 (extracted drive image.now s f (length buffer.old))) × (buffer.new ≡ extracted_into drive image.now s f buffer.old) }
{
    crate::flat(
        0,
        extract::extract(image, drive as usize, s as usize, f as usize, buffer),
    )
}

// What describe says of the name in a description: the rule that it breaks, and where.
#[unsafe(no_mangle)]
pub extern "C" fn perq_name(buffer: &[u8]) -> PerqAnswer
    ensures { result ≡ flat 0 (name_answer buffer.now) }
{
    crate::flat(0, names::name(buffer))
}
