// The calls that change the image, for a host: only the first `limit` stores are made.
ghost use Rattle.volume.specs.Calls.{planned, create, write, describe, destroy, repair};
ghost use Rattle.perq.specs.Flat.{Changed};

use crate::PerqAnswer;

// Create a file of that kind.
#[unsafe(no_mangle)]
pub extern "C" fn perq_create(
    image: &mut [u8],
    drive: u32,
    s: u32,
    kind: u16,
    limit: u32,
) -> PerqAnswer
    ensures { Changed limit (planned drive image.old s (create kind)) image.old image.new result }
{
    let x = change::create(image, drive as usize, s as usize, kind, limit as usize);
    crate::flat(x.made, x.outcome)
}

// Write 512 bytes at block r of file f.
#[unsafe(no_mangle)]
pub extern "C" fn perq_write(
    image: &mut [u8],
    drive: u32,
    s: u32,
    f: u32,
    r: u32,
    buffer: &[u8],
    limit: u32,
) -> PerqAnswer
    ensures { Changed limit (planned drive image.old s (write f r buffer.now)) image.old image.new result }
{
    let x = write::write(
        image,
        drive as usize,
        s as usize,
        f as usize,
        r as usize,
        buffer,
        limit as usize,
    );
    crate::flat(x.made, x.outcome)
}

// Set the description of file f.
#[unsafe(no_mangle)]
pub extern "C" fn perq_describe(
    image: &mut [u8],
    drive: u32,
    s: u32,
    f: u32,
    buffer: &[u8],
    limit: u32,
) -> PerqAnswer
    ensures { Changed limit (planned drive image.old s (describe f buffer.now)) image.old image.new result }
{
    let x = change::describe(
        image,
        drive as usize,
        s as usize,
        f as usize,
        buffer,
        limit as usize,
    );
    crate::flat(x.made, x.outcome)
}

// Destroy file f.
#[unsafe(no_mangle)]
pub extern "C" fn perq_destroy(
    image: &mut [u8],
    drive: u32,
    s: u32,
    f: u32,
    limit: u32,
) -> PerqAnswer
    ensures { Changed limit (planned drive image.old s (destroy f)) image.old image.new result }
{
    let x = destroy::destroy(
        image,
        drive as usize,
        s as usize,
        f as usize,
        limit as usize,
    );
    crate::flat(x.made, x.outcome)
}

// Repair the partition.
#[unsafe(no_mangle)]
pub extern "C" fn perq_repair(image: &mut [u8], drive: u32, s: u32, limit: u32) -> PerqAnswer
    ensures { Changed limit (planned drive image.old s repair) image.old image.new result }
{
    let x = repair::repair(image, drive as usize, s as usize, limit as usize);
    crate::flat(x.made, x.outcome)
}
