// The calls that read directories, for a host.
ghost use Rattle.std.specs.Prelude.{◌≡◌, length};
ghost use Rattle.directory.specs.Directory.{look_up, treed};
ghost use Rattle.image.specs.Stores.{lay};
ghost use Rattle.perq.specs.Flat.{flat};

use crate::PerqAnswer;

// The file that a path leads to.
#[unsafe(no_mangle)]
pub extern "C" fn perq_look_up(
    image: &[u8],
    drive: u32,
    s: u32,
    rule: &[u8],
    path: &[u8],
) -> PerqAnswer
    ensures { result ≡ flat 0 (look_up drive image.now s rule.now path.now) }
{
    crate::flat(
        0,
        directory::look_up(image, drive as usize, s as usize, rule, path),
    )
}

// The tree, as many rows of 32 bytes as fit.
#[unsafe(no_mangle)]
pub extern "C" fn perq_tree(
    image: &[u8],
    drive: u32,
    s: u32,
    rule: &[u8],
    rows: &mut [u8],
) -> PerqAnswer
    ensures { (result ≡ flat 0 (treed drive image.now s rule.now (length rows.old)).outcome) × (rows.new ≡ lay rows.old 0 (treed drive image.now s rule.now (length rows.old)).rows) }
{
    crate::flat(0, tree::tree(image, drive as usize, s as usize, rule, rows))
}
