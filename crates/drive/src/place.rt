// Which place of a drive a physical address names, by its cylinder, track and sector. Every drive has them in units that are powers of
// two, so nothing is divided by anything else, and no place is numbered again.
ghost use Rattle.std.specs.Prelude.{◌≡◌, ◌+◌, ◌*◌, ◌<◌, ◌≤◌, ltb};
ghost use Rattle.base.specs.Tests.{both, pick};
ghost use Rattle.drive.specs.Rows.{pda_code};
ghost use Rattle.drive.specs.Laws.{row_of};
ghost use Rattle.drive.specs.Ranges.{place_of};

// The place of block 0, behind the boot area.
pub fn boot(drive: usize) -> usize
    ensures { (result ≡ (row_of drive).boot) × (result ≤ 48) }
{
    if drive == 2 { 48 } else { 30 }
}

// The place that a cylinder, track and sector are, so many tracks to a cylinder and sectors to a track; 0, which is in every boot area,
// where one of them is out of range.
fn in_range(cylinder: usize, track: usize, sector: usize, tracks: usize, sectors: usize) -> usize
    requires { (cylinder < 16777216) × (tracks ≤ 8) × (sectors ≤ 30) }
    ensures value { result ≡ pick (both (ltb track tracks) (ltb sector sectors)) ((cylinder * tracks + track) * sectors + sector) 0 }
    ensures upper_bound { result < 4294967296 }
{
    if track < tracks {
        if sector < sectors {
            return (cylinder * tracks + track) * sectors + sector;
        }
    }
    0
}

// The place whose physical address x is, or 0. A Shugart drive has 4 tracks, or 8; the sectors of a floppy are numbered 3, 7, .. 23.
pub fn place(drive: usize, x: usize) -> usize
    requires { x < 4294967296 }
    ensures { (result ≡ place_of (pda_code (row_of drive)) x) × (result < 4294967296) }
{
    if drive == 2 {
        return in_range(x / 65536, x % 65536 / 256, x % 256, 5, 24);
    }
    if drive < 2 {
        return in_range(x / 256, x % 256 / 32, x % 32, 4 * drive + 4, 30);
    }
    if x % 4 == 3 {
        in_range(x / 65536, 0, x % 65536 / 4, 1, 6)
    } else {
        0
    }
}
