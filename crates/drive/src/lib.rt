// Addresses of blocks on the four drives. An address of two words is one number, low word + 65536 * high word. A drive is a number and no enum:
// what is promised here, as by `address` and `lbn_to_pda`, is promised of each number, and one above 3 is refused at the calls alone.
#![tactic(auto)]

ghost use Rattle.std.specs.Prelude.{◌≡◌, MatchResult, ◌*◌, ◌/◌, ◌%◌, ◌<◌, ◌≤◌, eqb};
ghost use Rattle.drive.specs.Code.{place_number};
ghost use Rattle.drive.specs.Rows.{pda_code, micropolis};
ghost use Rattle.drive.specs.Address.{blocks, pda, pda_block, or_nil, lda, lda_block, is_lda, address, file_id, file_id_block, file_ids};
ghost use Rattle.drive.specs.Ranges.{block_of};
ghost use Rattle.drive.specs.Answers.{lbn_to_pda, pda_to_lbn, lbn_to_lda, lda_to_lbn, lbn_to_file_id, file_id_to_lbn};
ghost use Rattle.base.specs.declared.Refusal.TheVariants.{BadImage};

use base::Refusal;
use place::{boot, place};

mod place; // place.rt: the place that a physical address names

// How many blocks a drive has. The Micropolis is asked for first, as in `place`, so that the compiler asks once for both.
pub fn blocks(drive: usize) -> usize
    ensures { (result ≡ blocks drive) × (result ≤ 69552) }
{
    if drive == 2 {
        return 69552;
    }
    if 2 < drive {
        return 432;
    }
    if drive == 0 { 24210 } else { 48450 }
}

// How many blocks of a drive have a FileID.
fn file_ids(drive: usize) -> usize
    ensures { result ≡ file_ids drive }
{
    match drive {
        0 => 24210,
        1 => 48450,
        2 => 57344,
        _ => 432,
    }
}

// The physical address of place x of the Micropolis: c is the cylinder, and t counts the tracks of all cylinders. Track and sector are
// what multiplying back leaves, so that there are two divisions.
fn micropolis(x: usize) -> usize
    requires { x < 4294967344 }
    ensures { result ≡ place_number (pda_code micropolis) x }
{
    let t = x / 24;
    let c = t / 5;
    c * 65536 + (t - 5 * c) * 256 + (x - 24 * t)
}

// The physical address of block b, which fits a pair of words if a drive has the block. Each drive's numbers stand here as constants, so
// that no division is by a variable.
pub fn pda(drive: usize, b: usize) -> usize
    requires { b < 4294967296 }
    ensures { (result ≡ pda drive b) × ((b < 69552) → (result < 4294967296)) }
{
    match drive {
        0 => (b + 30) / 30 / 4 * 256 + (b + 30) / 30 % 4 * 32 + (b + 30) % 30,
        1 => (b + 30) / 30 / 8 * 256 + (b + 30) / 30 % 8 * 32 + (b + 30) % 30,
        2 => micropolis(b + 48),
        _ => (b + 30) / 6 * 65536 + (b + 30) % 6 * 4 + 3,
    }
}

// The physical address of block b, or nil for 0.
pub fn or_nil(drive: usize, b: usize) -> usize
    requires { b < 69552 }
    ensures { (result ≡ or_nil drive b) × (result < 4294967296) }
{
    if b == 0 { 0 } else { pda(drive, b) }
}

// The only block that can have the physical address x.
pub fn pda_block(drive: usize, x: usize) -> usize
    requires { x < 4294967296 }
    ensures { (result ≡ pda_block drive x) × (result < 4294967296) }
{
    match drive {
        0 => ((x / 256 * 4 + x % 256 / 32) * 30 + x % 256 % 32).saturating_sub(30),
        1 => ((x / 256 * 8 + x % 256 / 32) * 30 + x % 256 % 32).saturating_sub(30),
        2 => ((x / 65536 * 5 + x % 65536 / 256) * 24 + x % 65536 % 256).saturating_sub(48),
        _ => (x / 65536 * 6 + x % 65536 / 4).saturating_sub(30),
    }
}

// The block whose physical address x is; 0 where it is no block's, and for block 0, which is in no partition.
pub fn block_of(drive: usize, x: usize) -> usize
    requires { x < 4294967296 }
    ensures { (result ≡ block_of drive x) × (result < 4294967296) }
{
    place(drive, x).saturating_sub(boot(drive))
}

// Whether x is the physical address of block b: it is asked which place x names, and b is not numbered.
pub fn is_pda(drive: usize, x: usize, b: usize) -> bool
    requires { (x < 4294967296) × (b < 4294967296) }
    ensures { result ≡ eqb x (pda drive b) }
{
    place(drive, x) == b + boot(drive)
}

// The logical address of block b, which fits a pair of words if a drive has the block.
pub fn lda(drive: usize, b: usize) -> usize
    requires { b < 4294967296 }
    ensures { (result ≡ lda drive b) × ((b < 69552) → (result < 4294967296)) }
{
    if drive < 3 {
        (b + 12582912) * 256
    } else {
        (b + 14680064) * 256
    }
}

// The only block that can have the logical address x.
pub fn lda_block(drive: usize, x: usize) -> usize
    ensures { (result ≡ lda_block drive x) × (256 * result ≤ x) }
{
    if drive < 3 {
        (x / 256).saturating_sub(12582912)
    } else {
        (x / 256).saturating_sub(14680064)
    }
}

// The block whose logical address x is, where it is known to be that of one: what is above its bits is the drive's.
pub fn known_lda(x: usize) -> usize
    ensures { result ≡ x / 256 % 2097152 }
{
    x / 256 % 2097152
}

// Whether x decodes to block b as a logical address, whatever its reserved bits.
pub fn is_lda(drive: usize, x: usize, b: usize) -> bool
    requires { b < 4294967296 }
    ensures { result ≡ is_lda drive x b }
{
    x / 256 * 256 == lda(drive, b)
}

// The logical address of block b as it is written over `old`, which stays where it names b already.
pub fn address(drive: usize, old: usize, b: usize) -> usize
    requires { (old < 4294967296) × (b < 69552) }
    ensures { (result ≡ address drive old b) × (result < 4294967296) }
{
    if is_lda(drive, old, b) {
        old
    } else {
        lda(drive, b)
    }
}

// The drive of a number, if there is one. Behind it each conversion has its own few lines: one function of them all would take the count and the
// address as closures, and its contract would be theirs.
fn known(drive: u32) -> Result<usize, Refusal>
    ensures { MatchResult result (λ d. (d ≡ drive) × (d ≤ 3)) (λ why. (why ≡ BadImage) × (3 < drive)) }
{
    if 3 < drive {
        return Err(Refusal::BadImage);
    }
    Ok(drive as usize)
}

// LBN to physical address, which is not worked out for a number that no block has.
#[tactic(auto, unfolding(crate::specs::Answers::lbn_to_pda, base::specs::Tests::both))]
pub fn lbn_to_pda(drive: u32, lbn: u32) -> Result<usize, Refusal>
    ensures { result ≡ lbn_to_pda drive lbn }
{
    let d = known(drive)?;
    let b = lbn as usize;
    if b < blocks(d) {
        Ok(pda(d, b))
    } else {
        Err(Refusal::NoAddress)
    }
}

// Physical address to LBN: the place that the address names, counted from that of block 0.
#[tactic(auto, unfolding(crate::specs::Answers::pda_to_lbn, base::specs::Tests::both))]
pub fn pda_to_lbn(drive: u32, address: u32) -> Result<usize, Refusal>
    ensures { result ≡ pda_to_lbn drive address }
{
    let d = known(drive)?;
    let p = place(d, address as usize);
    let o = boot(d);
    if p < o {
        return Err(Refusal::NoAddress);
    }
    if p - o < blocks(d) {
        Ok(p - o)
    } else {
        Err(Refusal::NoAddress)
    }
}

// LBN to logical address.
#[tactic(auto, unfolding(crate::specs::Answers::lbn_to_lda, base::specs::Tests::both))]
pub fn lbn_to_lda(drive: u32, lbn: u32) -> Result<usize, Refusal>
    ensures { result ≡ lbn_to_lda drive lbn }
{
    let d = known(drive)?;
    let b = lbn as usize;
    if b < blocks(d) {
        Ok(lda(d, b))
    } else {
        Err(Refusal::NoAddress)
    }
}

// Logical address to LBN.
#[tactic(auto, unfolding(crate::specs::Answers::lda_to_lbn, base::specs::Tests::both))]
pub fn lda_to_lbn(drive: u32, address: u32) -> Result<usize, Refusal>
    ensures { result ≡ lda_to_lbn drive address }
{
    let d = known(drive)?;
    let x = address as usize;
    let b = lda_block(d, x);
    if b < blocks(d) && is_lda(d, x, b) {
        Ok(b)
    } else {
        Err(Refusal::NoAddress)
    }
}

// The FileID of block b.
fn file_id(drive: usize, b: usize) -> usize
    requires { b < 4294967296 }
    ensures { result ≡ file_id drive b }
{
    if drive < 3 { b } else { b + 57344 }
}

// The only block that can have the FileID x.
fn file_id_block(drive: usize, x: usize) -> usize
    ensures { (result ≡ file_id_block drive x) × (result ≤ x) }
{
    if drive < 3 {
        x
    } else {
        x.saturating_sub(57344)
    }
}

// LBN to FileID.
#[tactic(auto, unfolding(crate::specs::Answers::lbn_to_file_id, base::specs::Tests::both))]
pub fn lbn_to_fileid(drive: u32, lbn: u32) -> Result<usize, Refusal>
    ensures { result ≡ lbn_to_file_id drive lbn }
{
    let d = known(drive)?;
    let b = lbn as usize;
    if b < file_ids(d) {
        Ok(file_id(d, b))
    } else {
        Err(Refusal::NoAddress)
    }
}

// FileID to LBN.
#[tactic(auto, unfolding(crate::specs::Answers::file_id_to_lbn, base::specs::Tests::both))]
pub fn fileid_to_lbn(drive: u32, id: u32) -> Result<usize, Refusal>
    ensures { result ≡ file_id_to_lbn drive id }
{
    let d = known(drive)?;
    let x = id as usize;
    let b = file_id_block(d, x);
    if b < file_ids(d) && file_id(d, b) == x {
        Ok(b)
    } else {
        Err(Refusal::NoAddress)
    }
}
