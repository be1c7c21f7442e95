// Keys: relative numbers in link order, of files without holes. 291 is the FIB, 292 + r block r, 288 - j pointer block -(4+j), 290 and
// 289 are -2 and -3, and 0 is none: `next_key` and `prev_key` of specs/Closed are numbers, and a link to none is nil, which is 0.
// Keys and counts of blocks are plain numbers, since the functions are promised of each number in range, and docs name this module.
ghost use Rattle.std.specs.Prelude.{◌≡◌, ◌≤◌, ◌<◌};
ghost use Rattle.volume.specs.Keys.{up, slot, first, low};
ghost use Rattle.volume.specs.Closed.{stays, has_key, nearest, next_key, prev_key, size_of, leading, entries_of};

use volume::words::{DIRECT, DOUBLE, INDIRECT, SLOTS};

// The keys of the FIB, of block 0 and of pointer block -4, and how many blocks a file can have.
pub const HOME: usize = 291;

pub const FIRST: usize = 292;

pub const POINTER: usize = 288;

pub const REACH: usize = 32767;

// The key of the block that names k.
pub fn up(k: usize) -> usize
    requires { k < 37220 }
    ensures { (result ≡ up k) × (result ≤ 291) }
{
    if 355 < k {
        return POINTER - (k - 356) / 128;
    }
    if 256 < k {
        return HOME;
    }
    290 - (256 - k) / 128
}

// The word of that block at which the entry of k stands. The tests are in this order because a reader knows most of the low ones.
pub fn slot(k: usize) -> usize
    requires { k < 37220 }
    ensures { (result ≡ slot k) × (result < 263) }
{
    if k <= 256 {
        return SLOTS + 2 * ((256 - k) % 128);
    }
    if k <= POINTER {
        return INDIRECT + 2 * (POINTER - k);
    }
    if k <= HOME {
        return DOUBLE + 2 * 290usize.saturating_sub(k);
    }
    if k <= 355 {
        return DIRECT + 2 * (k - FIRST);
    }
    SLOTS + 2 * ((k - 356) % 128)
}

// Whether k is a data block's key behind another one that the same block names.
pub fn stays(k: usize) -> bool
    ensures { result ≡ stays k }
{
    if k <= 292 {
        return false;
    }
    k % 128 != 100
}

// The lowest relative block that pointer block k leads to.
fn first(k: usize) -> usize
    requires { k < 291 }
    ensures { (result ≡ first k) × (result < 65536) }
{
    if k <= POINTER {
        64 + 128 * (POINTER - k)
    } else {
        4160 + 16384 * (290 - k)
    }
}

// The first key of a file with n blocks.
pub fn low(n: usize) -> usize
    requires { n ≤ 32767 }
    ensures { (result ≡ low n) × (1 ≤ result) × (result ≤ 291) }
{
    if n <= 64 { HOME } else { 289 - (n + 63) / 128 }
}

// The key behind -4's in a file with n blocks: that of -3, -2 or the FIB.
pub fn nearest(n: usize) -> usize
    ensures { (result ≡ nearest n) × (289 ≤ result) × (result ≤ 291) }
{
    if n <= 4160 {
        return HOME;
    }
    if n <= 20544 { 290 } else { 289 }
}

// Whether a file with n blocks has key k.
pub fn has_key(n: usize, k: usize) -> bool
    requires { (n ≤ 32767) × (k < 65536) }
    ensures { result ≡ has_key n k }
{
    if k == HOME {
        return true;
    }
    if HOME < k {
        return k - FIRST < n;
    }
    first(k) < n
}

// The key behind k in a file with n blocks, or 0.
pub fn next_key(n: usize, k: usize) -> usize
    requires { (n ≤ 32767) × (k < 65536) }
    ensures { result ≡ next_key n k }
{
    if HOME + n <= k {
        return 0;
    }
    if k == POINTER { nearest(n) } else { k + 1 }
}

// The key before k in a file with n blocks, or 0.
pub fn prev_key(n: usize, k: usize) -> usize
    requires { (n ≤ 32767) × (1 ≤ k) × (k < 65536) }
    ensures { result ≡ prev_key n k }
{
    if k == low(n) {
        return 0;
    }
    if k == nearest(n) { POINTER } else { k - 1 }
}

// How many blocks a file with n data blocks has in use.
pub fn size_of(n: usize) -> usize
    requires { n ≤ 32767 }
    ensures { (result ≡ size_of n) × (result < 65536) }
{
    289usize.saturating_sub(low(n)) + (HOME - nearest(n)) + n + 1
}

// How many entries it takes from the first of pointer block k on to reach the last of n blocks.
fn leading(n: usize, k: usize) -> usize
    requires { (n ≤ 32767) × (k < 291) }
    ensures { (result ≡ leading n k) × (result < 65536) }
{
    let m = n.saturating_sub(first(k));
    if k <= POINTER { m } else { (m + 127) / 128 }
}

// How many entries of pointer block k a file with n blocks asks for.
pub fn entries_of(n: usize, k: usize) -> usize
    requires { (n ≤ 32767) × (k < 291) }
    ensures { (result ≡ entries_of n k) × (result ≤ 128) }
{
    let m = leading(n, k);
    if m < 128 { m } else { 128 }
}
