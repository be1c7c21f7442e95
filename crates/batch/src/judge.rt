// What comes of an image: it is read, its only partition found, and a verdict given on that.
ghost use Rattle.std.specs.Prelude.{◌≡◌};
ghost use Rattle.batch.specs.Found.{good, only, looked};

use base::Refusal;
use std::io::{Cursor, Read};
use std::rt::Files;
use std::{fs, io, str};
use verdict::Verdict;

// The bytes of a record, of the longest image that is taken, and of what is read: one more, by which a longer file is known.
pub const RECORD: usize = 528;

const LONGEST: usize = 24 * RECORD;

const ROOM: usize = LONGEST + 1;

// The verdict on the partition at `start` in an image of so many bytes. Where no good partition starts, that is block 0, which is refused.
#[derive(Clone, Copy)]
pub struct Judged {
    pub length: usize,
    pub start: usize,
    pub verdict: Verdict,
}

// Why a file has no verdict: it has several good partitions, is longer than this program takes, or is not read.
#[derive(Clone, Copy)]
pub enum NoVerdict {
    Several,
    Long,
    Unread,
}

// What is found of a file.
pub type Found = Result<Judged, NoVerdict>;

// Whether a good partition starts at s.
fn is_good(img: &[u8], drive: usize, s: usize) -> bool
    ensures { result ≡ good drive img.now s }
{
    inspect::partition(img, drive, s).is_ok()
}

// Where the only good partition is, if there is one.
fn only(img: &[u8], drive: usize) -> Result<Option<usize>, NoVerdict>
    ensures { result ≡ only drive img.now }
{
    let mut found = None;
    for s in 0..img.len() / RECORD {
        if is_good(img, drive, s) {
            if found.is_some() {
                return Err(NoVerdict::Several);
            }
            found = Some(s);
        }
    }
    Ok(found)
}

// What is found of an image; its only partition is repaired where it is not sound. Without a drive it is judged as on one that is not
// there (specs/NoDrive.antt).
fn image(img: &mut [u8], drive: Option<usize>) -> Found
    ensures found { result ≡ (looked drive img.old).found }
    ensures left { img.new ≡ (looked drive img.old).image }
{
    let length = img.len();
    let Some(drive) = drive else {
        return Ok(Judged {
            length,
            start: 0,
            verdict: Verdict::Refused(Refusal::BadImage),
        });
    };
    let start = only(img, drive)?.unwrap_or(0);
    Ok(Judged {
        length,
        start,
        verdict: verdict::partition(img, drive, start),
    })
}

// Reads a file into img, as much of it as there is room for, and answers how many bytes that are. A path that is not UTF-8 names no file.
fn read(rt: &impl Files, path: &[u8], img: &mut [u8]) -> io::Result<usize> {
    let path = str::from_utf8(path).map_err(|_| io::ErrorKind::InvalidFilename)?;
    let room = img.len() as u64;
    let file = fs::open(rt, path)?;
    let n = io::copy(&mut file.take(room), &mut Cursor::new(img))?;
    Ok(n as usize)
}

// What is found of a file. One that is longer than the longest image fills all the room.
pub fn file(rt: &impl Files, path: &[u8], drive: Option<usize>) -> Found {
    let mut img = [0u8; ROOM];
    let n = read(rt, path, &mut img).map_err(|_| NoVerdict::Unread)?;
    if LONGEST < n {
        return Err(NoVerdict::Long);
    }
    image(&mut img[..n], drive)
}
