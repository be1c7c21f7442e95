// What `tapermoss batch` does for a folder, done for small images: sound ones are left, unsound ones repaired in memory, those with a
// malformed file block set aside for a person, and the rest refused. Its words come in twos: an image's file and its drive. No file is
// written, and one that is bad does not stop the rest. The words of the report are those of the tool.
#![tactic(auto)]

ghost use Rattle.std.specs.Prelude.{◌<◌, IfSome};

use std::env::FillError;
use std::io;
use std::rt::{Env, Files};
use table::{Counts, Status};

mod judge; // judge.rt: what comes of an image
mod table; // table.rt: the report

// The bytes of the longest name that is taken. No path is longer.
const NAME: usize = 4096;

// The drive that word i names by its digit, if that is all of it.
fn drive(rt: &impl Env, i: usize) -> Option<usize>
    ensures { IfSome result (λ d. d < 4) }
{
    let mut word = [0u8; 1];
    match rt.arg(i, &mut word) {
        Ok(1) => char::from(word[0]).to_digit(4).map(|d| d as usize),
        _ => None,
    }
}

// Judges the images that the words name, each on the drive of the word behind it, writes their lines, and answers the counts. A word
// that does not fit is taken as an empty name, which is no file's.
fn images(rt: &(impl Env + Files + Print)) -> io::Result<Counts> {
    let mut counts = Counts::default();
    let mut name = [0u8; NAME];
    for pair in 0..usize::MAX / 2 {
        let i = 2 * pair + 1;
        let n = match rt.arg(i, &mut name) {
            Ok(n) => n,
            Err(FillError::TooLong) => 0,
            Err(FillError::NotPresent) => break,
        };
        let found = judge::file(rt, &name[..n], drive(rt, i + 1));
        table::line(rt, &name[..n], &found)?;
        counts.add(Status::of(&found));
    }
    Ok(counts)
}

fn main(rt: HostRuntime) -> io::Result<()> {
    table::head(&rt)?;
    let counts = images(&rt)?;
    println!(rt; "\n{counts}")
}
