// The partition, and what the calls answer. The definitions stand in specs/; docs/FORMAT.md has them in words, rule by rule.
#![tactic(auto)]

ghost use Rattle.std.specs.Prelude.{◌≡◌};
ghost use Rattle.volume.specs.Calls.{refusal, completion};
ghost use Rattle.volume.specs.Names.{rule_number};
ghost use Rattle.volume.specs.Outcome.{unfit_refusal};

use base::Refusal;

pub mod words; // words.rt: where the words of a record stand

// A partition: its drive, its first block, which is the PIB, and its last.
#[derive(Clone, Copy)]
pub struct Partition {
    pub drive: usize,
    pub s: usize,
    pub e: usize,
}

// What is wrong with the buffer that a changing call is lent, looked at alone: its length, or the name of a description.
#[derive(Clone, Copy, PartialEq, Eq)]
pub enum Unfit {
    Length,
    Name,
}

impl From<Unfit> for Refusal {
    ghost from_gives = { λ unfit why. why ≡ unfit_refusal unfit };

    fn from(unfit: Unfit) -> Refusal {
        match unfit {
            Unfit::Length => Refusal::BadBuffer,
            Unfit::Name => Refusal::BadName,
        }
    }
}

// The buffer that a changing call is lent: as the call wants it, or what is wrong with it.
pub type Lent = Result<(), Unfit>;

// The rules that a name can break (docs/FORMAT.md, 7.8), in the order of their numbers: the length's, and those of each place. They are told
// here, and not in the crate names, which tests for them, because specs/Names.antt speaks of them.
#[derive(Clone, Copy, PartialEq, Eq)]
pub enum Rule {
    Length,
    Control,
    Reserved,
    Final,
    Dots,
}

// A rule as its number.
impl From<Rule> for usize {
    ghost from_gives = { λ rule n. n ≡ rule_number rule };

    fn from(rule: Rule) -> usize {
        match rule {
            Rule::Length => 1,
            Rule::Control => 2,
            Rule::Reserved => 3,
            Rule::Final => 4,
            Rule::Dots => 5,
        }
    }
}

// The values of a call that is done: three, as an answer in C has them, of which those that the call does not have are 0.
pub type Values = (usize, usize, usize);

// What a call came to: done, with its values, or nothing there; or why it is refused.
pub type Outcome = Result<Option<Values>, Refusal>;

// A call's answer: what it came to, and how many stores it made.
#[derive(Clone, Copy)]
pub struct Answer {
    pub made: usize,
    pub outcome: Outcome,
}

impl Answer {
    // The answer of a changing call that is refused: it made no store.
    pub fn refused(why: Refusal) -> Self
        ensures { result ≡ refusal why }
    {
        Answer {
            made: 0,
            outcome: Err(why),
        }
    }

    // The answer of a changing call that is done, with the value a, after so many stores.
    pub fn done(a: usize, made: usize) -> Self
        ensures { result ≡ completion a made }
    {
        Answer {
            made,
            outcome: Ok(Some((a, 0, 0))),
        }
    }
}

// An image of a pair.
#[derive(Clone, Copy, Debug, PartialEq, Eq)]
pub enum Source {
    Repaired,
    Original,
}

// The answer of show of a pair: what it came to, and whose answer that is.
#[derive(Clone, Copy)]
pub struct PairAnswer {
    pub image: Source,
    pub outcome: Outcome,
}
