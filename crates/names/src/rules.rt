// The name in a description, and the rule that it breaks at a place (docs/FORMAT.md, 7.8).
ghost use Rattle.std.specs.Prelude.{◌≡◌, ◌≤◌, ◌<◌, length, is_some, IfSome};
ghost use Rattle.volume.specs.Names.{control, reserved, good_length, name_length, has, final, dots, broken, first_broken};

use volume::Rule;

// Where the length of the name and its characters stand in a description.
const LENGTH: usize = 22;

const CHARACTERS: usize = 23;

// The most characters of a name.
const MOST: usize = 80;

const DELETE: u8 = 127;

// Whether a character is a control character.
#[tactic(auto, unfolding(volume::specs::Names::control))]
fn control(c: u8) -> bool
    ensures { result ≡ control c }
{
    c < b' ' || c == DELETE
}

#[tactic(auto, unfolding(volume::specs::Names::reserved))]
fn reserved(c: u8) -> bool
    ensures { result ≡ reserved c }
{
    matches!(c, b'<' | b'/' | b':')
}

// Whether a name may have n characters.
#[tactic(auto, unfolding(volume::specs::Names::good_length, base::specs::Tests::both))]
fn good_length(n: usize) -> bool
    ensures { result ≡ good_length n }
{
    1 <= n && n <= MOST
}

// The name in a description, of a length that a name may have.
#[derive(Clone, Copy)]
pub(crate) struct Name<'a> {
    text: &'a [u8],
    count: usize,
    ghost whole: { length text.now ≡ 104 },
    ghost counted: { count ≡ name_length text.now },
    ghost few: { count ≤ 80 },
}

impl<'a> Name<'a> {
    // None for a name of another length.
    #[tactic(auto, using(crate::specs::Laws::length_most))]
    pub(crate) fn of(text: &'a [u8]) -> Option<Self>
        requires { length text.now ≡ 104 }
        ensures found { is_some result ≡ good_length (name_length text.now) }
        ensures same { IfSome result (λ name. name.text.now ≡ text.now) }
    {
        let count = text[LENGTH] as usize;
        if good_length(count) {
            Some(Name { text, count })
        } else {
            None
        }
    }

    // Whether the name has character c at place i.
    #[tactic(auto, unfolding(volume::specs::Names::has, base::specs::Tests::both))]
    fn has(&self, i: usize, c: u8) -> bool
        ensures { result ≡ has self.now.text.now i c }
    {
        i < self.count && self.text[CHARACTERS + i] == c
    }

    // Whether place i is the last of the name and has ">".
    #[tactic(auto, using(crate::specs::Laws::final_is, crate::specs::Laws::final_not))]
    fn is_final(&self, i: usize) -> bool
        requires { i < self.now.count }
        ensures { result ≡ final self.now.text.now i }
    {
        i + 1 == self.count && self.has(i, b'>')
    }

    // Whether ">.>" or ">..>" starts at place i of the name.
    #[tactic(auto, using(crate::specs::Laws::dots_is), unfolding(base::specs::Tests::both))]
    fn dots(&self, i: usize) -> bool
        requires { i < self.now.count }
        ensures { result ≡ dots self.now.text.now i }
    {
        self.has(i, b'>')
            && self.has(i + 1, b'.')
            && (self.has(i + 2, b'>') || self.has(i + 2, b'.') && self.has(i + 3, b'>'))
    }

    // The rule that the name breaks at place i.
    #[tactic(auto, unfolding(volume::specs::Names::broken))]
    pub(crate) fn broken(&self, i: usize) -> Option<Rule>
        requires { i < self.now.count }
        ensures { result ≡ broken self.now.text.now i }
    {
        let c = self.text[CHARACTERS + i];
        if control(c) {
            Some(Rule::Control)
        } else if reserved(c) {
            Some(Rule::Reserved)
        } else if self.is_final(i) {
            Some(Rule::Final)
        } else if self.dots(i) {
            Some(Rule::Dots)
        } else {
            None
        }
    }

    // The first place at which the name breaks a rule.
    pub(crate) fn first_broken(&self) -> Option<usize>
        ensures { result ≡ first_broken self.now.text.now }
    {
        (0..self.count).find(|&i| self.broken(i).is_some())
    }
}
