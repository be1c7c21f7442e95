// Names that can be typed: whether a description's name is good, as describe wants it, and the call `name`, which says the rule that a
// name breaks and where.
#![tactic(auto)]

ghost use Rattle.std.specs.Prelude.{◌≡◌, length};
ghost use Rattle.volume.specs.Names.{good_name, name_answer};
ghost use Rattle.volume.specs.Calls.{lent_text};

use base::Refusal;
use rules::Name;
use volume::{Lent, Outcome, Rule, Unfit};

mod rules; // rules.rt: the name in a description, and the rule that it breaks at a place

// The bytes of a description.
pub const DESCRIPTION: usize = 104;

// The call `name`: 3; the number of the rule that is broken and its place, counted from 1.
#[tactic(auto, using(crate::specs::Laws::found_inside), unfolding(volume::specs::Names::name_answer))]
pub fn name(text: &[u8]) -> Outcome
    ensures { result ≡ name_answer text.now }
{
    if text.len() != DESCRIPTION {
        return Err(Refusal::BadBuffer);
    }
    let Some(name) = Name::of(text) else {
        return Ok(Some((usize::from(Rule::Length), 0, 0)));
    };
    match name.first_broken() {
        Some(i) => Ok(Some((name.broken(i).map_or(0, usize::from), i + 1, 0))),
        None => Ok(Some((0, 0, 0))),
    }
}

// Whether describe takes the name.
#[tactic(auto, using(crate::specs::Laws::good_is), unfolding(base::specs::Tests::both))]
fn is_good(text: &[u8]) -> bool
    requires { length text.now ≡ 104 }
    ensures { result ≡ good_name text.now }
{
    match Name::of(text) {
        Some(name) => name.first_broken().is_none(),
        None => false,
    }
}

// The description that describe is lent: 3 and 12.
#[tactic(auto, unfolding(volume::specs::Calls::lent_text))]
pub fn lent(text: &[u8]) -> Lent
    ensures { result ≡ lent_text text.now }
{
    if text.len() != DESCRIPTION {
        return Err(Unfit::Length);
    }
    if is_good(text) {
        Ok(())
    } else {
        Err(Unfit::Name)
    }
}
