// The six rules and their numbers, and the change that each makes at a number, over any store.
ghost use Rattle.std.specs.Prelude.{◌≡◌};
ghost use Rattle.rules.specs.Changes.{change_of, change_by, rule_at, Names};

use crate::change::Change;
use crate::folds::fold;
use crate::matching::{dead, fixed, same};
use crate::powers::power;
use crate::twins::twin;
use program::store::Store;

// The rules in the order in which they are tried. Their numbers are the positions in this list, from 1.
#[derive(Clone, Copy, PartialEq, Eq)]
pub enum Rule {
    Dead,
    Fold,
    Same,
    Fixed,
    Twin,
    Power,
}

// No rule has this number.
#[derive(Clone, Copy, PartialEq, Eq)]
pub struct UnknownRule {
    pub number: u32,
}

// The rule of a number.
impl TryFrom<u32> for Rule {
    type Error = UnknownRule;

    ghost try_from_gives = { Names };

    fn try_from(number: u32) -> Result<Rule, UnknownRule> {
        match number {
            1 => Ok(Rule::Dead),
            2 => Ok(Rule::Fold),
            3 => Ok(Rule::Same),
            4 => Ok(Rule::Fixed),
            5 => Ok(Rule::Twin),
            6 => Ok(Rule::Power),
            _ => Err(UnknownRule { number }),
        }
    }
}

impl Rule {
    // The change that the rule makes at a number.
    pub fn change_at<S: Store>(self, store: &S, n: u32) -> Option<Change>
        ensures { change_of result ≡ change_by self (S.program store.now) n }
    {
        match self {
            Rule::Dead => dead(store, n),
            Rule::Fold => fold(store, n),
            Rule::Same => same(store, n),
            Rule::Fixed => fixed(store, n),
            Rule::Twin => twin(store, n),
            Rule::Power => power(store, n),
        }
    }
}

// The change that the rule of a number, 1 to 6, makes at n; there is no other rule, and so no change. It is asked by number,
// since what was promised for any number has to stand.
pub fn change_at<S: Store>(store: &S, rule: u32, n: u32) -> Option<Change>
    ensures { change_of result ≡ rule_at (S.program store.now) rule n }
{
    Rule::try_from(rule).ok()?.change_at(store, n)
}
