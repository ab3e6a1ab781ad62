// The six rewrite rules: which change each makes at a number, and their laws, each the contract of a function that computes nothing.
#![tactic(auto)]

ghost use Rattle.rules.specs.Changes.{RulesByNumber, RulesListed};
ghost use Rattle.rules.specs.Laws.{RulesKeepOutputs, RulesByCommands, TrialLaw, TrialFirst, SparedPassLaw, SecondPassLaw};

pub mod change;
pub mod folds;
pub mod matching;
pub mod numbered;
pub mod powers;
pub mod twins;

// Each rule keeps a program proper, well formed and its outputs, and is made by commands that the store accepts and a journal takes back.
pub fn rules_keep_outputs()
    ensures kept { RulesKeepOutputs }
    ensures commands { RulesByCommands }
{}

// The rules are those that the numbers 1 to 6 name.
pub fn rules_have_numbers()
    ensures whole { RulesByNumber }
    ensures listed { RulesListed }
{}

// A trial keeps the first rule that lowers the price, or changes nothing.
pub fn trials_lower_prices()
    ensures lower { TrialLaw }
    ensures first { TrialFirst }
{}

// A pass ends where no trial keeps a rule, or where the records run out, and a second one does nothing.
pub fn passes_settle()
    ensures passed { SparedPassLaw }
    ensures again { SecondPassLaw }
{}
