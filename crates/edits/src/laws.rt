// Laws of edits, each the contract of a function that computes nothing.
ghost use Rattle.edits.specs.Commands.{EditsUndone, EditsKeepProper};
ghost use Rattle.edits.specs.Journals.{JournalLaw};
ghost use Rattle.edits.specs.Replace.{ReplaceAccepted, ReplaceStep, ReplaceEnd, ReplaceLaw};

// Every accepted edit is taken back by its opposite, and a journal of opposites takes back any list of edits.
pub fn edits_are_undone()
    ensures kept { EditsKeepProper }
    ensures undone { EditsUndone }
    ensures journal { JournalLaw }
{}

// Replacing use by use is replacing everywhere.
pub fn replace_goes_use_by_use()
    ensures accepted { ReplaceAccepted }
    ensures step { ReplaceStep }
    ensures end { ReplaceEnd }
    ensures whole { ReplaceLaw }
{}
