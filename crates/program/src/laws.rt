// Laws of programs, each the contract of a function that computes nothing.
ghost use Rattle.program.specs.Laws.{CommandsAccepted, CommandsKeepProper, NewIsProper, FewPlaced};
ghost use Rattle.program.specs.Uses.{UsesLaw};

// A command is accepted exactly if the program allows it.
pub fn commands_are_accepted_exactly()
    ensures { CommandsAccepted }
{}

// A new program is proper, and every command keeps it so.
pub fn commands_keep_programs_proper()
    ensures made { NewIsProper }
    ensures kept { CommandsKeepProper }
{}

// Use lists ascend, name each use exactly once, and are what one reads from the least use up.
pub fn use_lists_are_exact()
    ensures { UsesLaw }
{}

// No more instructions are placed than a program has numbers.
pub fn few_are_placed()
    ensures { FewPlaced }
{}
