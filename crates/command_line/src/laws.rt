// Laws of the numbers of a command, each as the contract of a function that does nothing.
ghost use Rattle.command_line.specs.Ranges.{NumbersOf, RangesOf};
ghost use Rattle.command_line.specs.Help.{HelpIsNoCommand};

/// The numbers of `run` are in the ranges of their rows.
pub fn ranges_of()
    ensures { RangesOf }
{}

/// Each row of the table that takes numbers is among those.
pub fn numbers_of()
    ensures { NumbersOf }
{}

/// Words that ask for help or for the version are those of no command.
pub fn help_is_no_command()
    ensures { HelpIsNoCommand }
{}
