//! What further subcommands leave as it was, and the numbers of commands. The functions do nothing; their contracts are the laws.
ghost use Rattle.std.specs.Prelude.{◌≡◌, ℕ, List, [], ◌∷◌, Some};
ghost use Rattle.command_line.specs.Command.{Command, compile};
ghost use Rattle.command_line.specs.Subcommands.{IsInRange, check_app, compile_app, forward_app, step_app};
ghost use Rattle.command_line.specs.Syntax.{app_with};
ghost use Rattle.command_line.specs.Words.{command, command_by};

/// The words that are a `compile` by the command line that has that subcommand alone are the same
/// `compile`.
pub fn compile_stays()
    ensures { (words : List (List ℕ)) (design defs out : List ℕ) (conflicts rounds : ℕ)
        → command_by (app_with (compile_app ∷ [])) words
        ≡ Some (compile design defs out conflicts rounds)
        → command words ≡ Some (compile design defs out conflicts rounds) }
{}

/// The words that are a command by the command line that has `compile` and `step` alone are the same
/// command.
pub fn compile_and_step_stay()
    ensures { (words : List (List ℕ)) (asked : Command)
        → command_by (app_with (compile_app ∷ step_app ∷ [])) words ≡ Some asked
        → command words ≡ Some asked }
{}

/// The words that are a command by the command line that has `compile`, `step` and `forward` alone are
/// the same command.
pub fn commands_stay()
    ensures { (words : List (List ℕ)) (asked : Command)
        → command_by (app_with (compile_app ∷ step_app ∷ forward_app ∷ [])) words ≡ Some asked
        → command words ≡ Some asked }
{}

/// The words that are a command by the command line that has all subcommands except `update` and `gen`
/// are the same command.
pub fn others_stay()
    ensures { (words : List (List ℕ)) (asked : Command)
        → command_by (app_with (check_app ∷ compile_app ∷ step_app ∷ forward_app ∷ [])) words
        ≡ Some asked → command words ≡ Some asked }
{}

/// The number of conflicts that words ask for is from 1 to 200,000, and that of rounds from 1 to 4,096;
/// that of hosts from 1 to 200, and that of packets from 1 to 100,000.
pub fn numbers_are_in_range()
    ensures { (words : List (List ℕ)) (asked : Command)
        → command words ≡ Some asked → IsInRange asked }
{}
