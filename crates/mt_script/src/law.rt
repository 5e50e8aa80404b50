//! Laws of the definitions that contracts cite, on a function that does nothing.
ghost use Rattle.std.specs.Prelude.{◌≡◌, ◌<◌, ℕ, List, ◌++◌, length, None};
ghost use Rattle.std.specs.List.{All};
ghost use Rattle.mt_script.specs.Commands.{GoesOn, IsCommand, command_text, script_text};
ghost use Rattle.mt_script.specs.Scripts.{script_of};
ghost use Rattle.mt_script.specs.Steps.{Found, max_commands, next_of};
ghost use Rattle.mt_script.specs.declared.command.Command.{Command};
ghost use Rattle.mt_script.specs.declared.command.Command.TheVariants.{End};

/// Does nothing, and carries the laws of scripts: what is written is read again, whatever follows it; what is read was
/// written; and the script of commands that are written one after another, with an `end` after them, is they.
pub fn law_of_scripts()
    ensures written { (n : ℕ) (command : Command) (rest : List ℕ) → IsCommand command → n < max_commands → next_of n (command_text command ++ rest) ≡ Found command rest }
    ensures text { (n : ℕ) (bytes : List ℕ) (command : Command) (rest : List ℕ) → next_of n bytes ≡ Found command rest → bytes ≡ command_text command ++ rest }
    ensures command { (n : ℕ) (bytes : List ℕ) (command : Command) (rest : List ℕ) → next_of n bytes ≡ Found command rest → IsCommand command }
    ensures count { (n : ℕ) (bytes : List ℕ) (command : Command) (rest : List ℕ) → next_of n bytes ≡ Found command rest → n < max_commands }
    ensures script { (commands : List Command) (more : List ℕ) → All IsCommand commands → All GoesOn commands
        → length commands < max_commands
        → script_of (script_text commands ++ command_text End ++ more) ≡ record { commands = commands; ending = None } }
{}
