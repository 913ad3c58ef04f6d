// The call that a command asks for.
ghost use Rattle.std.specs.Prelude.{◌≡◌};
ghost use Rattle.session.specs.Asking.{call_for};

use history::Call;
use script::Command;

// A load, steps and a journal need more than their command tells.
pub fn call_of(command: Command) -> Option<Call>
    ensures { result ≡ call_for command }
{
    match command {
        Command::Branch { variant } => Some(Call::Branch { variant }),
        Command::Decide {
            variant,
            place,
            order,
        } => Some(Call::Decide {
            variant,
            place,
            order,
        }),
        Command::Waive { variant } => Some(Call::Waive { variant }),
        Command::Retire { variant } => Some(Call::Retire { variant }),
        Command::Events { variant } => Some(Call::Events { variant }),
        Command::Entry { variant, position } => Some(Call::Entry {
            variant,
            position: position as usize,
        }),
        Command::Place { variant, place } => Some(Call::Place { variant, place }),
        Command::Next { variant } => Some(Call::Next { variant }),
        Command::Shares {
            variant,
            other,
            place,
        } => Some(Call::Shares {
            variant,
            other,
            place,
        }),
        Command::Group { variant, place } => Some(Call::Group { variant, place }),
        Command::Totals => Some(Call::Totals),
        _ => None,
    }
}
