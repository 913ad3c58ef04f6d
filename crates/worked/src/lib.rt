// Ten cases and a history worked on paper, shown of the rules of the models, of the day run alone and of the pair account.
#![tactic(auto)]

ghost use Rattle.std.specs.Prelude.{◌≡◌, length};
ghost use Rattle.worked.specs.History.{WorkedHistory, calls};
ghost use Rattle.worked.specs.Worked.{Worked};

// How many cases there are. Its contract is the table of them.
pub fn worked_cases() -> u8
    ensures cases { Worked }
    ensures count { result ≡ 10 }
{
    10
}

// How many calls of a study a longer history has. Its contract tells what each of them answers, and what may be read then.
pub fn worked_history() -> u8
    ensures history { WorkedHistory }
    ensures count { result ≡ length calls }
{
    20
}
