// The numbers below n: whether one passes a test, and how many do.
ghost use Rattle.std.specs.Prelude.{◌≡◌, ℕ, ◌≤◌, Bool};
ghost use Rattle.account.specs.Account.{any_below, ind, sum_below};
ghost use Rattle.copies.specs.Tests.{Tells};

// Whether some number below n passes.
pub(crate) fn any<F: Fn(u8) -> bool>(n: u8, test: F) -> bool
    requires { F.IsAlwaysCallable test }
    ensures { (f : ℕ → Bool) → Tells (F.post test) f → result ≡ any_below f n }
{
    (0..n).any(|x| test(x))
}

// How many numbers below n pass.
pub(crate) fn count<F: Fn(u8) -> bool>(n: u8, test: F) -> u32
    requires { F.IsAlwaysCallable test }
    ensures value { (f : ℕ → Bool) → Tells (F.post test) f → result ≡ sum_below (λ x. ind (f x)) n }
    ensures few { result ≤ n }
{
    let mut count = 0;
    for x in 0..n {
        count += u32::from(test(x));
    }
    count
}
