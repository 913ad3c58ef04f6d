// Which farm an order at the dairy prefers.
ghost use Rattle.std.specs.Prelude.{◌≡◌};
ghost use Rattle.collection.specs.Choice.{order_of, preference_of};

// Among equally long drives each prefers the smaller number.
#[derive(Clone, Copy, PartialEq, Eq, Debug)]
pub enum Preference {
    Nearest,
    Farthest,
    Smallest,
}

impl From<u32> for Preference {
    ghost from_gives = { λ order preference. preference ≡ preference_of order };

    fn from(order: u32) -> Preference {
        match order {
            1 => Preference::Farthest,
            2 => Preference::Smallest,
            _ => Preference::Nearest,
        }
    }
}

impl From<Preference> for u32 {
    ghost from_gives = { λ preference order. order ≡ order_of preference };

    fn from(preference: Preference) -> u32 {
        preference as u32
    }
}
