// How many groups variants form over all places, by who shares a place.
ghost use Rattle.std.specs.Prelude.{◌≡◌, ℕ, ◌≤◌, Bool, true, false, ◌&&◌, ◌||◌, ◌==◌, not, List, if◌then◌else◌, map};
ghost use Rattle.account.specs.Account.{ind, sum_below};
ghost use Rattle.account.specs.Groups.{leads};
ghost use Rattle.group.specs.Groups.{has};
ghost use Rattle.group.specs.declared.Group.{Group};
ghost use Rattle.copies.specs.Sharing.{groups, shares, shares_decided, shares_stepped, together};
ghost use Rattle.copies.specs.Cells.{cell_of};
ghost use Rattle.copies.specs.Tests.{AllShare, TellsSharing, TellsWhole};

use crate::below::{any, count};
use crate::store::Copies;
use calendar::Held;
use group::{Group, VARIANTS};

// Whether v is live, and no smaller live variant shares the place with it.
fn leads<F: Fn(u8, u8, u8) -> bool>(live: Group, share: &F, p: u8, v: u8) -> bool
    requires { F.IsAlwaysCallable share.now }
    ensures { (f : ℕ → ℕ → ℕ → Bool) → TellsSharing (F.post share.now) f → result ≡ leads (has live) (f p) v }
{
    live.has(v) && !any(v, |w| live.has(w) && share(p, v, w))
}

// How many groups there are at the place p. Where it is whole, all that are live are one.
fn groups_at<F: Fn(u8, u8, u8) -> bool>(live: Group, share: &F, p: u8, whole: bool) -> u32
    requires { F.IsAlwaysCallable share.now }
    ensures value { (f : ℕ → ℕ → ℕ → Bool) → TellsSharing (F.post share.now) f → (whole ≡ true → AllShare (f p)) → result ≡ sum_below (λ v. ind (leads (has live) (f p) v)) 16 }
    ensures few { result ≤ 16 }
{
    if whole {
        u32::from(!live.is_empty())
    } else {
        count(VARIANTS, |v| leads(live, share, p, v))
    }
}

// How many groups there are over all places, of which some are whole.
fn count_groups<W: Fn(u8) -> bool, F: Fn(u8, u8, u8) -> bool>(
    live: Group,
    places: u8,
    whole: W,
    share: F,
) -> u32
    requires whole { W.IsAlwaysCallable whole }
    requires share { F.IsAlwaysCallable share }
    ensures { (f : ℕ → ℕ → ℕ → Bool) → TellsSharing (F.post share) f → TellsWhole (W.post whole) f → result ≡ groups places live f }
{
    let mut groups = 0;
    for p in 0..places {
        groups += groups_at(live, &share, p, whole(p));
    }
    groups
}

// Whether an order for v at a place tells two variants apart at the place p.
fn tells_apart(v: u8, place: u8, p: u8, x: u8, y: u8) -> bool
    ensures { result ≡ (p == place && (not (x == y) && (x == v || y == v))) }
{
    p == place && x != y && (x == v || y == v)
}

// Whether the message is for both or for neither.
fn is_for_both(h: &Held, x: u8, y: u8) -> bool
    ensures { result ≡ (if has h.now.group x then has h.now.group y else not (has h.now.group y)) }
{
    h.group.has(x) == h.group.has(y)
}

// Whether each of these groups has both or neither.
fn stay_together(heads: &[Held], x: u8, y: u8) -> bool
    ensures { result ≡ together (map (λ h. h.group) heads.now) x y }
{
    heads.iter().all(|h| is_for_both(h, x, y))
}

impl Copies {
    // Where it tells so, all variants share the place p, and it is not the other.
    fn is_whole_but(&self, other: u8, p: u8) -> bool
        ensures { result ≡ true → ((p == other) ≡ false) × AllShare (shares (cell_of self.now) p) }
    {
        p != other && self.is_whole(p)
    }

    // No more groups than this once messages have run at the place, or a variant was given an order there: one at each place, and one more for each variant at this place and at those where variants may have different cells.
    pub fn most_groups(&self, live: Group, places: u8, place: u8) -> u32
        ensures stepped { (heads : List Group) → groups places live (shares_stepped (cell_of self.now) heads place) ≤ result }
        ensures decided { (v : ℕ) → groups places live (shares_decided (cell_of self.now) v place) ≤ result }
    {
        u32::from(places) + (self.names.parted_places() + 1) * live.size()
    }

    // The copies in use: one for each group, at each place.
    pub fn groups(&self, live: Group, places: u8) -> u32
        ensures { result ≡ groups places live (shares (cell_of self.now)) }
    {
        count_groups(
            live,
            places,
            |p| self.is_whole(p),
            |p, x, y| self.shares(x, y, p),
        )
    }

    // How many there will be once v is given an order at a place.
    pub fn groups_decided(&self, live: Group, places: u8, v: u8, place: u8) -> u32
        ensures { result ≡ groups places live (shares_decided (cell_of self.now) v place) }
    {
        count_groups(
            live,
            places,
            |p| self.is_whole_but(place, p),
            |p, x, y| self.shares(x, y, p) && !tells_apart(v, place, p, x, y),
        )
    }

    // How many there will be once each of these messages has run at the receiver.
    pub fn groups_stepped(&self, live: Group, places: u8, heads: &[Held], receiver: u8) -> u32
        ensures { result ≡ groups places live (shares_stepped (cell_of self.now) (map (λ h. h.group) heads.now) receiver) }
    {
        count_groups(
            live,
            places,
            |p| self.is_whole_but(receiver, p),
            |p, x, y| self.shares(x, y, p) && (p != receiver || stay_together(heads, x, y)),
        )
    }
}
