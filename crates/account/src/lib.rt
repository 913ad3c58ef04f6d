// The pair account: one day run alone for each variant, and for each two variants which places are reached and which messages are marked.
// It knows no copies, no sets and no calendar. Each function here names a theorem over every model that keeps the law and over every history of calls.
#![tactic(auto)]

ghost use Rattle.account.specs.Claims.{AloneStands, BoundedStands, ChainStands, CopiesGroups, CopiesWithin, ExecutionsAdd, ExecutionsGroups, ExecutionsWithin, HistoryAfter, SelfShares, SmallestGiven, SoundStands, TakenGroups, UntouchedSame};
ghost use Rattle.account.specs.Groups.{LeadersCount};

// Reached and marked are symmetric, not reached is an equivalence at each place, and what is not reached is the same in both days.
pub fn sound_account()
    ensures { SoundStands }
{}

// Each live variant's day is the day run alone under its orders.
pub fn days_alone()
    ensures { AloneStands }
{}

// Executions never exceed the events of all variants made, each counted from its load or branch.
pub fn executions_bounded()
    ensures { BoundedStands }
{}

// A place is reached for two live variants exactly if a chain of messages from an order of only one of them touches it.
pub fn chains_reach()
    ensures { ChainStands }
{}

// A place that no chain touches is the same in both days run alone.
pub fn untouched_alike()
    ensures { UntouchedSame }
{}

// Any list of calls leads to an account of accepted calls, to which all of this applies.
pub fn any_history()
    ensures { HistoryAfter }
{}

// There are as many leaders as groups.
pub fn leaders_count_groups()
    ensures { LeadersCount }
{}

// A step's executions are the groups of its receiver, after the step, with a variant that ran.
pub fn executions_are_groups()
    ensures { ExecutionsGroups }
{}

// Copies in use are the groups of all places.
pub fn copies_are_groups()
    ensures { CopiesGroups }
{}

// A step takes one message for each group of those that ran it unmarked.
pub fn taken_are_groups()
    ensures { TakenGroups }
{}

// A variant shares each place with itself.
pub fn shares_itself()
    ensures { SelfShares }
{}

// A step works at least one execution where something waits, and at most one for each variant that ran.
pub fn executions_within()
    ensures { ExecutionsWithin }
{}

// There is at least one copy of each place, and at most one for each live variant.
pub fn copies_within()
    ensures { CopiesWithin }
{}

// A call is denied exactly if one of its cases is met, and with the first of those that are met.
pub fn smallest_refusal()
    ensures { SmallestGiven }
{}

// The total of executions is the sum of what the steps told.
pub fn executions_add()
    ensures { ExecutionsAdd }
{}
