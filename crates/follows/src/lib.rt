// What a study holds, as plain values, and that it follows the pair account: one relation, which every call keeps.
// It knows no tables and no calendar's insides. Each function here names a theorem over every model that keeps the law.
#![tactic(auto)]

ghost use Rattle.follows.specs.Accounted.{AccountedAfter, AccountedAlike, AccountedAlways, AccountedBegun, AnswersAlike};
ghost use Rattle.follows.specs.Claims.{AlikeFollows, CellsAreFound, CountsAgree, FollowsKept};
ghost use Rattle.follows.specs.Ready.{HeadsFew, LeadersStay, TurnsReady};
ghost use Rattle.follows.specs.Rooms.{FrontTaken, PutsAccepted, RoomIsFound};

// After every call that is accepted the study goes on following.
pub fn following_kept()
    ensures { FollowsKept }
{}

// What variants that are not live have, at places past the last and in cells past the 128, is of no matter.
pub fn alike_following()
    ensures { AlikeFollows }
{}

// What the study counts is what the account counts; of a step and of an order, before anything is changed.
pub fn counts_agree()
    ensures { CountsAgree }
{}

// A free cell is found wherever a group is to be parted from others.
pub fn cells_found()
    ensures { CellsAreFound }
{}

// A new study follows the account before the first call.
pub fn accounted_begun()
    ensures { AccountedBegun }
{}

// One that holds the same as far as it matters follows the same account.
pub fn accounted_alike()
    ensures { AccountedAlike }
{}

// A study that follows an account answers each call as the account does, refusals and readings too.
pub fn answers_alike()
    ensures { AnswersAlike }
{}

// And it goes on following after each call, denied or not.
pub fn accounted_after()
    ensures { AccountedAfter }
{}

// So it does after any list of calls.
pub fn accounted_always()
    ensures { AccountedAlways }
{}

// Where a calendar has room for several messages, it denies none of them.
pub fn puts_accepted()
    ensures { PutsAccepted }
{}

// In a load or a step that is not refused, the calendar has room for all that is put.
pub fn room_found()
    ensures { RoomIsFound }
{}

// The messages with the smallest key stand in front, so that taking as many leaves the others.
pub fn front_taken()
    ensures { FrontTaken }
{}

// Each group that runs in a step that is not refused can: its place can count what it sends, the study its executions, and the calendar has room.
pub fn turns_ready()
    ensures { TurnsReady }
{}

// In a step that is not refused, its turns change nobody's leading before that one's own.
pub fn leaders_stay()
    ensures { LeadersStay }
{}

// No more messages have the smallest key than variants can be made.
pub fn heads_few()
    ensures { HeadsFew }
{}
