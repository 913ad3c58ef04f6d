// Between a script and a study: what a command asks for, what is said in answer, and a calendar and a model of either kind.
#![tactic(auto)]

mod any_calendar;
mod any_model;
mod asking;
mod saying;
mod talk;

pub use any_calendar::AnyCalendar;
pub use any_model::AnyModel;
pub use asking::call_of;
pub use saying::line_of;
pub use talk::Talk;
