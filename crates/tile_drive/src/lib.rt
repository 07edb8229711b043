//! What drives the attachments of a network, and what happens at them.
//!
//! A [`Drive`] offers words at each attachment, hears what is given out there, and is notified of what was taken and
//! got. Its contract is four functions over a state for each attachment, so that a run may be stated over any driver.
//! [`Seen`] keeps what one cycle shows at each attachment, and [`Events`] what happened in all cycles, in order. How
//! a network answers an offer, and how events are printed, is left to the parts above.
#![tactic(auto)]

mod cycle_seen;
mod driver;
mod event_list;
mod notifying;
mod scripts;
mod seen_events;
mod spans;
mod trace_drive;

pub use cycle_seen::{Seen, SeenAt};
pub use driver::Drive;
pub use event_list::Events;
pub use noc_model::{Event, Kind};
pub use notifying::{notify_got, notify_taken};
pub use seen_events::push_seen;
pub use trace_drive::TraceDrive;

#[cfg(test)]
mod tests;
