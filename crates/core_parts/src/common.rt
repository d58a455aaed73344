//! What the events of the scrubber have in common: whether the core is shut, room in the journal for
//! their entries, a fault of the device that is noted, and what is known of btrees and units.

mod kinds;
mod stops;

pub use kinds::{
    edit_place, is_good, is_unit_sick, is_unit_stood, judged_good, mark_sick, set_passed,
    space_trust,
};
pub use stops::{add_entry, entry_room, note_fault, say_verdict, stop_by, unless_shut};
