//! Sizing: how many pages a program needs so that no malloc is refused for space, whatever the order
//! of its calls. The program declares what it has live at most: objects by length, in one or several
//! modes, or a budget. `least_pages`, `pages_with_mode` and `pages_needed` compute the number;
//! `is_certified`, `are_budget_levels` and `is_budget_certificate` test one that an unproved planner
//! found. The functions without arguments do nothing, and their contracts are laws.
#![tactic(auto)]

mod budget;
mod budget_certificate;
mod by_numbers;
mod certificate;
mod count;
mod heaps;
mod laws;
mod least;
mod modes;
mod points;
mod resizes;
mod shared;

pub use budget::{
    fewer_pages_than_a_budget_affords_refuse, pages_for_a_budget_serve,
    pages_that_a_budget_affords_serve,
};
pub use budget_certificate::{are_budget_levels, is_budget_certificate};
pub use by_numbers::{NeedsFault, pages_needed};
pub use certificate::{ENTRIES, ModeNeeds, PointPages, is_certified};
pub use heaps::{
    no_call_within_the_needs_is_refused_space, no_free_within_the_needs_moves_an_object,
    no_malloc_within_the_modes_is_refused_space,
};
pub use laws::{
    enough_pages_serve, fewer_pages_refuse, nothing_must_move, pages_follow_the_most_live,
};
pub use least::{least_pages, pages_with_mode};
pub use modes::{
    certified_pages_serve, fewer_pages_for_modes_refuse, pages_for_modes_serve,
    pages_for_modes_serve_at_bound_one,
};
pub use quota_model::{CLASSES, Need};
