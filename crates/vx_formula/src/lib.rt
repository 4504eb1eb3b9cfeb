//! The formula of the index: definitions over rows and fractions, and their laws.
//!
//! The definitions stand in `specs/`, in the order in which a figure is computed; no number of the
//! product means anything but what they say. Each function here is a law about them,
//! and each function of `examples` a worked example.
#![tactic(auto)]

mod answers;
pub mod examples;
mod laws;
pub mod limits;

pub use answers::{ends_decide_or_not, strikes_lie_one_way, term_is_answered};
pub use laws::{
    clear_index_is_decided, closest_pair_is_one, closest_pair_is_there, exponent_is_small,
    far_forward_is_decided, figure_is_not_negative, figure_is_one, figure_lies_in_ends,
    first_opening_refusal_is_one, first_refusal_is_one, first_term_refusal_is_one,
    level_is_not_below_all, level_is_one, level_is_selected, level_rises, rounding_is_half_open,
    selected_rows_are_listed, selected_rows_rise, selection_goes_by_rows, upper_end_is_ceiling,
};
