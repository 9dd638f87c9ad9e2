// Whether a forbidden set lies among pairs, and whether rows of a constraint on images come from rows.
#![tactic(auto)]

pub mod carried;
pub mod forbidden;
pub mod sure;
mod turned;
pub mod two;
