// Records: views, equality and order, and constructors, over lent bytes. A record is bytes, a bit offset and a node of the table; its bits are
// the next width bits, from the top of each byte.
// They are handed as a slice and numbers and not as one struct: the C interface hands them so, and the struct of crate `view` calls these.
// The calls that this file names are the crate's interface. None expects anything of its input: each runs its whole ladder of refusals in the
// order of their numbers, then acts through one inner function that relies on what was checked. A refusal changes no byte.
#![tactic(auto)]

mod comparing;
mod constructors;
mod lengths;
mod views;

pub use comparing::{compare, equal};
pub use constructors::{left, none, product, right, some, unit, zero};
pub use lengths::padded_len;
pub use views::{as_left, as_product, as_right};
