//! Values that have a written form, field elements among them, and lists of such values.
#![tactic(auto)]

mod kinds;
mod list;
mod spelled;

pub use list::{read_list, write_list};
pub use spelled::Spelled;
