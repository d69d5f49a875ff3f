//! A request: a check of a block, or a question at one of the three kinds.
use crate::request::Question;
use dual_form::Dual;
use exponent_form::Logarithm;
use power_form::Power;

#[derive(Drop)]
pub enum Request {
    Check {
        id: String,
        depth: usize,
        block: Vec<u8>,
    },
    AtPower(Question<Power>),
    AtDual(Question<Dual>),
    AtExponent(Question<Logarithm>),
}
