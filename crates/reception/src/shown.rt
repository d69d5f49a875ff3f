//! The names of the layers.
ghost use Rattle.std.specs.Prelude.{Some};
ghost use Rattle.reception.specs.Faults.{layer_name};

use crate::fault::Layer;
use std::fmt;

impl fmt::Display for Layer {
    ghost output = { λ l. Some (layer_name l) };

    fn fmt<W: fmt::Write>(&self, f: &mut fmt::Formatter<W>) -> fmt::Result {
        f.write_str(match self {
            Layer::Codeword => "codeword",
            Layer::Block => "block",
            Layer::Receiver => "receiver",
        })
    }
}
