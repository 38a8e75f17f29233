// What a refused sheet is answered with: the refusal, the layer that found it and the place in bytes from 0.
ghost use Rattle.std.specs.Prelude.{◌≡◌, Some};
ghost use Rattle.sheet.specs.Layers.{word_of};

use coding::Refusal;
use std::fmt;
use std::fmt::{Display, Formatter, Write};

// The part of the reading that refused.
#[derive(Clone, Copy, Debug, PartialEq, Eq)]
pub enum Layer {
    Text,
    Sheet,
    Job,
}

impl Layer {
    // The word that is printed for the layer.
    pub fn word(self) -> &'static str
        ensures { result.now ≡ word_of self }
    {
        match self {
            Layer::Text => "text",
            Layer::Sheet => "sheet",
            Layer::Job => "job",
        }
    }

    // A refusal of this layer, at a place.
    pub fn fault(self, refusal: Refusal, place: usize) -> Fault
        ensures { result ≡ record { refusal = refusal; layer = self; place = place } }
    {
        Fault {
            refusal,
            layer: self,
            place,
        }
    }
}

impl Display for Layer {
    ghost output = { λ layer. Some (word_of layer) };

    fn fmt<W: Write>(&self, f: &mut Formatter<W>) -> fmt::Result {
        f.write_str(self.word())
    }
}

// It rises through the layers as it is.
#[derive(Clone, Copy, Debug, PartialEq, Eq)]
pub struct Fault {
    pub refusal: Refusal,
    pub layer: Layer,
    pub place: usize,
}
