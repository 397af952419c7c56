ghost use Rattle.std.specs.Prelude.{Some};
ghost use Rattle.preview.specs.Words.{fault_words};

use crate::faults::Fault;
use std::error::Error;
use std::fmt;

impl fmt::Display for Fault {
    ghost output = { λ fault. Some (fault_words fault) };

    fn fmt<W: fmt::Write>(&self, f: &mut fmt::Formatter<W>) -> fmt::Result {
        f.write_str(match self {
            Fault::QuantityTooLarge => "the quantities add up to more than 64 bits",
            Fault::ScratchTooShort => "the scratch is too short",
        })
    }
}

impl Error for Fault {}
