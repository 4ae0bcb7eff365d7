//! Numbers of a fixed length.
ghost use Rattle.std.specs.Prelude.{Some};
ghost use Rattle.trace_text.specs.Digits.{long_word, word};

use std::fmt;

/// A register or an argument of an o32 program: eight lower-case hexadecimal digits.
#[derive(Clone, Copy)]
pub(crate) struct Word {
    pub(crate) number: u32,
}

#[tactic(auto, using(crate::proofs::Padding::zeros_before), unfolding(crate::specs::Digits::word))]
impl fmt::Display for Word {
    ghost output = { λ shown. Some (word shown.number) };

    fn fmt<W: fmt::Write>(&self, f: &mut fmt::Formatter<W>) -> fmt::Result {
        let number = self.number;
        write!(f, "{number:08x}")
    }
}

/// An argument of a native call: sixteen of them.
#[derive(Clone, Copy)]
pub(crate) struct LongWord {
    pub(crate) number: u64,
}

#[tactic(auto, using(crate::proofs::Padding::zeros_before), unfolding(crate::specs::Digits::long_word))]
impl fmt::Display for LongWord {
    ghost output = { λ shown. Some (long_word shown.number) };

    fn fmt<W: fmt::Write>(&self, f: &mut fmt::Formatter<W>) -> fmt::Result {
        let number = self.number;
        write!(f, "{number:016x}")
    }
}
