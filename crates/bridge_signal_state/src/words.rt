//! What the types of what is set say of its numbers.
ghost use Rattle.std.specs.Prelude.{◌<◌, ◌^◌, All};
ghost use Rattle.kernel_model.specs.Always.{IsSet};
ghost use Rattle.native_signal.specs.Fitting.{IsNumberedStack};

use kernel_model::SigStack;

/// A set has four words of 32 bits: it does nothing, and tells its caller this.
pub fn is_set(set: [u32; 4])
    ensures { IsSet set }
{
    words_fit(&set);
}

fn words_fit(set: &[u32; 4])
    ensures { All (λ word. word < 2 ^ 32) set.now }
{
    for word in set {
        fits(*word);
    }
}

fn fits(word: u32)
    ensures { word < 2 ^ 32 }
{}

/// The numbers of an alternate stack have 64 bits, and its flags 32: it does nothing, and tells its caller this.
pub(crate) fn stack_fits(stack: SigStack)
    ensures { IsNumberedStack stack }
{}
