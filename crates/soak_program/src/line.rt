//! The line that tells what a run came to.
ghost use Rattle.std.specs.Prelude.{◌≡◌, ◌++◌, OnErr, OnOk, Some};
ghost use Rattle.soak_program.specs.Line.{soak_line};
ghost use Rattle.trace_text.specs.Digits.{word};

use kernel_core::NoMemory;
use std::fmt;

/// A sum as eight hexadecimal digits.
#[derive(Clone, Copy)]
struct Sum {
    number: u32,
}

#[tactic(auto, using(trace_text::proofs::Padding::zeros_before), unfolding(trace_text::specs::Digits::word))]
impl fmt::Display for Sum {
    ghost output = { λ shown. Some (word shown.number) };

    fn fmt<W: fmt::Write>(&self, f: &mut fmt::Formatter<W>) -> fmt::Result {
        let number = self.number;
        write!(f, "{number:08x}")
    }
}

/// Adds the line of a run of the program for so many numbers, with the turns of the run, and the size of the
/// file that it wrote and the last sum in it. After want of memory nothing was added. (The line is this
/// project's own.)
#[tactic(auto, unfolding(crate::specs::Line::soak_line))]
pub fn soak_line(
    count: u32,
    turns: u64,
    bytes: u64,
    sum: u32,
    out: &mut Vec<u8>,
) -> Result<(), NoMemory>
    ensures line { OnOk result (out.new.items ≡ out.old.items ++ soak_line count turns bytes sum) }
    ensures no_memory { OnErr result (out.new.items ≡ out.old.items) }
{
    let sum = Sum { number: sum };
    let line = format!(in *out.allocator();
        "soak {count}: exited 0, turns {turns}, bytes {bytes}, sum {sum}\n"
    )?;
    out.extend_from_slice(line.as_bytes())?;
    Ok(())
}
