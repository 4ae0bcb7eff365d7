//! Where journal and machine differ, and the other reasons why a turn is not finished.
ghost use Rattle.std.specs.Prelude.{◌≡◌, ◌∷◌, [], length};
ghost use Rattle.replay_core.specs.Replay.{first_difference, words_of};
ghost use Rattle.replay_core.specs.inside.Parts.{Meets};

use mips_exec::Cpu;

/// What the journal has, and what the machine has in its place.
#[derive(Clone, Copy)]
pub(crate) struct Difference {
    pub(crate) wanted: u64,
    pub(crate) found: u64,
}

/// Why a turn is not finished.
#[derive(Clone, Copy)]
pub(crate) enum Halt {
    Differs(Difference),
    WriteFault,
    NoMemory,
}

/// The registers whose words a record keeps: $v0, and $a0 to $a3 (MIPS RISC Processor Supplement, 3rd
/// edition).
const V0: u8 = 2;

const A0: u8 = 4;

const A1: u8 = 5;

const A2: u8 = 6;

const A3: u8 = 7;

/// The six words that a record keeps: the pc, $v0, and $a0 to $a3.
pub(crate) fn words_of(cpu: &Cpu) -> [u32; 6]
    ensures { result ≡ words_of cpu.now }
{
    [
        cpu.pc,
        cpu.register(V0),
        cpu.register(A0),
        cpu.register(A1),
        cpu.register(A2),
        cpu.register(A3),
    ]
}

/// That the words of a record are these of the machine; else the first that is not.
pub(crate) fn compare(wanted: &[u32], found: &[u32]) -> Result<(), Halt>
    requires { length found.now ≡ length wanted.now }
    ensures { Meets (first_difference wanted.now found.now) result }
{
    for place in 0..wanted.len() {
        if wanted[place] != found[place] {
            return Err(Halt::Differs(Difference {
                wanted: wanted[place] as u64,
                found: found[place] as u64,
            }));
        }
    }
    Ok(())
}
