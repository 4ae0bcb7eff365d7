// What each kind of device promises. These are this project's own.
ghost use Rattle.std.specs.Prelude.{◌≡◌, ◌≤◌, ◌++◌, ℕ, List, [], ◌∷◌, length, Contains, Option, IfOk, OnOk, OnErr};
ghost use Rattle.outside.specs.Causes.{FailsOnlyIfRose, LoadFailsOnlyIfRose};
ghost use Rattle.outside.specs.Count.{Rose, last_count};
ghost use Rattle.outside.specs.Files.{Files, AnswersLoad, ChangesFile, IsEmptied, IsUnchangedOrEmptied, Gains, GainsPart};
ghost use Rattle.outside.specs.Input.{MovesOut};
ghost use Rattle.outside.specs.Loads.{answered_by};
ghost use Rattle.outside.specs.Output.{GainsText, GainsBetween};
ghost use Rattle.outside.specs.Turned.{TurnedLoad, turned_by};

use crate::errors::{DevError, Failed, LoadError};

/// A stream of bytes that comes in.
pub trait Source {
    /// The bytes left, where the source tells them.
    ghost left: { Self → Option (List ℕ) };

    /// The count of its faults, at most 2^64 - 1.
    ghost faults: { Self → ℕ };

    /// Moves bytes out of what is left to the front of the buffer, and answers how many. It gives 0
    /// for a buffer that is not empty only at the end. A source that tells what is left leaves the
    /// rest of the buffer as it was. After `Failed` what is left is unchanged, and the buffer may
    /// hold anything.
    fn take(&mut self, buf: &mut [u8]) -> Result<usize, Failed>
        ensures within { IfOk result (λ count. count ≤ length buf.new) }
        ensures moved { IfOk result (MovesOut (left self.old) (left self.new) buf.old buf.new) }
        ensures unchanged { OnErr result (left self.new ≡ left self.old) }

        ensures cause { OnErr result (Rose (faults self.old) (faults self.new)) }
        ensures no_fault { OnOk result (faults self.new ≡ faults self.old) }
        ensures later { faults self.old ≤ faults self.new }
        ensures bounded { faults self.new ≤ last_count };
}

/// A stream of bytes that goes out.
pub trait Sink {
    /// The bytes written, where the sink tells them.
    ghost written: { Self → Option (List ℕ) };

    /// The count of its faults, at most 2^64 - 1.
    ghost faults: { Self → ℕ };

    /// Adds the bytes to what was written. After an error a prefix of them was added.
    fn put(&mut self, bytes: &[u8]) -> Result<(), DevError>
        ensures added { OnOk result (GainsText (written self.old) (written self.new) bytes.now) }
        ensures part { OnErr result (GainsBetween (written self.old) (written self.new) [] bytes.now) }

        ensures cause { FailsOnlyIfRose result (faults self.old) (faults self.new) }
        ensures later { faults self.old ≤ faults self.new }
        ensures bounded { faults self.new ≤ last_count };
}

/// Named files, which are loaded whole, and made and added to.
pub trait Store {
    /// The files, where the store tells them.
    ghost files: { Self → Option Files };

    /// The count of the faults of `load`, at most 2^64 - 1.
    ghost load_faults: { Self → ℕ };

    /// The count of the faults of `create` and `append`, at most 2^64 - 1.
    ghost write_faults: { Self → ℕ };

    /// The names of the loads that were answered, by the file or by `Missing` or `TooLong`, in their
    /// order.
    ghost loads: { Self → List (List ℕ) };

    /// The loads that were answered `Missing` or `TooLong`, in their order.
    ghost turned_away: { Self → List TurnedLoad };

    /// The names of the files that `create` made, in their order.
    ghost created: { Self → List (List ℕ) };

    /// Puts the whole file into `into`, which is empty before. `Missing` comes where there is no
    /// file of that name, and `TooLong` where it has more than `limit` bytes; neither is a fault.
    /// After an error `into` may hold anything.
    fn load(&mut self, name: &str, limit: usize, into: &mut Vec<u8>) -> Result<(), LoadError>
        requires { into.old.items ≡ [] }

        ensures answer { AnswersLoad (files self.old) name.now limit into.new.items result }
        ensures loads { loads self.new ≡ loads self.old ++ answered_by name.now result }
        ensures turned_away { turned_away self.new ≡ turned_away self.old ++ turned_by name.now limit result }
        ensures files { files self.new ≡ files self.old }
        ensures created { created self.new ≡ created self.old }

        ensures cause { LoadFailsOnlyIfRose result (load_faults self.old) (load_faults self.new) }
        ensures later { load_faults self.old ≤ load_faults self.new }
        ensures bounded { load_faults self.new ≤ last_count }
        ensures write_faults { write_faults self.new ≡ write_faults self.old }
        ensures write_bounded { write_faults self.new ≤ last_count };

    /// Makes the file empty, whether it was there or not. After an error it stands as it was or is
    /// empty.
    fn create(&mut self, name: &str) -> Result<(), DevError>
        ensures emptied { OnOk result (ChangesFile (files self.old) (files self.new) name.now IsEmptied) }
        ensures part { OnErr result (ChangesFile (files self.old) (files self.new) name.now IsUnchangedOrEmptied) }
        ensures created { OnOk result (created self.new ≡ created self.old ++ name.now ∷ []) }
        ensures not_created { OnErr result (created self.new ≡ created self.old) }
        ensures loads { loads self.new ≡ loads self.old }
        ensures turned_away { turned_away self.new ≡ turned_away self.old }

        ensures cause { FailsOnlyIfRose result (write_faults self.old) (write_faults self.new) }
        ensures later { write_faults self.old ≤ write_faults self.new }
        ensures bounded { write_faults self.new ≤ last_count }
        ensures load_faults { load_faults self.new ≡ load_faults self.old }
        ensures load_bounded { load_faults self.new ≤ last_count };

    /// Adds the bytes to the end of a file that `create` made. After an error a prefix of them was
    /// added.
    fn append(&mut self, name: &str, bytes: &[u8]) -> Result<(), DevError>
        requires { Contains (created self.old) name.now }

        ensures added { OnOk result (ChangesFile (files self.old) (files self.new) name.now (Gains bytes.now)) }
        ensures part { OnErr result (ChangesFile (files self.old) (files self.new) name.now (GainsPart bytes.now)) }
        ensures created { created self.new ≡ created self.old }
        ensures loads { loads self.new ≡ loads self.old }
        ensures turned_away { turned_away self.new ≡ turned_away self.old }

        ensures cause { FailsOnlyIfRose result (write_faults self.old) (write_faults self.new) }
        ensures later { write_faults self.old ≤ write_faults self.new }
        ensures bounded { write_faults self.new ≤ last_count }
        ensures load_faults { load_faults self.new ≡ load_faults self.old }
        ensures load_bounded { load_faults self.new ≤ last_count };
}
