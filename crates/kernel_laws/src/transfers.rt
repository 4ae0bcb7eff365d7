//! What files and the kernel always are, kept by transfers (read(2), write(2), pread(2), pwrite(2)).

ghost use Rattle.std.specs.Prelude.{All, List, Option, ℕ, ℤ, ◌<◌};
ghost use Rattle.kernel_core.specs.FileSystem.{IsTime};
ghost use Rattle.kernel_model.specs.Always.{IsFiles, IsKernel};
ghost use Rattle.kernel_model.specs.Came.{Given};
ghost use Rattle.kernel_model.specs.Clock.{now};
ghost use Rattle.kernel_model.specs.State.{Files, Kernel};
ghost use Rattle.kernel_model.specs.Transfers.{read, read_at, write, write_at};
ghost use Rattle.kernel_model.specs.Whole.{kernel_read, kernel_write};

/// A write, to a stream, a pipe or a file.
pub fn writing_keeps_files()
    ensures write { (files : Files) (limit : Option ℕ) (now : ℤ) (fd : ℕ) (asked : Given ℕ) (bytes : List ℕ) → IsFiles files → IsTime now → All (λ byte. byte < 256) bytes → IsFiles (write files limit now fd asked bytes).state.files }
    ensures write_at { (files : Files) (limit : Option ℕ) (now : ℤ) (fd : ℕ) (place : ℤ) (asked : Given ℕ) (bytes : List ℕ) → IsFiles files → IsTime now → All (λ byte. byte < 256) bytes → IsFiles (write_at files limit now fd place asked bytes).state }
{}

/// A file is read at a place.
pub fn reading_at_a_place_keeps_files()
    ensures { (files : Files) (fd : ℕ) (place : ℤ) (asked : Given ℕ) (room : ℕ) → IsFiles files → IsFiles (read_at files fd place asked room).state }
{}

/// A read and a write, where a write to a pipe that nobody reads posts SIGPIPE.
pub fn transfers_keep_the_kernel()
    ensures read { (kernel : Kernel) (left : List ℕ) (fd : ℕ) (asked : Given ℕ) (room : ℕ) → IsKernel kernel → IsKernel (kernel_read kernel left fd asked room).state.kernel }
    ensures write { (kernel : Kernel) (limit : Option ℕ) (fd : ℕ) (asked : Given ℕ) (bytes : List ℕ) → IsKernel kernel → IsTime (now kernel) → All (λ byte. byte < 256) bytes → IsKernel (kernel_write kernel limit fd asked bytes).state.kernel }
{}
