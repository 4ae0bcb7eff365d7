//! What files always are, kept by rows on descriptors and descriptions (dup(2), pipe(2), fcntl(2), ioctl(2),
//! lseek(2), read(2)).

ghost use Rattle.std.specs.Prelude.{ℕ, ℤ, Bool, List, Option};
ghost use Rattle.kernel_model.specs.Always.{IsFiles};
ghost use Rattle.kernel_model.specs.Came.{Given};
ghost use Rattle.kernel_model.specs.ContentRows.{seek};
ghost use Rattle.kernel_model.specs.DescriptorRows.{PipeFlags, duplicate, make_pipe, set_nonblock, set_status_flags};
ghost use Rattle.kernel_model.specs.State.{Files};
ghost use Rattle.kernel_model.specs.Transfers.{read};

/// A description gets other flags.
pub fn changing_flags_keeps_files()
    ensures status_flags { (files : Files) (fd : ℕ) → IsFiles files → (append nonblock : Bool) → IsFiles (set_status_flags files fd append nonblock).state }
    ensures nonblock { (files : Files) (fd : ℕ) → IsFiles files → (on : Given Bool) → IsFiles (set_nonblock files fd on).state }
{}

/// A description gets another position.
pub fn seeking_keeps_files()
    ensures { (files : Files) (fd : ℕ) → IsFiles files → (offset : ℤ) (origin : ℕ) → IsFiles (seek files fd offset origin).state }
{}

/// A description gets one more descriptor.
pub fn duplicating_keeps_files()
    ensures { (files : Files) (fd : ℕ) (from : Option ℕ) (cloexec : Bool) → IsFiles files → IsFiles (duplicate files fd from cloexec).state }
{}

/// A read, of a stream, a pipe or a file.
pub fn reading_keeps_files()
    ensures { (files : Files) → IsFiles files → (left : List ℕ) (fd : ℕ) (asked : Given ℕ) (room : ℕ) → IsFiles (read files left fd asked room).state.files }
{}

/// A pipe is made, with its two descriptions and descriptors.
pub fn making_a_pipe_keeps_files()
    ensures { (files : Files) (flags : Option PipeFlags) → IsFiles files → IsFiles (make_pipe files flags).state }
{}
