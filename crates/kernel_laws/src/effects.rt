//! What rows do, as other rows and the definitions of content show it (open(2), write(2), truncate(2), pipe(2), dup(2),
//! fcntl(2), lseek(2), umask(2), getrlimit(2), getrandom(2)).

ghost use Rattle.std.specs.Prelude.{length, take, unwrap_or, pos, ◌%◌, ◌+◌, ◌++◌, ◌<◌, ◌≡◌, ◌≢◌, ◌≤◌, ◌⊎◌, Bool, List, None, Ok, Option, Some, ℕ, ℤ};
ghost use Rattle.kernel_core.specs.FileContent.{FileContent, IsContent, byte_at, resized, written};
ghost use Rattle.kernel_core.specs.PathWalk.{Place};
ghost use Rattle.kernel_core.specs.Queries.{new_number};
ghost use Rattle.kernel_core.specs.declared.resource.Resource.{Resource};
ghost use Rattle.kernel_laws.specs.Ends.{LeadToPipe};
ghost use Rattle.kernel_model.specs.Always.{IsFiles, IsKernel};
ghost use Rattle.kernel_model.specs.Came.{Done};
ghost use Rattle.kernel_model.specs.ContentRows.{seek};
ghost use Rattle.kernel_model.specs.DescriptorRows.{Ends, PipeFlags, close, close_on_exec, duplicate, duplicate_onto, duplicate_onto_with, make_pipe, set_close_on_exec, set_status_flags, status_flags};
ghost use Rattle.kernel_model.specs.Descriptions.{description_of, opened};
ghost use Rattle.kernel_model.specs.NodeRows.{set_umask};
ghost use Rattle.kernel_model.specs.Opening.{follows, open_file};
ghost use Rattle.kernel_model.specs.Paths.{Base, walk};
ghost use Rattle.kernel_model.specs.Pipes.{read_pipe, write_pipe};
ghost use Rattle.kernel_model.specs.Shared.{OpenSet};
ghost use Rattle.kernel_model.specs.State.{Chance, Files, Kernel, Pipe};
ghost use Rattle.kernel_model.specs.System.{after_chance, round, set_limit};
ghost use Rattle.kernel_model.specs.Table.{new_place};
ghost use Rattle.kernel_model.specs.Transfers.{file_bytes};
ghost use Rattle.kernel_model.specs.declared.descriptor.Description.{Description};
ghost use Rattle.kernel_model.specs.declared.descriptor.Object.TheVariants.{Node};
ghost use Rattle.kernel_model.specs.declared.limit.Limit.{Limit};

/// A file gives the bytes that were written to it, where they were written, and every other byte stays.
pub fn a_file_gives_what_was_written()
    ensures there { (content : FileContent) (at : ℕ) (bytes : List ℕ) → IsContent content → file_bytes (written content at bytes) at (length bytes) ≡ bytes }
    ensures elsewhere { (content : FileContent) (at : ℕ) (bytes : List ℕ) → IsContent content → (place : ℕ) → (place < at) ⊎ (at + length bytes ≤ place)
        → byte_at (written content at bytes).blocks place ≡ byte_at content.blocks place }
{}

/// A file that gets another size keeps its bytes below that, and from there on has zeros.
pub fn another_size_keeps_the_bytes_below_it()
    ensures below { (content : FileContent) → IsContent content → (size place : ℕ) → place < size → byte_at (resized content size).blocks place ≡ byte_at content.blocks place }
    ensures past { (content : FileContent) → IsContent content → (size place : ℕ) → size ≤ place → byte_at (resized content size).blocks place ≡ 0 }
{}

/// A pipe gives its bytes in the order in which they were put into it: a read takes the first, and a write puts
/// its own behind the last.
pub fn a_pipe_keeps_the_order()
    ensures read { (pipe : Pipe) (nonblock : Bool) (most : ℕ) (given : List ℕ) → (read_pipe pipe nonblock most).came ≡ Done given
        → given ++ (unwrap_or (read_pipe pipe nonblock most).pipe pipe).bytes ≡ pipe.bytes }
    ensures write { (pipe : Pipe) (nonblock : Bool) (bytes : List ℕ) (count : ℕ) → (write_pipe pipe nonblock bytes).came ≡ Done count
        → (unwrap_or (write_pipe pipe nonblock bytes).pipe pipe).bytes ≡ pipe.bytes ++ take count bytes }
{}

/// A descriptor that open gives leads to the node that the path names, or to the one that was made.
pub fn an_opened_descriptor_leads_to_its_node()
    ensures { (files : Files) → IsFiles files → (limit : Option ℕ) (now : ℤ) (base : Base) (path : List ℕ) (flags : OpenSet) (mode : ℕ) (place : Place)
        → walk files base path (follows flags) ≡ Ok place → (fd : ℕ) → (open_file files limit now base (Ok path) (Some flags) mode).came ≡ Done fd
        → opened (open_file files limit now base (Ok path) (Some flags) mode).state fd ≡ Some (description_of (Node (unwrap_or place.node (new_number files.nodes))) flags) }
{}

/// The descriptors that pipe gives lead to the ends of a new pipe.
pub fn the_descriptors_of_a_pipe_lead_to_its_ends()
    ensures { (files : Files) → IsFiles files → (flags : PipeFlags) (at : Ends) → (make_pipe files (Some flags)).came ≡ Done at
        → LeadToPipe (make_pipe files (Some flags)).state at (new_place files.flow.pipes) flags }
{}

/// A descriptor that was closed leads nowhere, and every other one where it led.
pub fn a_closed_descriptor_leads_nowhere()
    ensures closed { (files : Files) (fd : ℕ) → opened (close files fd).state fd ≡ None }
    ensures others { (files : Files) (onto fd : ℕ) (description : Description) → fd ≢ onto → opened files fd ≡ Some description → opened (close files onto).state fd ≡ Some description }
{}

/// A duplicate leads where the first descriptor does.
pub fn a_duplicate_leads_where_the_first_does()
    ensures duplicate { (files : Files) (fd : ℕ) (description : Description) → opened files fd ≡ Some description → (from : Option ℕ) (cloexec : Bool) (new : ℕ)
        → (duplicate files fd from cloexec).came ≡ Done new → opened (duplicate files fd from cloexec).state new ≡ Some description }
    ensures duplicate_onto { (files : Files) (fd : ℕ) (description : Description) → opened files fd ≡ Some description → IsFiles files → (onto : ℕ)
        → (duplicate_onto files fd onto).came ≡ Done onto → opened (duplicate_onto files fd onto).state onto ≡ Some description }
    ensures duplicate_onto_with { (files : Files) (fd : ℕ) (description : Description) → opened files fd ≡ Some description → IsFiles files → (onto : ℕ) (cloexec : Option Bool)
        → (duplicate_onto_with files fd onto cloexec).came ≡ Done onto → opened (duplicate_onto_with files fd onto cloexec).state onto ≡ Some description }
{}

/// A duplicate that is closed leaves everything as it was.
pub fn closing_a_duplicate_undoes_it()
    ensures { (files : Files) (fd : ℕ) (from : Option ℕ) (cloexec : Bool) (new : ℕ) → (duplicate files fd from cloexec).came ≡ Done new
        → (close (duplicate files fd from cloexec).state new).state ≡ files }
{}

/// What was set is shown: flags of a description and of a descriptor, a position, a umask and a limit.
pub fn what_is_set_is_shown()
    ensures status_flags { (files : Files) (fd : ℕ) (description : Description) → opened files fd ≡ Some description → (append nonblock : Bool)
        → (status_flags (set_status_flags files fd append nonblock).state fd).came ≡ Done (record description.flags { append = append; nonblock = nonblock }) }
    ensures close_on_exec { (files : Files) (fd : ℕ) (cloexec : Bool) (description : Description) → opened files fd ≡ Some description
        → (close_on_exec (set_close_on_exec files fd cloexec).state fd).came ≡ Done cloexec }
    ensures position { (files : Files) (fd : ℕ) (offset : ℤ) (origin position : ℕ) → (seek files fd offset origin).came ≡ Done position
        → (seek (seek files fd offset origin).state fd (pos 0) 1).came ≡ Done position }
    ensures umask { (files : Files) (first second : ℕ) → (set_umask (set_umask files first).state second).came ≡ Done (first % 512) }
    ensures limit { (kernel : Kernel) → IsKernel kernel → (resource : Resource) (limit : Limit) (pid : ℤ) (old : Limit)
        → (set_limit kernel pid (Some resource) (Some (Ok limit))).came ≡ Done old
        → (set_limit (set_limit kernel pid (Some resource) (Some (Ok limit))).state (pos 0) (Some resource) None).came ≡ Done limit }
{}

/// Bytes of chance that are taken at twice are those that are taken at once.
pub fn chance_goes_on_where_it_stopped()
    ensures bytes { (chance : Chance) (first second : ℕ)
        → round chance.bytes chance.at (first + second) ≡ round chance.bytes chance.at first ++ round chance.bytes (after_chance chance first).at second }
    ensures place { (chance : Chance) (first second : ℕ) → after_chance (after_chance chance first) second ≡ after_chance chance (first + second) }
{}
