//! Every row keeps what a state always is, together with this: each end of a pipe has one description at most.

ghost use Rattle.std.specs.Prelude.{All, Bool, List, Option, ℕ, ℤ, ◌<◌, ◌^◌};
ghost use Rattle.kernel_core.specs.FileSystem.{IsTime};
ghost use Rattle.kernel_core.specs.declared.mask.MaskChange.{MaskChange};
ghost use Rattle.kernel_core.specs.declared.resource.Resource.{Resource};
ghost use Rattle.kernel_core.specs.declared.signal.Sig.{Sig};
ghost use Rattle.kernel_laws.specs.Arguments.{AreSeconds, IsShortText, IsText, WhereGiven, WhereRead};
ghost use Rattle.kernel_laws.specs.Ends.{AreSoundFiles, IsSoundKernel};
ghost use Rattle.kernel_model.specs.Always.{IsSet};
ghost use Rattle.kernel_model.specs.Came.{Given};
ghost use Rattle.kernel_model.specs.Clock.{alarm, arm_timer, now, read_clock, read_timer, resolution, sleep, TimerSetting};
ghost use Rattle.kernel_model.specs.ContentRows.{bytes_ready, entries, Records, seek, set_terminal_settings, status, sync, terminal_settings, window_size};
ghost use Rattle.kernel_model.specs.DescriptorRows.{close, close_on_exec, duplicate, duplicate_onto, duplicate_onto_with, make_pipe, PipeFlags, set_close_on_exec, set_nonblock, set_status_flags, status_flags, unlisted_command, unlisted_request};
ghost use Rattle.kernel_model.specs.NameRows.{link, make_directory, make_link, read_link, remove_name, rename};
ghost use Rattle.kernel_model.specs.NodeRows.{access, change_directory, change_mode, change_open_mode, change_to_open, set_times, set_umask, status_at_path, StatusFlags, Times, truncate, truncate_open, working_directory};
ghost use Rattle.kernel_model.specs.Opening.{open_file};
ghost use Rattle.kernel_model.specs.Paths.{Base};
ghost use Rattle.kernel_model.specs.Readiness.{poll, PollEntry, select, Sets};
ghost use Rattle.kernel_model.specs.Shared.{OpenSet};
ghost use Rattle.kernel_model.specs.SignalRows.{accept, advance, change_mask, kill, kill_thread, kill_thread_of, Named, pause, pending, queue, SentInfo, set_action, set_stack, suspend};
ghost use Rattle.kernel_model.specs.SignalSets.{SignalSet};
ghost use Rattle.kernel_model.specs.State.{Files, Kernel};
ghost use Rattle.kernel_model.specs.System.{random_bytes, set_limit};
ghost use Rattle.kernel_model.specs.Transfers.{read, read_at, write, write_at};
ghost use Rattle.kernel_model.specs.Whole.{kernel_read, kernel_write, with_files};
ghost use Rattle.kernel_model.specs.declared.limit.Limit.{Limit};
ghost use Rattle.kernel_model.specs.declared.signal.Action.{Action};
ghost use Rattle.kernel_model.specs.declared.signal.SigStack.{SigStack};
ghost use Rattle.kernel_model.specs.declared.terminal.TerminalSettings.{TerminalSettings};
ghost use Rattle.kernel_model.specs.declared.time.TimeSpec.{TimeSpec};

/// A row on descriptors (close(2), dup(2), pipe(2), fcntl(2)).
pub fn a_row_on_descriptors_keeps_files_sound()
    ensures close { (files : Files) (fd : ℕ) → AreSoundFiles files → AreSoundFiles (close files fd).state }
    ensures duplicate { (files : Files) (fd : ℕ) (from : Option ℕ) (cloexec : Bool) → AreSoundFiles files → AreSoundFiles (duplicate files fd from cloexec).state }
    ensures duplicate_onto { (files : Files) (fd onto : ℕ) → AreSoundFiles files → AreSoundFiles (duplicate_onto files fd onto).state }
    ensures duplicate_onto_with { (files : Files) (fd onto : ℕ) (cloexec : Option Bool) → AreSoundFiles files → AreSoundFiles (duplicate_onto_with files fd onto cloexec).state }
    ensures make_pipe { (files : Files) (flags : Option PipeFlags) → AreSoundFiles files → AreSoundFiles (make_pipe files flags).state }
    ensures close_on_exec { (files : Files) (fd : ℕ) → AreSoundFiles files → AreSoundFiles (close_on_exec files fd).state }
    ensures set_close_on_exec { (files : Files) (fd : ℕ) (cloexec : Bool) → AreSoundFiles files → AreSoundFiles (set_close_on_exec files fd cloexec).state }
    ensures status_flags { (files : Files) (fd : ℕ) → AreSoundFiles files → AreSoundFiles (status_flags files fd).state }
    ensures set_status_flags { (files : Files) (fd : ℕ) (append nonblock : Bool) → AreSoundFiles files → AreSoundFiles (set_status_flags files fd append nonblock).state }
    ensures set_nonblock { (files : Files) (fd : ℕ) (on : Given Bool) → AreSoundFiles files → AreSoundFiles (set_nonblock files fd on).state }
    ensures unlisted_command { (files : Files) (fd : ℕ) → AreSoundFiles files → AreSoundFiles (unlisted_command files fd).state }
    ensures unlisted_request { (files : Files) (fd : ℕ) → AreSoundFiles files → AreSoundFiles (unlisted_request files fd).state }
{}

/// A row on what a descriptor has open (lseek(2), fstat(2), getdents(2), ioctl(2)).
pub fn a_row_on_what_is_open_keeps_files_sound()
    ensures seek { (files : Files) (fd : ℕ) (offset : ℤ) (origin : ℕ) → AreSoundFiles files → AreSoundFiles (seek files fd offset origin).state }
    ensures status { (files : Files) (fd : ℕ) → AreSoundFiles files → AreSoundFiles (status files fd).state }
    ensures entries { (files : Files) (fd : ℕ) (records : Records) (size room : ℕ) → AreSoundFiles files → AreSoundFiles (entries files fd records size room).state }
    ensures sync { (files : Files) (fd : ℕ) → AreSoundFiles files → AreSoundFiles (sync files fd).state }
    ensures bytes_ready { (files : Files) (fd : ℕ) → AreSoundFiles files → AreSoundFiles (bytes_ready files fd).state }
    ensures terminal_settings { (files : Files) (fd : ℕ) → AreSoundFiles files → AreSoundFiles (terminal_settings files fd).state }
    ensures set_terminal_settings { (files : Files) (fd : ℕ) (settings : Given TerminalSettings) → AreSoundFiles files → AreSoundFiles (set_terminal_settings files fd settings).state }
    ensures window_size { (files : Files) (fd : ℕ) → AreSoundFiles files → AreSoundFiles (window_size files fd).state }
{}

/// A transfer (read(2), write(2), pread(2), pwrite(2)).
pub fn a_transfer_keeps_files_sound()
    ensures read { (files : Files) (left : List ℕ) (fd : ℕ) (asked : Given ℕ) (room : ℕ) → AreSoundFiles files → AreSoundFiles (read files left fd asked room).state.files }
    ensures read_at { (files : Files) (fd : ℕ) (place : ℤ) (asked : Given ℕ) (room : ℕ) → AreSoundFiles files → AreSoundFiles (read_at files fd place asked room).state }
    ensures write { (files : Files) (limit : Option ℕ) (now : ℤ) (fd : ℕ) (asked : Given ℕ) (bytes : List ℕ) → AreSoundFiles files → IsTime now → All (λ byte. byte < 256) bytes → AreSoundFiles (write files limit now fd asked bytes).state.files }
    ensures write_at { (files : Files) (limit : Option ℕ) (now : ℤ) (fd : ℕ) (place : ℤ) (asked : Given ℕ) (bytes : List ℕ) → AreSoundFiles files → IsTime now → All (λ byte. byte < 256) bytes → AreSoundFiles (write_at files limit now fd place asked bytes).state }
{}

/// A row on names (open(2), mkdir(2), unlink(2), link(2), symlink(2), rename(2), readlink(2)).
pub fn a_row_on_names_keeps_files_sound()
    ensures open_file { (files : Files) (limit : Option ℕ) (now : ℤ) (base : Base) (path : Given (List ℕ)) (flags : Option OpenSet) (mode : ℕ) → AreSoundFiles files → IsTime now → WhereRead IsText path → AreSoundFiles (open_file files limit now base path flags mode).state }
    ensures make_directory { (files : Files) (now : ℤ) (base : Base) (path : Given (List ℕ)) (mode : ℕ) → AreSoundFiles files → IsTime now → WhereRead IsText path → AreSoundFiles (make_directory files now base path mode).state }
    ensures remove_name { (files : Files) (now : ℤ) (base : Base) (path : Given (List ℕ)) (directory : Option Bool) → AreSoundFiles files → IsTime now → WhereRead IsText path → AreSoundFiles (remove_name files now base path directory).state }
    ensures link { (files : Files) (now : ℤ) (old_base : Base) (old_path : Given (List ℕ)) (new_base : Base) (new_path : Given (List ℕ)) (follow : Option Bool) → AreSoundFiles files → IsTime now → WhereRead IsText old_path → WhereRead IsText new_path → AreSoundFiles (link files now old_base old_path new_base new_path follow).state }
    ensures make_link { (files : Files) (now : ℤ) (target : Given (List ℕ)) (base : Base) (path : Given (List ℕ)) → AreSoundFiles files → IsTime now → WhereRead IsShortText target → WhereRead IsText path → AreSoundFiles (make_link files now target base path).state }
    ensures rename { (files : Files) (now : ℤ) (old_base : Base) (old_path : Given (List ℕ)) (new_base : Base) (new_path : Given (List ℕ)) → AreSoundFiles files → IsTime now → WhereRead IsText old_path → WhereRead IsText new_path → AreSoundFiles (rename files now old_base old_path new_base new_path).state }
    ensures read_link { (files : Files) (base : Base) (path : Given (List ℕ)) (size : ℤ) → AreSoundFiles files → AreSoundFiles (read_link files base path size).state }
{}

/// A row on the node that a path or a descriptor names (chmod(2), utimensat(2), truncate(2), chdir(2)).
pub fn a_row_on_a_node_keeps_files_sound()
    ensures status_at_path { (files : Files) (base : Base) (path : Given (List ℕ)) (flags : Option StatusFlags) → AreSoundFiles files → AreSoundFiles (status_at_path files base path flags).state }
    ensures access { (files : Files) (base : Base) (path : Given (List ℕ)) (mode : ℕ) → AreSoundFiles files → AreSoundFiles (access files base path mode).state }
    ensures change_mode { (files : Files) (now : ℤ) (base : Base) (path : Given (List ℕ)) (mode : ℕ) → AreSoundFiles files → IsTime now → AreSoundFiles (change_mode files now base path mode).state }
    ensures change_open_mode { (files : Files) (now : ℤ) (fd mode : ℕ) → AreSoundFiles files → IsTime now → AreSoundFiles (change_open_mode files now fd mode).state }
    ensures set_times { (files : Files) (now : ℤ) (base : Base) (path : Option (Given (List ℕ))) (times : Option (Given Times)) (follow : Option Bool) → AreSoundFiles files → IsTime now → WhereGiven AreSeconds times → AreSoundFiles (set_times files now base path times follow).state }
    ensures truncate { (files : Files) (now : ℤ) (base : Base) (path : Given (List ℕ)) (size : ℤ) → AreSoundFiles files → IsTime now → AreSoundFiles (truncate files now base path size).state }
    ensures truncate_open { (files : Files) (now : ℤ) (fd : ℕ) (size : ℤ) → AreSoundFiles files → IsTime now → AreSoundFiles (truncate_open files now fd size).state }
    ensures change_directory { (files : Files) (path : Given (List ℕ)) → AreSoundFiles files → AreSoundFiles (change_directory files path).state }
    ensures change_to_open { (files : Files) (fd : ℕ) → AreSoundFiles files → AreSoundFiles (change_to_open files fd).state }
    ensures working_directory { (files : Files) (size : ℕ) → AreSoundFiles files → AreSoundFiles (working_directory files size).state }
    ensures set_umask { (files : Files) (umask : ℕ) → AreSoundFiles files → AreSoundFiles (set_umask files umask).state }
{}

/// A row on files is one of the kernel, which is left with other files; a read and a write are so too.
pub fn a_row_on_files_is_a_row_of_the_kernel()
    ensures files { (kernel : Kernel) (files : Files) → IsSoundKernel kernel → AreSoundFiles files → IsSoundKernel (with_files kernel files) }
    ensures read { (kernel : Kernel) (left : List ℕ) (fd : ℕ) (asked : Given ℕ) (room : ℕ) → IsSoundKernel kernel → IsSoundKernel (kernel_read kernel left fd asked room).state.kernel }
    ensures write { (kernel : Kernel) (limit : Option ℕ) (fd : ℕ) (asked : Given ℕ) (bytes : List ℕ) → IsSoundKernel kernel → IsTime (now kernel) → All (λ byte. byte < 256) bytes → IsSoundKernel (kernel_write kernel limit fd asked bytes).state.kernel }
{}

/// A row on time (clock_nanosleep(2), setitimer(2)), and the move of the clock.
pub fn a_row_on_time_keeps_the_kernel_sound()
    ensures read_clock { (kernel : Kernel) (quanta id : ℕ) → IsSoundKernel kernel → IsSoundKernel (read_clock kernel quanta id).state }
    ensures resolution { (kernel : Kernel) (id : ℕ) → IsSoundKernel kernel → IsSoundKernel (resolution kernel id).state }
    ensures sleep { (kernel : Kernel) (id : ℕ) (absolute : Option Bool) (time : Given TimeSpec) → IsSoundKernel kernel → IsSoundKernel (sleep kernel id absolute time).state }
    ensures arm_timer { (kernel : Kernel) (which : ℕ) (setting : Option (Given TimerSetting)) → IsSoundKernel kernel → IsSoundKernel (arm_timer kernel which setting).state }
    ensures read_timer { (kernel : Kernel) (which : ℕ) → IsSoundKernel kernel → IsSoundKernel (read_timer kernel which).state }
    ensures alarm { (kernel : Kernel) (seconds : ℕ) → IsSoundKernel kernel → IsSoundKernel (alarm kernel seconds).state }
    ensures advance { (kernel : Kernel) (to : ℕ) (kept : Bool) → IsSoundKernel kernel → IsSoundKernel (advance kernel to kept) }
{}

/// A row on signals (sigaction(2), sigprocmask(2), sigtimedwait(2), sigaltstack(2)).
pub fn a_row_on_signals_keeps_the_kernel_sound()
    ensures set_action { (kernel : Kernel) (size : ℕ) (signal : Option Sig) (action : Option (Given Action)) → IsSoundKernel kernel → WhereGiven (λ a. IsSet a.mask) action → IsSoundKernel (set_action kernel size signal action).state }
    ensures change_mask { (kernel : Kernel) (size : ℕ) (how : Option MaskChange) (set : Option (Given SignalSet)) → IsSoundKernel kernel → WhereGiven IsSet set → IsSoundKernel (change_mask kernel size how set).state }
    ensures pending { (kernel : Kernel) (size : ℕ) → IsSoundKernel kernel → IsSoundKernel (pending kernel size).state }
    ensures accept { (kernel : Kernel) (order : List Sig) (waitable : SignalSet → SignalSet) (set : Given SignalSet) (time : Option (Given TimeSpec)) (size : ℕ) → IsSoundKernel kernel → IsSoundKernel (accept kernel order waitable set time size).state }
    ensures suspend { (kernel : Kernel) (size : ℕ) (set : Given SignalSet) → IsSoundKernel kernel → IsSoundKernel (suspend kernel size set).state }
    ensures pause { (kernel : Kernel) → IsSoundKernel kernel → IsSoundKernel (pause kernel).state }
    ensures set_stack { (kernel : Kernel) (sp : Option ℕ) (stack : Option (Given SigStack)) → IsSoundKernel kernel → IsSoundKernel (set_stack kernel sp stack).state }
{}

/// A row that sends a signal (kill(2), tkill(2), tgkill(2), rt_sigqueueinfo(2)).
pub fn a_row_that_sends_keeps_the_kernel_sound()
    ensures kill { (kernel : Kernel) (pid : ℤ) (signal : Named) → IsSoundKernel kernel → IsSoundKernel (kill kernel pid signal).state }
    ensures kill_thread { (kernel : Kernel) (tid : ℤ) (signal : Named) → IsSoundKernel kernel → IsSoundKernel (kill_thread kernel tid signal).state }
    ensures kill_thread_of { (kernel : Kernel) (pid tid : ℤ) (signal : Named) → IsSoundKernel kernel → IsSoundKernel (kill_thread_of kernel pid tid signal).state }
    ensures queue { (kernel : Kernel) (pid : ℤ) (signal : Named) (sent : Given SentInfo) → IsSoundKernel kernel → IsSoundKernel (queue kernel pid signal sent).state }
{}

/// Another row (poll(2), select(2), prlimit(2), getrandom(2)).
pub fn another_row_keeps_the_kernel_sound()
    ensures poll { (kernel : Kernel) (wait : Given (Option ℕ)) (count : ℕ) (entries : Given (List PollEntry)) → IsSoundKernel kernel → IsSoundKernel (poll kernel wait count entries).state }
    ensures select { (kernel : Kernel) (wait : Given (Option ℕ)) (count : ℤ) (sets : Given Sets) → IsSoundKernel kernel → IsSoundKernel (select kernel wait count sets).state }
    ensures set_limit { (kernel : Kernel) (pid : ℤ) (resource : Option Resource) (limit : Option (Given Limit)) → IsSoundKernel kernel → WhereGiven (λ l. l.hard < 2 ^ 64) limit → IsSoundKernel (set_limit kernel pid resource limit).state }
    ensures random_bytes { (kernel : Kernel) (asked room flags : ℕ) → IsSoundKernel kernel → IsSoundKernel (random_bytes kernel asked room flags).state }
{}
