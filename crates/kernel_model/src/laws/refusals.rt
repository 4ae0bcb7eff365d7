//! A row that is refused, or waits with nothing done, leaves the state as it was.

ghost use Rattle.kernel_core.specs.declared.mask.MaskChange.{MaskChange};
ghost use Rattle.kernel_core.specs.declared.resource.Resource.{Resource};
ghost use Rattle.kernel_core.specs.declared.signal.Sig.{Sig};
ghost use Rattle.kernel_model.specs.Came.{Given};
ghost use Rattle.kernel_model.specs.Clock.{TimerSetting, alarm, arm_timer, read_clock, read_timer, resolution, sleep};
ghost use Rattle.kernel_model.specs.ContentRows.{Records, bytes_ready, entries, seek, set_terminal_settings, status, sync, terminal_settings, window_size};
ghost use Rattle.kernel_model.specs.DescriptorRows.{PipeFlags, close, close_on_exec, duplicate, duplicate_onto, duplicate_onto_with, make_pipe, set_close_on_exec, set_nonblock, set_status_flags, status_flags, unlisted_command, unlisted_request};
ghost use Rattle.kernel_model.specs.Laws.{StaysUnlessDone};
ghost use Rattle.kernel_model.specs.NameRows.{link, make_directory, make_link, read_link, remove_name, rename};
ghost use Rattle.kernel_model.specs.NodeRows.{StatusFlags, Times, access, change_directory, change_mode, change_open_mode, change_to_open, set_times, set_umask, status_at_path, truncate, truncate_open, working_directory};
ghost use Rattle.kernel_model.specs.Opening.{open_file};
ghost use Rattle.kernel_model.specs.Paths.{Base};
ghost use Rattle.kernel_model.specs.Readiness.{PollEntry, Sets, poll, select};
ghost use Rattle.kernel_model.specs.Shared.{OpenSet};
ghost use Rattle.kernel_model.specs.SignalRows.{Named, SentInfo, accept, change_mask, kill, kill_thread, kill_thread_of, pause, pending, queue, set_action, set_stack, suspend};
ghost use Rattle.kernel_model.specs.SignalSets.{SignalSet};
ghost use Rattle.kernel_model.specs.State.{Files, Kernel};
ghost use Rattle.kernel_model.specs.System.{random_bytes, set_limit};
ghost use Rattle.kernel_model.specs.Transfers.{read, read_at, reading, write, write_at, writing};
ghost use Rattle.kernel_model.specs.declared.limit.Limit.{Limit};
ghost use Rattle.kernel_model.specs.declared.signal.Action.{Action};
ghost use Rattle.kernel_model.specs.declared.signal.SigStack.{SigStack};
ghost use Rattle.kernel_model.specs.declared.terminal.TerminalSettings.{TerminalSettings};
ghost use Rattle.kernel_model.specs.declared.time.TimeSpec.{TimeSpec};
ghost use Rattle.std.specs.Prelude.{Bool, List, Option, ℕ, ℤ};

/// A row on descriptors (close(2), dup(2), pipe(2), fcntl(2)).
pub fn a_refused_row_on_descriptors_changes_nothing()
    ensures close { (files : Files) (fd : ℕ) → StaysUnlessDone files (close files fd) }
    ensures duplicate { (files : Files) (fd : ℕ) (from : Option ℕ) (cloexec : Bool) → StaysUnlessDone files (duplicate files fd from cloexec) }
    ensures duplicate_onto { (files : Files) (fd : ℕ) (onto : ℕ) → StaysUnlessDone files (duplicate_onto files fd onto) }
    ensures duplicate_onto_with { (files : Files) (fd : ℕ) (onto : ℕ) (cloexec : Option Bool) → StaysUnlessDone files (duplicate_onto_with files fd onto cloexec) }
    ensures make_pipe { (files : Files) (flags : Option PipeFlags) → StaysUnlessDone files (make_pipe files flags) }
    ensures close_on_exec { (files : Files) (fd : ℕ) → StaysUnlessDone files (close_on_exec files fd) }
    ensures set_close_on_exec { (files : Files) (fd : ℕ) (cloexec : Bool) → StaysUnlessDone files (set_close_on_exec files fd cloexec) }
    ensures status_flags { (files : Files) (fd : ℕ) → StaysUnlessDone files (status_flags files fd) }
    ensures set_status_flags { (files : Files) (fd : ℕ) (append : Bool) (nonblock : Bool) → StaysUnlessDone files (set_status_flags files fd append nonblock) }
    ensures set_nonblock { (files : Files) (fd : ℕ) (on : Given Bool) → StaysUnlessDone files (set_nonblock files fd on) }
    ensures unlisted_command { (files : Files) (fd : ℕ) → StaysUnlessDone files (unlisted_command files fd) }
    ensures unlisted_request { (files : Files) (fd : ℕ) → StaysUnlessDone files (unlisted_request files fd) }
{}

/// A row on what a descriptor has open (lseek(2), fstat(2), getdents(2), ioctl(2)).
pub fn a_refused_row_on_what_is_open_changes_nothing()
    ensures seek { (files : Files) (fd : ℕ) (offset : ℤ) (origin : ℕ) → StaysUnlessDone files (seek files fd offset origin) }
    ensures status { (files : Files) (fd : ℕ) → StaysUnlessDone files (status files fd) }
    ensures entries { (files : Files) (fd : ℕ) (records : Records) (size : ℕ) (room : ℕ) → StaysUnlessDone files (entries files fd records size room) }
    ensures sync { (files : Files) (fd : ℕ) → StaysUnlessDone files (sync files fd) }
    ensures bytes_ready { (files : Files) (fd : ℕ) → StaysUnlessDone files (bytes_ready files fd) }
    ensures terminal_settings { (files : Files) (fd : ℕ) → StaysUnlessDone files (terminal_settings files fd) }
    ensures set_terminal_settings { (files : Files) (fd : ℕ) (settings : Given TerminalSettings) → StaysUnlessDone files (set_terminal_settings files fd settings) }
    ensures window_size { (files : Files) (fd : ℕ) → StaysUnlessDone files (window_size files fd) }
{}

/// A transfer (read(2), write(2), pread(2), pwrite(2)): no byte is taken or sent either.
pub fn a_refused_transfer_changes_nothing()
    ensures read { (files : Files) (left : List ℕ) (fd : ℕ) (asked : Given ℕ) (room : ℕ) → StaysUnlessDone (reading left files) (read files left fd asked room) }
    ensures read_at { (files : Files) (fd : ℕ) (place : ℤ) (asked : Given ℕ) (room : ℕ) → StaysUnlessDone files (read_at files fd place asked room) }
    ensures write { (files : Files) (limit : Option ℕ) (now : ℤ) (fd : ℕ) (asked : Given ℕ) (bytes : List ℕ) → StaysUnlessDone (writing files) (write files limit now fd asked bytes) }
    ensures write_at { (files : Files) (limit : Option ℕ) (now : ℤ) (fd : ℕ) (place : ℤ) (asked : Given ℕ) (bytes : List ℕ) → StaysUnlessDone files (write_at files limit now fd place asked bytes) }
{}

/// A row on names (open(2), mkdir(2), unlink(2), link(2), symlink(2), rename(2), readlink(2)).
pub fn a_refused_row_on_names_changes_nothing()
    ensures open_file { (files : Files) (limit : Option ℕ) (now : ℤ) (base : Base) (path : Given (List ℕ)) (flags : Option OpenSet) (mode : ℕ) → StaysUnlessDone files (open_file files limit now base path flags mode) }
    ensures make_directory { (files : Files) (now : ℤ) (base : Base) (path : Given (List ℕ)) (mode : ℕ) → StaysUnlessDone files (make_directory files now base path mode) }
    ensures remove_name { (files : Files) (now : ℤ) (base : Base) (path : Given (List ℕ)) (directory : Option Bool) → StaysUnlessDone files (remove_name files now base path directory) }
    ensures link { (files : Files) (now : ℤ) (old_base : Base) (old_path : Given (List ℕ)) (new_base : Base) (new_path : Given (List ℕ)) (follow : Option Bool) → StaysUnlessDone files (link files now old_base old_path new_base new_path follow) }
    ensures make_link { (files : Files) (now : ℤ) (target : Given (List ℕ)) (base : Base) (path : Given (List ℕ)) → StaysUnlessDone files (make_link files now target base path) }
    ensures rename { (files : Files) (now : ℤ) (old_base : Base) (old_path : Given (List ℕ)) (new_base : Base) (new_path : Given (List ℕ)) → StaysUnlessDone files (rename files now old_base old_path new_base new_path) }
    ensures read_link { (files : Files) (base : Base) (path : Given (List ℕ)) (size : ℤ) → StaysUnlessDone files (read_link files base path size) }
{}

/// A row on the node that a path or a descriptor names (chmod(2), utimensat(2), truncate(2), chdir(2)).
pub fn a_refused_row_on_a_node_changes_nothing()
    ensures status_at_path { (files : Files) (base : Base) (path : Given (List ℕ)) (flags : Option StatusFlags) → StaysUnlessDone files (status_at_path files base path flags) }
    ensures access { (files : Files) (base : Base) (path : Given (List ℕ)) (mode : ℕ) → StaysUnlessDone files (access files base path mode) }
    ensures change_mode { (files : Files) (now : ℤ) (base : Base) (path : Given (List ℕ)) (mode : ℕ) → StaysUnlessDone files (change_mode files now base path mode) }
    ensures change_open_mode { (files : Files) (now : ℤ) (fd : ℕ) (mode : ℕ) → StaysUnlessDone files (change_open_mode files now fd mode) }
    ensures set_times { (files : Files) (now : ℤ) (base : Base) (path : Option (Given (List ℕ))) (times : Option (Given Times)) (follow : Option Bool) → StaysUnlessDone files (set_times files now base path times follow) }
    ensures truncate { (files : Files) (now : ℤ) (base : Base) (path : Given (List ℕ)) (size : ℤ) → StaysUnlessDone files (truncate files now base path size) }
    ensures truncate_open { (files : Files) (now : ℤ) (fd : ℕ) (size : ℤ) → StaysUnlessDone files (truncate_open files now fd size) }
    ensures change_directory { (files : Files) (path : Given (List ℕ)) → StaysUnlessDone files (change_directory files path) }
    ensures change_to_open { (files : Files) (fd : ℕ) → StaysUnlessDone files (change_to_open files fd) }
    ensures working_directory { (files : Files) (size : ℕ) → StaysUnlessDone files (working_directory files size) }
    ensures set_umask { (files : Files) (umask : ℕ) → StaysUnlessDone files (set_umask files umask) }
{}

/// A row on time (clock_nanosleep(2), setitimer(2)).
pub fn a_refused_row_on_time_changes_nothing()
    ensures read_clock { (kernel : Kernel) (quanta : ℕ) (id : ℕ) → StaysUnlessDone kernel (read_clock kernel quanta id) }
    ensures resolution { (kernel : Kernel) (id : ℕ) → StaysUnlessDone kernel (resolution kernel id) }
    ensures sleep { (kernel : Kernel) (id : ℕ) (absolute : Option Bool) (time : Given TimeSpec) → StaysUnlessDone kernel (sleep kernel id absolute time) }
    ensures arm_timer { (kernel : Kernel) (which : ℕ) (setting : Option (Given TimerSetting)) → StaysUnlessDone kernel (arm_timer kernel which setting) }
    ensures read_timer { (kernel : Kernel) (which : ℕ) → StaysUnlessDone kernel (read_timer kernel which) }
    ensures alarm { (kernel : Kernel) (seconds : ℕ) → StaysUnlessDone kernel (alarm kernel seconds) }
{}

/// A row on signals (sigaction(2), sigprocmask(2), sigtimedwait(2), sigaltstack(2)).
pub fn a_refused_row_on_signals_changes_nothing()
    ensures set_action { (kernel : Kernel) (size : ℕ) (signal : Option Sig) (action : Option (Given Action)) → StaysUnlessDone kernel (set_action kernel size signal action) }
    ensures change_mask { (kernel : Kernel) (size : ℕ) (how : Option MaskChange) (set : Option (Given SignalSet)) → StaysUnlessDone kernel (change_mask kernel size how set) }
    ensures pending { (kernel : Kernel) (size : ℕ) → StaysUnlessDone kernel (pending kernel size) }
    ensures accept { (kernel : Kernel) (order : List Sig) (waitable : SignalSet → SignalSet) (set : Given SignalSet) (time : Option (Given TimeSpec)) (size : ℕ) → StaysUnlessDone kernel (accept kernel order waitable set time size) }
    ensures suspend { (kernel : Kernel) (size : ℕ) (set : Given SignalSet) → StaysUnlessDone kernel (suspend kernel size set) }
    ensures pause { (kernel : Kernel) → StaysUnlessDone kernel (pause kernel) }
    ensures set_stack { (kernel : Kernel) (sp : Option ℕ) (stack : Option (Given SigStack)) → StaysUnlessDone kernel (set_stack kernel sp stack) }
{}

/// A row that sends a signal (kill(2), tkill(2), tgkill(2), rt_sigqueueinfo(2)).
pub fn a_refused_row_that_sends_changes_nothing()
    ensures kill { (kernel : Kernel) (pid : ℤ) (signal : Named) → StaysUnlessDone kernel (kill kernel pid signal) }
    ensures kill_thread { (kernel : Kernel) (tid : ℤ) (signal : Named) → StaysUnlessDone kernel (kill_thread kernel tid signal) }
    ensures kill_thread_of { (kernel : Kernel) (pid : ℤ) (tid : ℤ) (signal : Named) → StaysUnlessDone kernel (kill_thread_of kernel pid tid signal) }
    ensures queue { (kernel : Kernel) (pid : ℤ) (signal : Named) (sent : Given SentInfo) → StaysUnlessDone kernel (queue kernel pid signal sent) }
{}

/// Another row (poll(2), select(2), prlimit(2), getrandom(2)).
pub fn another_refused_row_changes_nothing()
    ensures poll { (kernel : Kernel) (wait : Given (Option ℕ)) (count : ℕ) (entries : Given (List PollEntry)) → StaysUnlessDone kernel (poll kernel wait count entries) }
    ensures select { (kernel : Kernel) (wait : Given (Option ℕ)) (count : ℤ) (sets : Given Sets) → StaysUnlessDone kernel (select kernel wait count sets) }
    ensures set_limit { (kernel : Kernel) (pid : ℤ) (resource : Option Resource) (limit : Option (Given Limit)) → StaysUnlessDone kernel (set_limit kernel pid resource limit) }
    ensures random_bytes { (kernel : Kernel) (asked : ℕ) (room : ℕ) (flags : ℕ) → StaysUnlessDone kernel (random_bytes kernel asked room flags) }
{}
