//! The calls that send signals: kill(2), tkill(2), tgkill(2), rt_sigqueueinfo(2). The process alone can be sent
//! one.
ghost use Rattle.std.specs.Prelude.{◌≡◌, IfOk};
ghost use Rattle.kernel_model.specs.Came.{told_zero, with_given};
ghost use Rattle.kernel_model.specs.Pending.{CanPend};
ghost use Rattle.kernel_model.specs.SignalRows.{info_of, is_id, kill, kill_thread, kill_thread_of, names_itself, own_id, queue, queued_info, send, send_named};
ghost use Rattle.native_calls.specs.HostBytes.{read_as};
ghost use Rattle.native_calls.specs.SignalBytes.{named_by, sent_at};
ghost use Rattle.native_kernel.specs.inside.Quiet.{Gives};
ghost use Rattle.native_kernel.specs.inside.Signals.{named, sent_told};

use crate::ids::OWN_ID;
use crate::kernel::NativeKernel;
use crate::replies::failure;
use crate::signal_bytes::{SentInfo, sent_at, signal_named};
use host_mem::HostMem;
use kernel_core::{Errno, Info, NoMemory, Reply, Sig};
use kernel_model::Post;
use number_tables::{SI_TKILL, SI_USER};

impl NativeKernel {
    /// kill(2): ESRCH for another process or group, EINVAL for a number that is not listed, and EAGAIN where
    /// 1,024 real-time signals are queued. The number 0 sends nothing.
    #[tactic(auto, unfolding(kernel_model::specs::SignalRows::kill))]
    pub(crate) fn kill(&mut self, pid: i32, number: u32) -> Result<Reply, NoMemory>
        ensures row { IfOk result (λ reply. Gives (told_zero (kill self.old pid (named_by number))) reply self.new) }
        ensures clock { self.new.clock ≡ self.old.clock }
    {
        if !names_itself(pid) {
            return Ok(failure(Errno::ESRCH));
        }
        self.send_numbered(number, SI_USER)
    }

    /// tkill(2): EINVAL for an id below 1, ESRCH for another thread, and then as [`NativeKernel::kill`].
    #[tactic(auto, unfolding(kernel_model::specs::SignalRows::kill_thread))]
    pub(crate) fn kill_thread(&mut self, tid: i32, number: u32) -> Result<Reply, NoMemory>
        ensures row { IfOk result (λ reply. Gives (told_zero (kill_thread self.old tid (named_by number))) reply self.new) }
        ensures clock { self.new.clock ≡ self.old.clock }
    {
        if tid < 1 {
            return Ok(failure(Errno::EINVAL));
        }
        if !is_own_id(tid) {
            return Ok(failure(Errno::ESRCH));
        }
        self.send_numbered(number, SI_TKILL)
    }

    /// tgkill(2): EINVAL for an id below 1, ESRCH for another process or thread, and then as
    /// [`NativeKernel::kill`].
    #[tactic(auto, unfolding(kernel_model::specs::SignalRows::kill_thread_of))]
    pub(crate) fn kill_thread_of(
        &mut self,
        pid: i32,
        tid: i32,
        number: u32,
    ) -> Result<Reply, NoMemory>
        ensures row { IfOk result (λ reply. Gives (told_zero (kill_thread_of self.old pid tid (named_by number))) reply self.new) }
        ensures clock { self.new.clock ≡ self.old.clock }
    {
        if pid < 1 || tid < 1 {
            return Ok(failure(Errno::EINVAL));
        }
        if !is_own_id(pid) || !is_own_id(tid) {
            return Ok(failure(Errno::ESRCH));
        }
        self.send_numbered(number, SI_TKILL)
    }

    /// rt_sigqueueinfo(2): ESRCH for another process, EINVAL for a number that is not listed, EFAULT, and EAGAIN
    /// where 1,024 real-time signals are queued.
    #[tactic(auto, unfolding(kernel_model::specs::SignalRows::queue))]
    pub(crate) fn queue_signal(
        &mut self,
        pid: i32,
        number: u32,
        info: u64,
        mem: &HostMem,
    ) -> Result<Reply, NoMemory>
        ensures row { IfOk result (λ reply. Gives (told_zero (queue self.old pid (named_by number) (sent_at mem.now info))) reply self.new) }
        ensures clock { self.new.clock ≡ self.old.clock }
    {
        if !is_own_id(pid) {
            return Ok(failure(Errno::ESRCH));
        }
        match signal_named(number) {
            Err(error) => Ok(failure(error)),
            Ok(signal) => self.send_queued(signal, sent_at(mem, info)),
        }
    }

    /// Sends a signal with what a structure says of it.
    fn send_queued(
        &mut self,
        signal: Option<Sig>,
        sent: Result<SentInfo, Errno>,
    ) -> Result<Reply, NoMemory>
        ensures row { IfOk result (λ reply. Gives (told_zero (with_given self.old (read_as sent_told sent) (λ sent.
            send_named self.old (named signal) (queued_info sent)))) reply self.new) }
        ensures clock { self.new.clock ≡ self.old.clock }
    {
        match sent {
            Err(error) => Ok(failure(error)),
            Ok(sent) => match signal {
                None => Ok(Reply::Done(0)),
                Some(sig) => self.send_signal(queued_info(sig, sent)),
            },
        }
    }

    /// Sends the signal of a number, as the process itself; `code` says by which call.
    fn send_numbered(&mut self, number: u32, code: i32) -> Result<Reply, NoMemory>
        ensures row { IfOk result (λ reply. Gives (told_zero (send_named self.old (named_by number) (λ sig. info_of sig code own_id 0))) reply self.new) }
        ensures clock { self.new.clock ≡ self.old.clock }
    {
        match signal_named(number) {
            Err(error) => Ok(failure(error)),
            Ok(None) => Ok(Reply::Done(0)),
            Ok(Some(sig)) => self.send_signal(own_info(sig, code)),
        }
    }

    /// Sends a signal: EAGAIN where 1,024 real-time signals are queued.
    fn send_signal(&mut self, info: Info) -> Result<Reply, NoMemory>
        requires can_pend { CanPend info }
        ensures row { IfOk result (λ reply. Gives (told_zero (send self.old info)) reply self.new) }
        ensures clock { self.new.clock ≡ self.old.clock }
    {
        match self.signals.post(info, false)? {
            Post::Queued => Ok(Reply::Done(0)),
            Post::Dropped => Ok(Reply::Done(0)),
            Post::Full => Ok(failure(Errno::EAGAIN)),
        }
    }
}

/// Whether kill(2) names the process: by its id, as its own group, or as a group by its id.
fn names_itself(pid: i32) -> bool
    ensures { result ≡ names_itself pid }
{
    pid == OWN_ID || pid == 0 || pid == -OWN_ID
}

/// Whether a number is the id of the process.
fn is_own_id(number: i32) -> bool
    ensures { result ≡ is_id number own_id }
{
    number == OWN_ID
}

/// A signal that the process sends to itself.
fn own_info(sig: Sig, code: i32) -> Info
    ensures info { result ≡ info_of sig code own_id 0 }
    ensures can_pend { CanPend result }
{
    Info {
        sig,
        code,
        errno: 0,
        pid: OWN_ID as u32,
        uid: 0,
        value: 0,
        addr: 0,
    }
}

/// A signal with what rt_sigqueueinfo(2) is told of it.
fn queued_info(sig: Sig, sent: SentInfo) -> Info
    ensures info { result ≡ queued_info (sent_told sent) sig }
    ensures can_pend { CanPend result }
{
    Info {
        sig,
        code: sent.code,
        errno: sent.errno,
        pid: sent.pid,
        uid: sent.uid,
        value: sent.value,
        addr: 0,
    }
}
