//! The times of nodes: utimensat(2).
ghost use Rattle.std.specs.Prelude.{◌≡◌, ◌≤ℤ◌, ◌<ℤ◌, ◌+ℤ◌, ◌*ℤ◌, pos, IsSome, IfOk, IfSome, None, Some};
ghost use Rattle.kernel_core.specs.FileSystem.{IsTime};
ghost use Rattle.kernel_model.specs.Came.{given_or_none};
ghost use Rattle.kernel_model.specs.Descriptions.{node_of, opened};
ghost use Rattle.kernel_model.specs.NodeRows as rows;
ghost use Rattle.native_files.specs.Answers.{Answers, IsPlain, WhereRead, base_of, came_of, path_of, text_of, times_given};
ghost use Rattle.native_files.specs.inside.Contents.{number_in};
ghost use Rattle.native_files.specs.inside.NewTimes.{after_new_times, asked_times, changed_time, changed_times, times_of_base, times_of_path};

use crate::files::Files;
use crate::nodes::key_at;
use crate::sizes::as_answer;
use crate::walking::{Base, PathFrom, walk_to_node};
use kernel_core::{CoreError, Errno};
use kernel_model::{Description, Object, TimeSpec};

/// How many nanoseconds a second has.
const SECOND: i64 = 1_000_000_000;

/// The nanoseconds that mean now (UTIME_NOW of utimensat(2)).
const UTIME_NOW: i64 = 0x3FFF_FFFF;

/// The nanoseconds that leave a time as it is (UTIME_OMIT of utimensat(2)).
const UTIME_OMIT: i64 = 0x3FFF_FFFE;

/// The times that a node is to have, as a program gives them.
#[derive(Clone, Copy)]
pub struct Times {
    /// That of its last access.
    pub access: TimeSpec,
    /// That of its last modification.
    pub modified: TimeSpec,
}

/// What becomes of a node's times, in nanoseconds since the Epoch: None leaves one as it is.
#[derive(Clone, Copy)]
pub(crate) struct NewTimes {
    pub(crate) access: Option<i128>,
    pub(crate) modified: Option<i128>,
}

/// What is asked for, where nothing is wrong with it.
#[derive(Clone, Copy)]
pub(crate) struct AskedTimes {
    pub(crate) times: NewTimes,
    /// Whether a last link is followed.
    pub(crate) follow: bool,
}

impl Files {
    /// Sets the times of the node that a path names, or without a path of the one that the descriptor `base` has
    /// open (utimensat(2)), and the time of its last change, which is `now`. Without `times` both are now; one
    /// whose nanoseconds are 0x3FFFFFFF is now, and one whose nanoseconds are 0x3FFFFFFE stays. `now` is in
    /// nanoseconds since the Epoch, within whole seconds of 64 bits. `follow` is whether a last link is followed,
    /// and None where there are other flags. It is refused with what was wrong with the path, and then with the
    /// times; EINVAL for nanoseconds below 0 or past 999,999,999, and for other flags; then as the walk is, and
    /// ENOENT where the node is not there; without a path, EBADF for a descriptor that is not open, and where there
    /// is none. A stream and an end of a pipe stay as they are (this project's own). After NoMemory the files are
    /// not used again.
    pub fn set_times(
        &mut self,
        now: i128,
        base: Base,
        path: Option<Result<&[u8], Errno>>,
        times: Option<Result<Times, Errno>>,
        follow: Option<bool>,
    ) -> Result<(), CoreError>
        requires time { IsTime now }
        requires path { IfSome (path_of path) (WhereRead IsPlain) }
        ensures row { Answers (rows.set_times self.old now (base_of base) (path_of path.entry) (times_given times) follow) result self.new }
    {
        match path {
            None => self.set_times_open(now, base, times, follow),
            Some(path) => self.set_times_by_path(now, base, path, times, follow),
        }
    }

    fn set_times_open(
        &mut self,
        now: i128,
        base: Base,
        times: Option<Result<Times, Errno>>,
        follow: Option<bool>,
    ) -> Result<(), CoreError>
        requires { IsTime now }
        ensures row { Answers (rows.set_times self.old now (base_of base) None (times_given times) follow) result self.new }
    {
        match asked_times(now, times, follow) {
            Err(error) => Err(CoreError::Refused(error)),
            Ok(asked) => as_answer(self.set_times_at(now, base, asked.times)),
        }
    }

    fn set_times_by_path(
        &mut self,
        now: i128,
        base: Base,
        path: Result<&[u8], Errno>,
        times: Option<Result<Times, Errno>>,
        follow: Option<bool>,
    ) -> Result<(), CoreError>
        requires time { IsTime now }
        requires path { WhereRead IsPlain (text_of path) }
        ensures row { Answers (rows.set_times self.old now (base_of base) (Some (text_of path.entry)) (times_given times) follow) result self.new }
    {
        match path {
            Err(error) => Err(CoreError::Refused(error)),
            Ok(path) => match asked_times(now, times, follow) {
                Err(error) => Err(CoreError::Refused(error)),
                Ok(asked) => self.set_times_named(now, base, path, asked),
            },
        }
    }

    fn set_times_named(
        &mut self,
        now: i128,
        base: Base,
        path: &[u8],
        asked: AskedTimes,
    ) -> Result<(), CoreError>
        requires time { IsTime now }
        requires access { IfSome asked.times.access IsTime }
        requires modified { IfSome asked.times.modified IsTime }
        requires path { IsPlain path.now }
        ensures row { Answers (times_of_path self.old now (base_of base) path.now asked) result self.new }
    {
        let keys = self.node_keys.as_slice();
        let from = PathFrom { base, path };
        match walk_to_node(
            &self.vfs,
            &self.table,
            keys,
            self.directory,
            from,
            asked.follow,
        ) {
            Err(error) => Err(error),
            Ok(node) => {
                let times = asked.times;
                self.vfs.set_times(node, times.access, times.modified, now);
                Ok(())
            }
        }
    }

    /// Sets the times of the node that a descriptor has open.
    fn set_times_at(&mut self, now: i128, base: Base, times: NewTimes) -> Result<(), Errno>
        requires time { IsTime now }
        requires access { IfSome times.access IsTime }
        requires modified { IfSome times.modified IsTime }
        ensures came { came_of result ≡ (times_of_base self.old now times (base_of base)).came }
        ensures state { self.new ≡ (times_of_base self.old now times (base_of base)).state }
    {
        match base {
            Base::Working => Err(Errno::EBADF),
            Base::Descriptor(fd) => match self.opened(fd) {
                None => Err(Errno::EBADF),
                Some(description) => match description.object {
                    Object::Stream(_) => Ok(()),
                    Object::ReadEnd(_) => Ok(()),
                    Object::WriteEnd(_) => Ok(()),
                    Object::Node(_) => {
                        self.set_open_times(now, fd, &description, times);
                        Ok(())
                    }
                },
            },
        }
    }

    /// Sets the times of the node that a description has open.
    fn set_open_times(&mut self, now: i128, fd: u32, description: &Description, times: NewTimes)
        requires open { opened self.old fd ≡ Some description.now }
        requires node { IsSome (node_of description.now.object) }
        requires time { IsTime now }
        requires access { IfSome times.access IsTime }
        requires modified { IfSome times.modified IsTime }
        ensures { self.new ≡ after_new_times self.old now times (number_in description.now.object) }
    {
        let key = key_at(&self.table, self.node_keys.as_slice(), fd);
        self.vfs.set_times(key, times.access, times.modified, now);
    }
}

/// What is asked for, or what was wrong with the times; EINVAL for a time that is none, and for other flags.
fn asked_times(
    now: i128,
    times: Option<Result<Times, Errno>>,
    follow: Option<bool>,
) -> Result<AskedTimes, Errno>
    requires { IsTime now }
    ensures asked { result ≡ asked_times now (given_or_none (times_given times)) follow }
    ensures access { IfOk result (λ asked. IfSome asked.times.access IsTime) }
    ensures modified { IfOk result (λ asked. IfSome asked.times.modified IsTime) }
{
    let times = match times {
        None => NewTimes {
            access: Some(now),
            modified: Some(now),
        },
        Some(Err(error)) => return Err(error),
        Some(Ok(times)) => new_times(now, times)?,
    };
    match follow {
        None => Err(Errno::EINVAL),
        Some(follow) => Ok(AskedTimes { times, follow }),
    }
}

/// What times that a program gives make of a node's. EINVAL where one is none.
fn new_times(now: i128, times: Times) -> Result<NewTimes, Errno>
    requires { IsTime now }
    ensures told { result ≡ changed_times now times }
    ensures access { IfOk result (λ times. IfSome times.access IsTime) }
    ensures modified { IfOk result (λ times. IfSome times.modified IsTime) }
{
    let access = new_time(now, times.access)?;
    let modified = new_time(now, times.modified)?;
    Ok(NewTimes { access, modified })
}

/// The time that one becomes, or None where it stays. EINVAL for nanoseconds of no second.
fn new_time(now: i128, time: TimeSpec) -> Result<Option<i128>, Errno>
    requires { IsTime now }
    ensures told { result ≡ changed_time now time }
    ensures time { IfOk result (λ time. IfSome time IsTime) }
{
    if time.nanoseconds == UTIME_NOW {
        return Ok(Some(now));
    }
    if time.nanoseconds == UTIME_OMIT {
        return Ok(None);
    }
    if time.nanoseconds < 0 || time.nanoseconds >= SECOND {
        return Err(Errno::EINVAL);
    }
    Ok(Some(time_of(time)))
}

/// A time in nanoseconds since the Epoch.
fn time_of(time: TimeSpec) -> i128
    requires low { pos 0 ≤ℤ time.nanoseconds }
    requires high { time.nanoseconds <ℤ pos 1_000_000_000 }
    ensures value { result ≡ time.seconds *ℤ pos 1_000_000_000 +ℤ time.nanoseconds }
    ensures time { IsTime result }
{
    i128::from(time.seconds) * 1_000_000_000 + i128::from(time.nanoseconds)
}
