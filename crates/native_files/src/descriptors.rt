//! The calls on descriptors: close(2), dup(2), pipe(2), and the part of fcntl(2) and ioctl(2) on descriptors
//! and their flags.
ghost use Rattle.std.specs.Prelude.{◌≡◌};
ghost use Rattle.kernel_model.specs.DescriptorRows.{close, duplicate, duplicate_onto, duplicate_onto_with, close_on_exec, set_close_on_exec, status_flags, set_status_flags, set_nonblock};
ghost use Rattle.native_files.specs.Answers.{came_of};

use crate::files::Files;
use crate::flags::with_append_and_nonblock;
use kernel_core::{Errno, OpenFlags};
use kernel_model::Description;
use native_fd::DESCRIPTORS;

impl Files {
    /// Closes a descriptor (close(2)). EBADF where it is not open. It takes no memory.
    #[tactic(auto, unfolding(kernel_model::specs::DescriptorRows::close))]
    pub fn close(&mut self, fd: u32) -> Result<(), Errno>
        ensures came { came_of result ≡ (close self.old fd).came }
        ensures state { self.new ≡ (close self.old fd).state }
    {
        match self.opened(fd) {
            None => Err(Errno::EBADF),
            Some(_) => {
                self.close_open(fd);
                Ok(())
            }
        }
    }

    /// Another descriptor of the same description, the least that is free from `from` on (dup(2), F_DUPFD
    /// and F_DUPFD_CLOEXEC of fcntl(2)); `from` is None where the program's number is none of a descriptor.
    /// EBADF where it is not open; EINVAL where `from` is none, or is past 1023; EMFILE where none is free.
    /// It takes no memory.
    #[tactic(auto, unfolding(kernel_model::specs::DescriptorRows::duplicate))]
    pub fn duplicate(&mut self, fd: u32, from: Option<u32>, cloexec: bool) -> Result<u32, Errno>
        ensures came { came_of result ≡ (duplicate self.old fd from cloexec).came }
        ensures state { self.new ≡ (duplicate self.old fd from cloexec).state }
    {
        if self.opened(fd).is_none() {
            return Err(Errno::EBADF);
        }
        let Some(least) = from else {
            return Err(Errno::EINVAL);
        };
        if least >= DESCRIPTORS {
            return Err(Errno::EINVAL);
        }
        let Some(new) = self.table.lowest(least) else {
            return Err(Errno::EMFILE);
        };
        self.share(fd, new, cloexec);
        Ok(new)
    }

    /// Makes `onto` another descriptor of the description of `fd`, and closes it first where it is open
    /// (dup2(2)); onto itself it does nothing. EBADF where `fd` is not open, and where `onto` is past 1023.
    /// It takes no memory.
    #[tactic(auto, unfolding(kernel_model::specs::DescriptorRows::duplicate_onto))]
    pub fn duplicate_onto(&mut self, fd: u32, onto: u32) -> Result<u32, Errno>
        ensures came { came_of result ≡ (duplicate_onto self.old fd onto).came }
        ensures state { self.new ≡ (duplicate_onto self.old fd onto).state }
    {
        if self.opened(fd).is_none() {
            return Err(Errno::EBADF);
        }
        if fd == onto {
            return Ok(onto);
        }
        if onto >= DESCRIPTORS {
            return Err(Errno::EBADF);
        }
        self.close_open(onto);
        self.share(fd, onto, false);
        Ok(onto)
    }

    /// The same with close-on-exec or without (dup3(2)); `cloexec` is None where there are other flags.
    /// EBADF where `fd` is not open; EINVAL onto itself; EBADF where `onto` is past 1023; EINVAL for other
    /// flags. It takes no memory.
    #[tactic(auto, unfolding(kernel_model::specs::DescriptorRows::duplicate_onto_with))]
    pub fn duplicate_onto_with(
        &mut self,
        fd: u32,
        onto: u32,
        cloexec: Option<bool>,
    ) -> Result<u32, Errno>
        ensures came { came_of result ≡ (duplicate_onto_with self.old fd onto cloexec).came }
        ensures state { self.new ≡ (duplicate_onto_with self.old fd onto cloexec).state }
    {
        if self.opened(fd).is_none() {
            return Err(Errno::EBADF);
        }
        if fd == onto {
            return Err(Errno::EINVAL);
        }
        if onto >= DESCRIPTORS {
            return Err(Errno::EBADF);
        }
        let Some(cloexec) = cloexec else {
            return Err(Errno::EINVAL);
        };
        self.close_open(onto);
        self.share(fd, onto, cloexec);
        Ok(onto)
    }

    /// Whether a descriptor is closed on execve(2) (F_GETFD of fcntl(2)). EBADF where it is not open.
    #[tactic(auto, unfolding(kernel_model::specs::DescriptorRows::close_on_exec))]
    pub fn close_on_exec(&self, fd: u32) -> Result<bool, Errno>
        ensures came { came_of result ≡ (close_on_exec self.now fd).came }
        ensures state { (close_on_exec self.now fd).state ≡ self.now }
    {
        match self.opened(fd) {
            None => Err(Errno::EBADF),
            Some(_) => Ok(self.table.cloexec(fd)),
        }
    }

    /// Sets whether a descriptor is closed on execve(2) (F_SETFD of fcntl(2), FIOCLEX and FIONCLEX of
    /// ioctl(2)). EBADF where it is not open. It takes no memory.
    #[tactic(auto, unfolding(kernel_model::specs::DescriptorRows::set_close_on_exec))]
    pub fn set_close_on_exec(&mut self, fd: u32, cloexec: bool) -> Result<(), Errno>
        ensures came { came_of result ≡ (set_close_on_exec self.old fd cloexec).came }
        ensures state { self.new ≡ (set_close_on_exec self.old fd cloexec).state }
    {
        if self.opened(fd).is_none() {
            return Err(Errno::EBADF);
        }
        self.table.set_cloexec(fd, cloexec);
        Ok(())
    }

    /// The access mode and the flags that a description keeps (F_GETFL of fcntl(2)). EBADF where the
    /// descriptor is not open.
    #[tactic(auto, unfolding(kernel_model::specs::DescriptorRows::status_flags))]
    pub fn status_flags(&self, fd: u32) -> Result<OpenFlags, Errno>
        ensures came { came_of result ≡ (status_flags self.now fd).came }
        ensures state { (status_flags self.now fd).state ≡ self.now }
    {
        match self.opened(fd) {
            None => Err(Errno::EBADF),
            Some(description) => Ok(description.flags),
        }
    }

    /// Sets O_APPEND and O_NONBLOCK of a description, and no other flag (F_SETFL of fcntl(2)). EBADF where
    /// the descriptor is not open. It takes no memory.
    #[tactic(auto, unfolding(kernel_model::specs::DescriptorRows::set_status_flags))]
    pub fn set_status_flags(&mut self, fd: u32, append: bool, nonblock: bool) -> Result<(), Errno>
        ensures came { came_of result ≡ (set_status_flags self.old fd append nonblock).came }
        ensures state { self.new ≡ (set_status_flags self.old fd append nonblock).state }
    {
        let Some(description) = self.opened(fd) else {
            return Err(Errno::EBADF);
        };
        let flags = with_append_and_nonblock(description.flags, append, nonblock);
        self.change(fd, with_flags(description, flags));
        Ok(())
    }

    /// Sets O_NONBLOCK of a description (FIONBIO of ioctl(2)); `on` is the error of reading the program's
    /// number where that failed. EBADF where the descriptor is not open. It takes no memory.
    #[tactic(auto, unfolding(kernel_model::specs::DescriptorRows::set_nonblock))]
    pub fn set_nonblock(&mut self, fd: u32, on: Result<bool, Errno>) -> Result<(), Errno>
        ensures came { came_of result ≡ (set_nonblock self.old fd on).came }
        ensures state { self.new ≡ (set_nonblock self.old fd on).state }
    {
        let Some(description) = self.opened(fd) else {
            return Err(Errno::EBADF);
        };
        match on {
            Err(error) => Err(error),
            Ok(on) => {
                let append = description.flags.append();
                let flags = with_append_and_nonblock(description.flags, append, on);
                self.change(fd, with_flags(description, flags));
                Ok(())
            }
        }
    }
}

/// The description with these flags.
fn with_flags(description: Description, flags: OpenFlags) -> Description
    ensures { result ≡ record description { flags = flags } }
{
    Description {
        object: description.object,
        position: description.position,
        flags,
    }
}
