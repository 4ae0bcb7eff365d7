//! New pipes (pipe(2)).
ghost use Rattle.std.specs.Prelude.{◌≡◌, ◌+◌, Some, OnOk, option_map};
ghost use Rattle.kernel_model.specs.Always.{IsTable};
ghost use Rattle.kernel_model.specs.DescriptorRows.{after_pipe, ends, make_pipe};
ghost use Rattle.kernel_model.specs.Descriptions.{description_of, no_flags};
ghost use Rattle.kernel_model.specs.Table.{lowest_free, new_place};
ghost use Rattle.native_files.specs.Answers.{AnswersPipe, flags_of};

use crate::files::Files;
use crate::flags::with_nonblock_alone;
use kernel_core::{Access, CoreError, Errno, NoMemory};
use kernel_model::{Description, Object};
use native_pipe::Pipe;

/// What a new pipe's descriptions and descriptors get (O_NONBLOCK and O_CLOEXEC of pipe2(2)).
#[derive(Clone, Copy)]
pub struct PipeFlags {
    pub cloexec: bool,
    pub nonblock: bool,
}

/// The two descriptors of a new pipe.
#[derive(Clone, Copy)]
pub struct Ends {
    pub read: u32,
    pub write: u32,
}

impl Files {
    /// A new pipe, whose ends get the two least free descriptors (pipe2(2), and pipe(2) without flags);
    /// `flags` is None where there are others. EINVAL for those; EMFILE where fewer than two descriptors
    /// are free. After NoMemory the files are not used again.
    #[tactic(auto, unfolding(kernel_model::specs::DescriptorRows::make_pipe))]
    pub fn make_pipe(&mut self, flags: Option<PipeFlags>) -> Result<Ends, CoreError>
        ensures row { AnswersPipe (make_pipe self.old (option_map flags_of flags)) result self.new }
    {
        let Some(flags) = flags else {
            return Err(CoreError::Refused(Errno::EINVAL));
        };
        let Some(read) = self.table.lowest(0) else {
            return Err(CoreError::Refused(Errno::EMFILE));
        };
        let Some(write) = self.table.lowest(read + 1) else {
            return Err(CoreError::Refused(Errno::EMFILE));
        };
        self.open_pipe(flags, read, write)?;
        Ok(Ends { read, write })
    }

    /// Opens both ends of a new pipe at these descriptors, the two least that are free.
    fn open_pipe(&mut self, flags: PipeFlags, read: u32, write: u32) -> Result<(), NoMemory>
        requires read { lowest_free self.old.table.fds 0 ≡ Some read }
        requires write { lowest_free self.old.table.fds (read + 1) ≡ Some write }
        requires valid { IsTable self.old.table }
        ensures { OnOk result (self.new ≡ after_pipe self.old (flags_of flags) (new_place self.old.flow.pipes) (ends read write)) }
    {
        let number = self.flow.new_number();
        let bytes = Pipe::new(self.alloc)?;
        let reading = end_description(Object::ReadEnd(number), Access::Read, flags.nonblock);
        let writing = end_description(Object::WriteEnd(number), Access::Write, flags.nonblock);
        self.insert(read, reading, flags.cloexec)?;
        self.insert(write, writing, flags.cloexec)?;
        self.flow.open(number, bytes);
        Ok(())
    }
}

fn end_description(object: Object, access: Access, nonblock: bool) -> Description
    ensures { result ≡ description_of object (record (no_flags access) { nonblock = nonblock }) }
{
    Description {
        object,
        position: 0,
        flags: with_nonblock_alone(access, nonblock),
    }
}
