//! The entries of a directory that is open (getdents(2)).
ghost use Rattle.std.specs.Prelude.{◌≡◌, ◌≤◌, All, IsSome, IfOk, Some, length};
ghost use Rattle.kernel_core.specs.Nodes.{listing_at};
ghost use Rattle.kernel_model.specs.ContentRows as rows;
ghost use Rattle.kernel_model.specs.Descriptions.{node_of, opened};
ghost use Rattle.native_files.specs.Answers.{Answers, entries_told, entry_records};
ghost use Rattle.native_files.specs.declared.progress.Entry.{Entry};
ghost use Rattle.native_files.specs.inside.Contents.{number_in};
ghost use Rattle.native_files.specs.inside.Listings.{GivesAt, list_node};

use crate::files::Files;
use crate::listing::{Given, directory_entries};
use crate::nodes::key_at;
use crate::progress::Entry;
use kernel_core::{CoreError, Errno, Items};
use kernel_model::{Description, Object};

impl Files {
    /// The entries of a directory behind the description's position, which moves to the last of them
    /// (getdents64(2)), `.` and `..` first: as many as have records that fit into `size` bytes. `room` is how
    /// many bytes can be stored. EBADF where the descriptor is not open; ENOTDIR for what is no directory;
    /// ENOENT for a removed one; EINVAL where the first record does not fit; EFAULT where the records can't all
    /// be stored. After NoMemory the files are not used again.
    #[tactic(auto, unfolding(kernel_model::specs::ContentRows::entries))]
    pub fn entries(&mut self, fd: u32, size: u32, room: usize) -> Result<Items<Entry>, CoreError>
        ensures row { Answers (rows.entries self.old fd entry_records size room) (entries_told result) self.new }
        ensures names { IfOk result (λ entries. All (λ (entry : Entry). length entry.name ≤ 255) entries) }
    {
        match self.opened(fd) {
            None => Err(CoreError::Refused(Errno::EBADF)),
            Some(description) => match description.object {
                Object::Stream(_) => Err(CoreError::Refused(Errno::ENOTDIR)),
                Object::ReadEnd(_) => Err(CoreError::Refused(Errno::ENOTDIR)),
                Object::WriteEnd(_) => Err(CoreError::Refused(Errno::ENOTDIR)),
                Object::Node(_) => self.list_node(fd, description, size, room),
            },
        }
    }

    /// The entries of the node that a description has open.
    fn list_node(
        &mut self,
        fd: u32,
        description: Description,
        size: u32,
        room: usize,
    ) -> Result<Items<Entry>, CoreError>
        requires open { opened self.old fd ≡ Some description }
        requires node { IsSome (node_of description.object) }
        ensures row { Answers (list_node self.old fd description (number_in description.object) size room) (entries_told result) self.new }
        ensures names { IfOk result (λ entries. All (λ (entry : Entry). length entry.name ≤ 255) entries) }
    {
        match self.given(fd, &description, size) {
            Err(error) => Err(error),
            Ok(given) => {
                let Given {
                    entries,
                    cookie,
                    left,
                } = given;
                if u64::from(size) - left > room as u64 {
                    return Err(CoreError::Refused(Errno::EFAULT));
                }
                self.move_to(fd, description, cookie);
                Ok(Items::from(entries))
            }
        }
    }

    /// The entries behind the position whose records fit into so many bytes.
    fn given(&self, fd: u32, description: &Description, size: u32) -> Result<Given, CoreError>
        requires open { opened self.now fd ≡ Some description.now }
        requires node { IsSome (node_of description.now.object) }
        ensures { GivesAt self.now.nodes (number_in description.now.object) description.now.position size (listing_at self.now.nodes (number_in description.now.object)) result }
    {
        let key = key_at(&self.table, self.node_keys.as_slice(), fd);
        directory_entries(
            &self.vfs,
            self.alloc,
            key,
            description.position,
            u64::from(size),
        )
    }
}
