//! The call that reads a symbolic link (readlink(2)).
ghost use Rattle.std.specs.Prelude.{◌≡◌, take};
ghost use Rattle.kernel_model.specs.NameRows as rows;
ghost use Rattle.native_files.specs.Answers.{Answers, IsPlain, WhereRead, base_of, text_of};
ghost use Rattle.native_files.specs.Texts.{text_told};
ghost use Rattle.native_files.specs.inside.Targets.{read_target};

use crate::files::Files;
use crate::walking::{Base, PathFrom, walk_to_node};
use kernel_core::{CoreError, Errno};
use native_vfs::NodeKind;

impl Files {
    /// The target of a symbolic link (readlink(2), readlinkat(2)), as many bytes of it as `size` says. It is refused
    /// with what was wrong with the path; EINVAL for a size below 1; as the walk is, ENOENT where it leads to nothing;
    /// EINVAL where it leads to something else.
    #[tactic(auto, unfolding(kernel_model::specs::NameRows::read_link))]
    pub fn read_link(
        &self,
        base: Base,
        path: Result<&[u8], Errno>,
        size: i64,
    ) -> Result<&[u8], CoreError>
        requires path { WhereRead IsPlain (text_of path) }
        ensures row { Answers (rows.read_link self.now (base_of base) (text_of path.entry) size) (text_told result) self.now }
    {
        match path {
            Err(error) => Err(CoreError::Refused(error)),
            Ok(path) => {
                if size < 1 {
                    return Err(CoreError::Refused(Errno::EINVAL));
                }
                self.read_link_named(base, path, size.unsigned_abs())
            }
        }
    }

    fn read_link_named(&self, base: Base, path: &[u8], most: u64) -> Result<&[u8], CoreError>
        requires path { IsPlain path.now }
        ensures row { Answers (read_target self.now (base_of base) path.now most) (text_told result) self.now }
    {
        let keys = self.node_keys.as_slice();
        let from = PathFrom { base, path };
        match walk_to_node(&self.vfs, &self.table, keys, self.directory, from, false) {
            Err(error) => Err(error),
            Ok(node) => match self.vfs.kind(node) {
                NodeKind::Link => Ok(first_bytes(self.vfs.target(node), most)),
                NodeKind::File => Err(CoreError::Refused(Errno::EINVAL)),
                NodeKind::Directory => Err(CoreError::Refused(Errno::EINVAL)),
            },
        }
    }
}

/// The first bytes of a text, at most so many.
fn first_bytes(text: &[u8], most: u64) -> &[u8]
    ensures { result.now ≡ take most text.now }
{
    if most >= text.len() as u64 {
        text
    } else {
        &text[..most as usize]
    }
}
