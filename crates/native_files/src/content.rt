//! The calls on what a descriptor has open: fsync(2), and the requests of ioctl_tty(2).
ghost use Rattle.std.specs.Prelude.{◌≡◌};
ghost use Rattle.kernel_model.specs.ContentRows.{if_stream, set_terminal_settings, sync, terminal_settings, window_size};
ghost use Rattle.native_files.specs.Answers.{came_of};

use crate::files::Files;
use kernel_core::Errno;
use kernel_model::{Object, Terminal, TerminalSettings, Winsize};

impl Files {
    /// Writes what a node has to the disk, where there is nothing to do (fsync(2), fdatasync(2)). EBADF where
    /// the descriptor is not open; EINVAL for streams and pipes.
    #[tactic(auto, unfolding(kernel_model::specs::ContentRows::sync))]
    pub fn sync(&self, fd: u32) -> Result<(), Errno>
        ensures came { came_of result ≡ (sync self.now fd).came }
        ensures state { (sync self.now fd).state ≡ self.now }
    {
        match self.opened(fd) {
            None => Err(Errno::EBADF),
            Some(description) => match description.object {
                Object::Stream(_) => Err(Errno::EINVAL),
                Object::ReadEnd(_) => Err(Errno::EINVAL),
                Object::WriteEnd(_) => Err(Errno::EINVAL),
                Object::Node(_) => Ok(()),
            },
        }
    }

    /// The settings of the terminal (TCGETS of ioctl_tty(2)). EBADF where the descriptor is not open; ENOTTY
    /// where it leads to no terminal.
    #[tactic(auto, unfolding(kernel_model::specs::ContentRows::terminal_settings))]
    pub fn terminal_settings(&self, fd: u32) -> Result<TerminalSettings, Errno>
        ensures came { came_of result ≡ (terminal_settings self.now fd).came }
        ensures state { (terminal_settings self.now fd).state ≡ self.now }
    {
        match self.opened(fd) {
            None => Err(Errno::EBADF),
            Some(description) => match self.terminal_of(description.object) {
                None => Err(Errno::ENOTTY),
                Some(terminal) => Ok(terminal.settings),
            },
        }
    }

    /// Sets the settings of the terminal (TCSETS, TCSETSW and TCSETSF of ioctl_tty(2)); `settings` is the
    /// error of reading them where that failed. EBADF where the descriptor is not open; ENOTTY where it
    /// leads to no terminal. It takes no memory.
    #[tactic(auto, unfolding(kernel_model::specs::ContentRows::set_terminal_settings))]
    pub fn set_terminal_settings(
        &mut self,
        fd: u32,
        settings: Result<TerminalSettings, Errno>,
    ) -> Result<(), Errno>
        ensures came { came_of result ≡ (set_terminal_settings self.old fd settings).came }
        ensures state { self.new ≡ (set_terminal_settings self.old fd settings).state }
    {
        let Some(description) = self.opened(fd) else {
            return Err(Errno::EBADF);
        };
        let Some(terminal) = self.terminal_of(description.object) else {
            return Err(Errno::ENOTTY);
        };
        match settings {
            Err(error) => Err(error),
            Ok(settings) => {
                self.terminal = Some(Terminal {
                    size: terminal.size,
                    settings,
                });
                Ok(())
            }
        }
    }

    /// The size of the terminal's window (TIOCGWINSZ of ioctl_tty(2)). EBADF where the descriptor is not
    /// open; ENOTTY where it leads to no terminal.
    #[tactic(auto, unfolding(kernel_model::specs::ContentRows::window_size))]
    pub fn window_size(&self, fd: u32) -> Result<Winsize, Errno>
        ensures came { came_of result ≡ (window_size self.now fd).came }
        ensures state { (window_size self.now fd).state ≡ self.now }
    {
        match self.opened(fd) {
            None => Err(Errno::EBADF),
            Some(description) => match self.terminal_of(description.object) {
                None => Err(Errno::ENOTTY),
                Some(terminal) => Ok(terminal.size),
            },
        }
    }

    /// The terminal that an object is, where it is one.
    fn terminal_of(&self, object: Object) -> Option<Terminal>
        ensures { result ≡ if_stream self.now.terminal object }
    {
        match object {
            Object::Stream(_) => self.terminal,
            Object::ReadEnd(_) => None,
            Object::WriteEnd(_) => None,
            Object::Node(_) => None,
        }
    }
}
