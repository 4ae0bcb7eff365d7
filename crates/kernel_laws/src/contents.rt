//! What files always are, kept by rows on what descriptors have open (getdents(2), ioctl_tty(2)).

ghost use Rattle.std.specs.Prelude.{ℕ};
ghost use Rattle.kernel_model.specs.Always.{IsFiles};
ghost use Rattle.kernel_model.specs.Came.{Given};
ghost use Rattle.kernel_model.specs.ContentRows.{entries, Records, set_terminal_settings};
ghost use Rattle.kernel_model.specs.State.{Files};
ghost use Rattle.kernel_model.specs.declared.terminal.TerminalSettings.{TerminalSettings};

/// Entries of a directory are given, and the position moves behind them.
pub fn giving_entries_keeps_files()
    ensures { (files : Files) (fd : ℕ) (records : Records) (size room : ℕ) → IsFiles files → IsFiles (entries files fd records size room).state }
{}

/// The terminal gets other settings.
pub fn setting_the_terminal_keeps_files()
    ensures { (files : Files) (fd : ℕ) (settings : Given TerminalSettings) → IsFiles files → IsFiles (set_terminal_settings files fd settings).state }
{}
