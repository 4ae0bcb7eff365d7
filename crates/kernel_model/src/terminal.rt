//! The terminal that the streams are, where they are one (termios(3), ioctl_tty(2)).

/// The size of a terminal's window in characters (TIOCGWINSZ).
#[derive(Clone, Copy)]
pub struct Winsize {
    pub rows: u16,
    pub cols: u16,
}

/// The special characters that the settings of both worlds have a place for, by their names in
/// termios(3) without the prefix `V`.
#[derive(Clone, Copy)]
pub struct TerminalCharacters {
    pub intr: u8,
    pub quit: u8,
    pub erase: u8,
    pub kill: u8,
    pub min: u8,
    pub time: u8,
    pub eol2: u8,
    pub swtc: u8,
    pub start: u8,
    pub stop: u8,
    pub susp: u8,
    pub reprint: u8,
    pub discard: u8,
    pub werase: u8,
    pub lnext: u8,
    pub eof: u8,
    pub eol: u8,
}

/// The settings of a terminal: the four words of flags of termios(3), its line discipline and its
/// characters. They are kept and do nothing. (That they do nothing is this project's own.)
#[derive(Clone, Copy)]
pub struct TerminalSettings {
    pub input: u32,
    pub output: u32,
    pub control: u32,
    pub local: u32,
    pub line: u8,
    pub characters: TerminalCharacters,
}

/// A terminal.
#[derive(Clone, Copy)]
pub struct Terminal {
    pub size: Winsize,
    pub settings: TerminalSettings,
}
