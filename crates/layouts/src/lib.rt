//! The structures that a program and its kernel hand each other, as tables of their fields.
#![tactic(auto)]

mod dirent;
mod field;
pub mod field_index;
mod native;
mod o32;
mod record;
mod table;
mod termios;
mod utsname;

pub use dirent::{EntryType, dirent_length, dirent64_length, put_dirent, put_dirent64};
pub use field::{Field, Fit, Layout, get, low_word, put, put_low};
pub use native::{
    NAT_DIRENT64, NAT_IOVEC, NAT_ITIMERVAL, NAT_POLLFD, NAT_RLIMIT, NAT_SIGACTION, NAT_SIGINFO,
    NAT_STACK, NAT_STAT, NAT_TERMIOS, NAT_TIMESPEC, NAT_TIMEVAL, NAT_UTSNAME, NAT_WINSIZE,
    NativeStructure, native_layout,
};
pub use o32::{
    O32_DIRENT, O32_DIRENT64, O32_FRAME, O32_IOVEC, O32_ITIMERVAL, O32_POLLFD, O32_RLIMIT,
    O32_RLIMIT64, O32_RT_FRAME, O32_RT_FRAME_FAULT, O32_SIGACTION, O32_SIGCONTEXT, O32_SIGINFO,
    O32_SIGINFO_FAULT, O32_STACK, O32_STAT, O32_STAT64, O32_TERMIOS, O32_TIMESPEC, O32_TIMEVAL,
    O32_UTSNAME, O32_WINSIZE, O32Structure, o32_layout,
};
pub use record::{a_record_reads_back, get_record, put_record};
pub use termios::{native_characters, o32_characters};
pub use utsname::{UtsnameText, put_text};
