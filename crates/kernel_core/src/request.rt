//! Requests of ioctl(2) by name.

/// What ioctl(2) is asked for, by the names of ioctl_tty(2).
#[derive(Clone, Copy, PartialEq, Eq)]
pub enum Request {
    Tcgets,
    Tcsets,
    Tcsetsw,
    Tcsetsf,
    Tiocgwinsz,
    Fionread,
    Fionbio,
    Fioclex,
    Fionclex,
}
