//! ioctl(2) and fstat(2), of a terminal and a pipe.

use crate::calls::first_wrong_of_new;
use std::test::Fail;

/// The streams are a terminal of 24 rows and 80 columns, with the number 0x8800 and the mode 020620; a pipe has
/// the mode 010600. Of the terminal's 19 characters the last two have no name, and are not kept.
const TERMINAL_AND_STATUS: &str = "
    ioctl 0 tiocgwinsz at : room 8 = 0 : short 24 80 0 0
    ioctl 0 tiocgwinsz at : room 7 ! efault
    ioctl 9 tiocgwinsz at : room 8 ! ebadf
    ioctl 1 tcsets at : int 1 0 0 0 byte 5 3 zeros 16 byte 9 0 = 0
    ioctl 0 tcgets at : room 36 = 0 : int 1 0 0 0 byte 5 3 zeros 18
    ioctl 0 tcgets at : room 35 ! efault
    ioctl 0 tcsetsf at : room 35 ! efault
    ioctl 0 tcsets at : room 35 ! efault
    ioctl 0 tcsetsw at : room 35 ! efault
    ioctl 2 tcsetsw at : int 2 0 0 0 byte 6 4 zeros 18 = 0
    ioctl 0 tcgets at : room 36 = 0 : int 2 0 0 0 byte 6 4 zeros 18
    ioctl 0 tcsetsf at : int 3 0 0 0 byte 7 5 zeros 18 = 0
    ioctl 0 tcgets at : room 36 = 0 : int 3 0 0 0 byte 7 5 zeros 18
    ioctl 9 tcgets at : room 36 ! ebadf
    ioctl 9 tcsets at : room 36 ! ebadf
    ioctl 9 tcsetsw at : room 36 ! ebadf
    ioctl 9 tcsetsf at : room 36 ! ebadf
    ioctl 9 fionread at : room 4 ! ebadf
    ioctl 9 fionbio at : room 4 ! ebadf
    ioctl 9 fioclex ! ebadf
    ioctl 9 fionclex ! ebadf
    ioctl 0 fionread at : room 4 ! enotty
    pipe2 at : room 8 = 0 : int 3 4
    ioctl 3 tcgets at : room 36 ! enotty
    ioctl 3 tcsets nowhere ! enotty
    ioctl 3 tcsetsw nowhere ! enotty
    ioctl 3 tcsetsf nowhere ! enotty
    ioctl 3 tiocgwinsz at : room 8 ! enotty
    write 4 at 3 : room 3 = 3
    ioctl 3 fionread at : room 4 = 0 : int 3
    ioctl 3 fionread at : room 3 ! efault
    ioctl 3 fionbio at : int 256 = 0
    fcntl 3 f_getfl = 0x800
    ioctl 3 fionbio at : room 3 ! efault
    ioctl 3 fioclex nowhere = 0
    fcntl 3 f_getfd = 1
    ioctl 3 fionclex nowhere = 0
    fcntl 3 f_getfd = 0
    ioctl 3 other_fionbio at : room 4 ! enotty
    ioctl 9 other_fionbio at : room 4 ! ebadf
    fstat 3 at : room 128 = 0 : long 2 4 int 0x1180 1 0 0 long 0 0 0 4096 0 0 0 0 0 0 0 0
    fstat 1 at : room 128 = 0 : long 2 2 int 0x2190 1 0 0 long 0x8800 0 0 4096 0 0 0 0 0 0 0 0
    fstat 1 at+1 : room 128 ! efault
    fstat 9 at : room 128 ! ebadf
";

#[test]
fn terminal_and_status(rt: HostRuntime) -> Result<(), Fail> {
    assert_eq!(rt;
        first_wrong_of_new(rt.alloc(), "tty 24 80\n", TERMINAL_AND_STATUS)?,
        None
    );
    Ok(())
}
