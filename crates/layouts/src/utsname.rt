//! The texts of uname(2), which both worlds have at the same places.
ghost use Rattle.std.specs.Prelude.{◌≡◌, ◌<◌, ◌≤◌, length};
ghost use Rattle.layouts.specs.Utsname as spec;

use crate::dirent::put_part;

/// The texts of uname(2), in their order.
#[derive(Clone, Copy)]
pub enum UtsnameText {
    Sysname,
    Nodename,
    Release,
    Version,
    Machine,
    Domainname,
}

impl UtsnameText {
    /// Where it begins, in bytes.
    fn offset(self) -> usize
        ensures value { result ≡ spec.text_offset self }
        ensures within { result ≤ 325 }
    {
        match self {
            UtsnameText::Sysname => 0,
            UtsnameText::Nodename => 65,
            UtsnameText::Release => 130,
            UtsnameText::Version => 195,
            UtsnameText::Machine => 260,
            UtsnameText::Domainname => 325,
        }
    }
}

/// Writes a text of uname(2), of at most 64 bytes, into its place, with NULs up to the place's end.
pub fn put_text(bytes: &mut [u8], text: UtsnameText, name: &[u8])
    requires whole { length bytes.old ≡ 390 }
    requires short { length name.now < 65 }
    ensures { bytes.new ≡ spec.with_text text name.now bytes.old }
{
    let mut place = [0; 65];
    put_part(&mut place, 0, name);
    put_part(bytes, text.offset(), &place);
}
