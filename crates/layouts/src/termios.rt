//! The control characters of a terminal, which the two worlds have at different places.
ghost use Rattle.std.specs.Prelude.{◌≡◌};
ghost use Rattle.layouts.specs.Termios as spec;

/// The characters of the native kernel that have those of an o32 program (termios(3)). A character
/// that an o32 program does not have is 0.
pub fn native_characters(o32: [u8; 23]) -> [u8; 19]
    ensures { result ≡ spec.native_characters o32 }
{
    [
        o32[0], o32[1], o32[2], o32[3], o32[16], o32[5], o32[4], o32[7], o32[8], o32[9], o32[10],
        o32[17], o32[12], o32[13], o32[14], o32[15], o32[6], 0, 0,
    ]
}

/// The characters of an o32 program that have those of the native kernel. A character that the
/// native kernel does not have is 0.
pub fn o32_characters(native: [u8; 19]) -> [u8; 23]
    ensures { result ≡ spec.o32_characters native }
{
    [
        native[0], native[1], native[2], native[3], native[6], native[5], native[16], native[7],
        native[8], native[9], native[10], 0, native[12], native[13], native[14], native[15],
        native[4], native[11], 0, 0, 0, 0, 0,
    ]
}
