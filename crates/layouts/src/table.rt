//! How the tables are written: each field as its name, its kind and its offset.

/// The fields of a table. The name of a field is for the reader alone.
macro_rules! fields {
    ($($name:ident $kind:ident $offset:literal,)*) => {
        &[$(field!($kind $offset),)*]
    };
}

/// One field: a number of 1, 2, 4 or 8 bytes, signed where its kind says so.
macro_rules! field {
    (byte $offset:literal) => {
        Field { offset: $offset, width: 1, signed: false }
    };
    (short $offset:literal) => {
        Field { offset: $offset, width: 2, signed: false }
    };
    (word $offset:literal) => {
        Field { offset: $offset, width: 4, signed: false }
    };
    (double $offset:literal) => {
        Field { offset: $offset, width: 8, signed: false }
    };
    (signed_word $offset:literal) => {
        Field { offset: $offset, width: 4, signed: true }
    };
    (signed_double $offset:literal) => {
        Field { offset: $offset, width: 8, signed: true }
    };
}

pub(crate) use field;
pub(crate) use fields;
