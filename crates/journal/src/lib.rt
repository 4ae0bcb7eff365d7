//! The journal of a finished run as bytes, and back: version 1 of this project's own format
//! (`specs/Text.antt` has the text of a journal, `specs/Form.antt` and `specs/Reading.antt` the form
//! that it keeps).
#![tactic(auto)]

mod effects;
mod fields;
mod kept;
mod parsing;
mod records;
mod refusal;
mod turns;
mod writing;

pub use effects::{Effects, ReadEffect};
pub use kept::Journal;
pub use parsing::{parse, text_is_accepted, text_is_of_one_journal};
pub use records::{ReadRecord, Records};
pub use refusal::JournalError;
pub use writing::{add, head};

#[cfg(test)]
mod tests;
