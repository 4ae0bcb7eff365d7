//! Scripts: sessions, one after the other, and what each comes to. Each line is read by itself. The last line of a session has its
//! words, as they are typed, and how it ends, its status and its turns; or why it is refused, and the line that it writes:
//!
//!     o32run run --budget 5 p = budget 124 5
//!     o32run run q ! missing 1 : o32run: file 1 missing
//!
//! The lines before it say what it is given and what it has to leave:
//!
//!     addiu $v0 $zero exit; syscall    instructions of its program, the file `p`, of one page
//!     file i @one_file                 a file, by its name and its bytes
//!     change 20 \x01                   bytes that are written over those of that file, from a place on
//!     copy 52 84 84                    bytes of that file, from a place to another, that are written from a third on
//!     more \0                          bytes behind those of that file
//!     input xy                         standard input
//!     fails put 2                      a call that fails, counted from 1: `take`, `put`, `line` (to standard error) or `store`
//!     out Hi\n                         what it writes to standard output, where it writes anything
//!     err H                            what it writes to standard error
//!     saved old                        what is then in the file `s`, where there is one
//!     trace 9 exit 7                   a line that is then in the file `trace`, where there is one
//!     traced 9 ex                      the same without the end of the line
//!     native 5 clock 5000              a line that is then in the file `native`, where there is one
//!     logged 5 cl                      the same without the end of the line
//!
//! Among the words of a session `""` is the empty one, and `a*9` has nine letters.
use crate::ends::{outcome_of, refused};
use crate::sessions::{Outcome, comes_out};
use session_settings::Setting;
use std::alloc::Global;
use std::mem::replace;
use std::test::Fail;

/// What a session comes to, by its words.
fn comes_to(
    alloc: Global,
    setting: &mut Setting,
    words: &str,
    outcome: &Outcome,
) -> Result<bool, Fail> {
    setting.runs(alloc, words)?;
    Ok(comes_out(alloc, replace(setting, Setting::new(alloc)), outcome))
}

/// Whether a session is refused so, with this line.
fn is_refused(
    alloc: Global,
    setting: &mut Setting,
    words: &str,
    refusal: &str,
) -> Result<bool, Fail> {
    let (refusal, line) = refusal.split_once(" : ").ok_or("no line")?;
    setting.tells(line)?;
    comes_to(alloc, setting, words, &refused(alloc, refusal)?)
}

/// Whether a session comes out as the rest of its line says.
fn is_right(alloc: Global, setting: &mut Setting, text: &str) -> Result<bool, Fail> {
    if let Some((words, refusal)) = text.split_once(" ! ") {
        return is_refused(alloc, setting, words, refusal);
    }
    let (words, outcome) = text.split_once(" = ").ok_or("no end")?;
    comes_to(alloc, setting, words, &outcome_of(alloc, outcome)?)
}

/// Takes what is common to the sessions of a script.
fn take_common(alloc: Global, setting: &mut Setting, text: &str) -> Result<(), Fail> {
    for line in text.lines() {
        let line = line.trim();
        if !line.is_empty() {
            setting.take(alloc, line)?;
        }
    }
    Ok(())
}

/// The first session that comes out otherwise, where nothing has been said of the first.
fn first_wrong_from(
    alloc: Global,
    setting: &mut Setting,
    common: &str,
    script: &str,
) -> Result<Option<usize>, Fail> {
    let mut place: usize = 0;
    let mut is_ended = false;
    take_common(alloc, setting, common)?;
    for line in script.lines() {
        let line = line.trim();
        if let Some(text) = line.strip_prefix("o32run") {
            if !is_right(alloc, setting, text)? {
                return Ok(Some(place));
            }
            take_common(alloc, setting, common)?;
            place = place.saturating_add(1);
            is_ended = true;
        } else if !line.is_empty() {
            setting.take(alloc, line)?;
            is_ended = false;
        }
    }
    if is_ended {
        Ok(None)
    } else {
        Err(Fail::from("a session is cut off"))
    }
}

/// The first session of a script that comes out otherwise, counted from 0. Some lines are common to all of them.
pub fn first_wrong(alloc: Global, common: &str, script: &str) -> Result<Option<usize>, Fail> {
    let mut setting = Setting::new(alloc);
    first_wrong_from(alloc, &mut setting, common, script)
}
