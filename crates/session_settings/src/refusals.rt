//! What files are refused by, and how runs are over, in words.
use elf_image::ElfRefusal;
use fs_image::ImageRefusal;
use guest_scripts::reading::Words;
use kernel_core::Finish;
use schedule::ScheduleRefusal;
use std::test::Fail;

/// How a run was over that is replayed, or that of the soak program.
pub fn finish_of(words: &mut Words) -> Result<Finish, Fail> {
    match words.next()? {
        "exited" => Ok(Finish::Exited(words.byte()?)),
        "killed" => Ok(Finish::Killed(words.byte()?)),
        "budget" => Ok(Finish::Budget),
        "blocked" => Ok(Finish::Blocked),
        _ => Err(Fail::from("no finish")),
    }
}

/// The rule on executables of a name.
pub fn rule_of(name: &str) -> Option<ElfRefusal> {
    match name {
        "short" => Some(ElfRefusal::Short),
        "magic" => Some(ElfRefusal::Magic),
        "class" => Some(ElfRefusal::Class),
        "order" => Some(ElfRefusal::Order),
        "version" => Some(ElfRefusal::Version),
        "type" => Some(ElfRefusal::Type),
        "machine" => Some(ElfRefusal::Machine),
        "abi" => Some(ElfRefusal::Abi),
        "table" => Some(ElfRefusal::Table),
        "interp" => Some(ElfRefusal::Interp),
        "outside" => Some(ElfRefusal::Outside),
        "sizes" => Some(ElfRefusal::Sizes),
        "address" => Some(ElfRefusal::Address),
        "offset" => Some(ElfRefusal::Offset),
        "overlap" => Some(ElfRefusal::Overlap),
        "no_load" => Some(ElfRefusal::NoLoad),
        "pages" => Some(ElfRefusal::Pages),
        _ => None,
    }
}

/// The rule of an image's refusal, and its place.
pub fn image_refusal(words: &mut Words) -> Result<ImageRefusal, Fail> {
    let rule = words.byte()?;
    let at = words.number()?;
    Ok(ImageRefusal { rule, at })
}

/// The rule of a schedule's refusal, and its line.
pub fn schedule_refusal(words: &mut Words) -> Result<ScheduleRefusal, Fail> {
    let rule = words.byte()?;
    let line = words.number()?;
    Ok(ScheduleRefusal { line, rule })
}
