//! Why nothing is run.
ghost use Rattle.std.specs.Prelude.{◌≡◌};
ghost use Rattle.session_files.specs.Steps.{of_words, of_load, of_elf, of_image, of_schedule, of_start, of_journal};

use crate::refusal::Refusal;
use elf_image::ElfError;
use fs_image::ImageError;
use journal::JournalError;
use kernel_core::NoMemory;
use outside::LoadError;
use schedule::ScheduleError;
use session_words::WordsError;
use start_stack::StartError;
use std::alloc::AllocError;

/// Why nothing is run, as the steps before a run tell it. (The kinds are this project's own.)
#[derive(Clone, Copy)]
pub enum NotRun {
    /// The words, a file or the arguments are refused.
    Refused(Refusal),
    /// The store failed, and its count of faulty loads rose.
    ReadFault,
    /// Memory ran out.
    NoMemory,
}

impl NotRun {
    /// Why nothing is run where the file of this number was not loaded.
    pub(crate) fn of_load(file: u8, error: LoadError) -> NotRun
        ensures { result ≡ of_load file error }
    {
        match error {
            LoadError::Missing => NotRun::Refused(Refusal::Missing { file }),
            LoadError::TooLong => NotRun::Refused(Refusal::TooLong { file }),
            LoadError::Failed => NotRun::ReadFault,
            LoadError::NoMemory => NotRun::NoMemory,
        }
    }
}

impl From<AllocError> for NotRun {
    ghost use Rattle.session_files.specs.declared.not_run.NotRun.TheVariants.{NoMemory};

    ghost from_gives = { λ _ reason. reason ≡ NoMemory };

    fn from(_error: AllocError) -> NotRun {
        NotRun::NoMemory
    }
}

impl From<NoMemory> for NotRun {
    ghost use Rattle.session_files.specs.declared.not_run.NotRun.TheVariants as reasons;

    ghost from_gives = { λ _ reason. reason ≡ reasons.NoMemory };

    fn from(_error: NoMemory) -> NotRun {
        NotRun::NoMemory
    }
}

impl From<WordsError> for NotRun {
    ghost from_gives = { λ error reason. reason ≡ of_words error };

    fn from(error: WordsError) -> NotRun {
        match error {
            WordsError::Usage { word } => NotRun::Refused(Refusal::Usage { word }),
            WordsError::NoMemory => NotRun::NoMemory,
        }
    }
}

impl From<ElfError> for NotRun {
    ghost from_gives = { λ error reason. reason ≡ of_elf error };

    fn from(error: ElfError) -> NotRun {
        match error {
            ElfError::Refused(rule) => NotRun::Refused(Refusal::Elf(rule)),
            ElfError::NoMemory => NotRun::NoMemory,
        }
    }
}

impl From<ImageError> for NotRun {
    ghost from_gives = { λ error reason. reason ≡ of_image error };

    fn from(error: ImageError) -> NotRun {
        match error {
            ImageError::Refused(broken) => NotRun::Refused(Refusal::Image(broken)),
            ImageError::NoMemory => NotRun::NoMemory,
        }
    }
}

impl From<ScheduleError> for NotRun {
    ghost from_gives = { λ error reason. reason ≡ of_schedule error };

    fn from(error: ScheduleError) -> NotRun {
        match error {
            ScheduleError::Refused(broken) => NotRun::Refused(Refusal::Schedule(broken)),
            ScheduleError::NoMemory => NotRun::NoMemory,
        }
    }
}

impl From<StartError> for NotRun {
    ghost from_gives = { λ error reason. reason ≡ of_start error };

    fn from(error: StartError) -> NotRun {
        match error {
            StartError::TooLong => NotRun::Refused(Refusal::Start),
            StartError::NoMemory => NotRun::NoMemory,
        }
    }
}

impl From<JournalError> for NotRun {
    ghost from_gives = { λ error reason. reason ≡ of_journal error };

    fn from(error: JournalError) -> NotRun {
        match error {
            JournalError::Bad { at } => NotRun::Refused(Refusal::Journal { at }),
            JournalError::NoMemory => NotRun::NoMemory,
        }
    }
}
