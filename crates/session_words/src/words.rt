//! The words after the emulator's own name: `run [--image F] [--schedule F] [--budget N] [--trace F] [--native F]
//! [--journal F] [--save F] [--env K=V].. PROGRAM [WORD..]`, `replay PROGRAM JOURNAL`, or `soak N`.

ghost use Rattle.std.specs.Prelude.{◌≡◌, ◌+◌, ◌<◌, ◌^◌, ◌==◌, length, drop, if◌then◌else◌, IfOk, IfErr, IfSome, Some, None, option_and_then, option_map};
ghost use Rattle.std.specs.List.{list_any, list_all, position};
ghost use Rattle.std.specs.Option.{option_copied};
ghost use Rattle.std.specs.String.{string_bytes};
ghost use Rattle.std.specs.Char.{is_ascii_digit};
ghost use Rattle.session_words.specs.Words.{texts, read_words, read_line, read_guest, budget_of, is_setting, is_program, is_file_name, is_plain_number, has_nul, no_options, Line, line_of, Asks, word_at, later_of_equal, equal_to_journal, equal_to_native, equal_to_saved, equal_to_written, equal_name, first_of, command_of, count_of, read_replay, read_soak};
ghost use Rattle.session_words.specs.inside.Steps.{read_from, step_of, step_at_option, step_at_setting, Option_or_program};
ghost use Rattle.session_words.specs.declared.words.Expected.TheVariants.{OptionOrProgram};
ghost use Rattle.session_words.specs.declared.words.Step.TheVariants.{GoesOn, IsWrong};
ghost use Rattle.session_words.specs.Read.{command_seen, reading_seen};
ghost use Rattle.session_words.specs.Read.{IsCount, soak_reading_seen};
ghost use Rattle.session_words.specs.inside.Reader.{IsRole, role_seen, guest_reading, options_seen};
ghost use Rattle.session_words.specs.Read.{line_seen, IsReason};

use std::alloc::{AllocError, AllocFailed, Global};

/// What the words begin with.
#[derive(Clone, Copy)]
pub enum Command {
    /// A run, or no command.
    Run,
    /// A replay.
    Replay,
    /// A run of the soak program.
    Soak,
}

/// What the words of a replay ask for.
#[derive(Clone, Copy)]
pub struct ReplayLine<'a> {
    /// The name of the program.
    pub program: &'a str,
    /// The name of the journal.
    pub journal: &'a str,
}

/// What the words of a run ask for.
#[derive(Drop)]
pub struct RunLine {
    /// The most turns that the run may take: 1 to 10^12.
    pub budget: u64,
    /// The guest's environment, in the order of its `--env` options.
    pub environment: Vec<String>,
    /// The index of PROGRAM: it and all words after it are the guest's arguments.
    pub program: usize,
    /// The index of the image's name, where there is an image.
    pub image: Option<usize>,
    /// The index of the schedule's name, where there is a schedule.
    pub schedule: Option<usize>,
    /// The index of the name of the file of the trace, where there is one.
    pub trace: Option<usize>,
    /// The index of the name of the file of the native log, where there is one.
    pub native: Option<usize>,
    /// The index of the name of the file of the journal, where there is one.
    pub journal: Option<usize>,
    /// The index of the name of the file that the final tree is saved to, where it is saved.
    pub save: Option<usize>,
}

/// Why the words give no run.
#[derive(Clone, Copy)]
pub enum WordsError {
    /// The index of the first word at which a reading from the left fails, or the number of words where one is missing.
    Usage { word: usize },
    /// There was no memory for the environment.
    NoMemory,
}

impl From<AllocError> for WordsError {
    ghost use Rattle.session_words.specs.declared.words.WordsError.TheVariants.{NoMemory};

    ghost from_gives = { λ _ e. e ≡ NoMemory };

    fn from(_error: AllocError) -> WordsError {
        WordsError::NoMemory
    }
}

impl<T: Drop> From<AllocFailed<T>> for WordsError {
    ghost use Rattle.session_words.specs.declared.words.WordsError.TheVariants.{NoMemory};

    ghost from_gives = { λ _ e. e ≡ NoMemory };

    fn from(_error: AllocFailed<T>) -> WordsError {
        WordsError::NoMemory
    }
}

/// The most turns of a run whose words give no budget.
pub const DEFAULT_BUDGET: u64 = 1_000_000_000;

/// The greatest budget.
const GREATEST_BUDGET: u64 = 1_000_000_000_000;

/// The greatest count of numbers of a soak.
const GREATEST_COUNT: u32 = 65_536;

/// The role of a word in the place of an option.
enum Role {
    Image,
    Schedule,
    Budget,
    Trace,
    Native,
    Journal,
    Save,
    Environment,
    Program,
    Unknown,
}

/// What the reader looks for next.
#[derive(Clone, Copy)]
enum Expected {
    OptionOrProgram,
    ImageValue,
    ScheduleValue,
    BudgetValue,
    TraceValue,
    NativeValue,
    JournalValue,
    SaveValue,
    EnvironmentValue,
}

fn holds_nul(word: &str) -> bool
    ensures { result ≡ has_nul word.now }
{
    word.as_bytes().iter().any(|byte| *byte == 0)
}

fn has_later_equals(word: &str) -> bool
    ensures { result ≡ list_any (λ byte. byte == 61) (drop 1 word.now) }
{
    word.as_bytes().iter().skip(1).any(|byte| *byte == b'=')
}

fn is_setting_word(word: &str) -> bool
    ensures { result ≡ is_setting word.now }
{
    !holds_nul(word) && has_later_equals(word)
}

fn is_program_word(word: &str) -> bool
    ensures { result ≡ is_program word.now }
{
    match word.as_bytes() {
        [] => false,
        [first, ..] => *first != b'-' && !holds_nul(word),
    }
}

fn is_name_of_file(word: &str) -> bool
    ensures { result ≡ is_file_name word.now }
{
    match word.as_bytes() {
        [] => false,
        [_, ..] => !holds_nul(word),
    }
}

fn is_all_digits(word: &str) -> bool
    ensures { result ≡ list_all is_ascii_digit word.now }
{
    word.as_bytes().iter().all(|byte| byte.is_ascii_digit())
}

fn is_plain(word: &str) -> bool
    ensures { result ≡ is_plain_number word.now }
{
    let first = word.as_bytes().first().copied().unwrap_or(0);
    first > b'0' && is_all_digits(word)
}

fn budget(word: &str) -> Option<u64>
    ensures { result ≡ budget_of word.now }
{
    if !is_plain(word) {
        return None;
    }
    let turns = word.parse::<u64>().ok()?;
    (turns <= GREATEST_BUDGET).then_some(turns)
}

fn count(word: &str) -> Option<u32>
    ensures { result ≡ count_of word.now }
{
    if !is_plain(word) {
        return None;
    }
    let numbers = word.parse::<u32>().ok()?;
    (numbers <= GREATEST_COUNT).then_some(numbers)
}

fn role_of(word: &str) -> Role
    ensures { IsRole word.now result }
{
    if word == "--image" {
        Role::Image
    } else if word == "--schedule" {
        Role::Schedule
    } else if word == "--budget" {
        Role::Budget
    } else if word == "--trace" {
        Role::Trace
    } else if word == "--native" {
        Role::Native
    } else if word == "--journal" {
        Role::Journal
    } else if word == "--save" {
        Role::Save
    } else if word == "--env" {
        Role::Environment
    } else if is_program_word(word) {
        Role::Program
    } else {
        Role::Unknown
    }
}

/// The index of a word, where it may be the name of a file.
fn file_name(at: usize, word: &str) -> Option<usize>
    ensures { result ≡ (if is_file_name word.now then Some at else None) }
{
    is_name_of_file(word).then_some(at)
}

/// The options that were read.
#[derive(Drop)]
struct Options {
    image: Option<usize>,
    schedule: Option<usize>,
    budget: Option<u64>,
    trace: Option<usize>,
    native: Option<usize>,
    journal: Option<usize>,
    save: Option<usize>,
    environment: Vec<String>,
}

/// What one word does: the reading goes on, or the word is PROGRAM, or it is wrong.
enum Step {
    GoesOn(Expected),
    IsProgram,
    IsWrong,
}

/// Keeps the value of an option in its place: a value that is none is a wrong word.
fn keep<T: Copy>(place: &mut Option<T>, value: Option<T>) -> Step
    ensures kept { IfSome value (λ v. (result ≡ GoesOn OptionOrProgram) × (place.new ≡ Some v)) }
    ensures wrong { value ≡ None → result ≡ IsWrong }
{
    if value.is_none() {
        return Step::IsWrong;
    }
    *place = value;
    Step::GoesOn(Expected::OptionOrProgram)
}

impl Options {
    ghost use Rattle.session_words.specs.inside.Reader.{expected_seen, StepIs};

    fn new(alloc: Global) -> Self
        ensures { options_seen result ≡ no_options }
    {
        Options {
            image: None,
            schedule: None,
            budget: None,
            trace: None,
            native: None,
            journal: None,
            save: None,
            environment: Vec::new(alloc),
        }
    }

    /// What the word of index `at` does.
    fn step(
        &mut self,
        alloc: Global,
        expected: Expected,
        at: usize,
        word: &str,
    ) -> Result<Step, AllocError>
        ensures { IfOk result (λ step. StepIs (step_of at (expected_seen expected) (options_seen self.old) word.now) step self.old self.new) }
    {
        match expected {
            Expected::OptionOrProgram => Ok(self.step_at_option(role_of(word))),
            Expected::ImageValue => Ok(keep(&mut self.image, file_name(at, word))),
            Expected::ScheduleValue => Ok(keep(&mut self.schedule, file_name(at, word))),
            Expected::BudgetValue => Ok(keep(&mut self.budget, budget(word))),
            Expected::TraceValue => Ok(keep(&mut self.trace, file_name(at, word))),
            Expected::NativeValue => Ok(keep(&mut self.native, file_name(at, word))),
            Expected::JournalValue => Ok(keep(&mut self.journal, file_name(at, word))),
            Expected::SaveValue => Ok(keep(&mut self.save, file_name(at, word))),
            Expected::EnvironmentValue => self.step_at_setting(alloc, word),
        }
    }

    fn step_at_option(&self, role: Role) -> Step
        ensures { StepIs (step_at_option (options_seen self.now) (role_seen role)) result self.now self.now }
    {
        match role {
            Role::Image if self.image.is_some() => Step::IsWrong,
            Role::Image => Step::GoesOn(Expected::ImageValue),
            Role::Schedule if self.schedule.is_some() => Step::IsWrong,
            Role::Schedule => Step::GoesOn(Expected::ScheduleValue),
            Role::Budget if self.budget.is_some() => Step::IsWrong,
            Role::Budget => Step::GoesOn(Expected::BudgetValue),
            Role::Trace if self.trace.is_some() => Step::IsWrong,
            Role::Trace => Step::GoesOn(Expected::TraceValue),
            Role::Native if self.native.is_some() => Step::IsWrong,
            Role::Native => Step::GoesOn(Expected::NativeValue),
            Role::Journal if self.journal.is_some() => Step::IsWrong,
            Role::Journal => Step::GoesOn(Expected::JournalValue),
            Role::Save if self.save.is_some() => Step::IsWrong,
            Role::Save => Step::GoesOn(Expected::SaveValue),
            Role::Environment => Step::GoesOn(Expected::EnvironmentValue),
            Role::Program => Step::IsProgram,
            Role::Unknown => Step::IsWrong,
        }
    }

    fn step_at_setting(&mut self, alloc: Global, word: &str) -> Result<Step, AllocError>
        ensures { IfOk result (λ step. StepIs (step_at_setting (options_seen self.old) word.now) step self.old self.new) }
    {
        if is_setting_word(word) {
            self.environment.push(String::from_str(alloc, word)?)?;
            Ok(Step::GoesOn(Expected::OptionOrProgram))
        } else {
            Ok(Step::IsWrong)
        }
    }
}

/// The index of the first of the guest's words that holds a NUL, where `words` begin at index `from`.
fn guest_error(words: &[String], from: usize) -> Option<usize>
    requires { from + length words.now < 2 ^ 64 }
    ensures { (line : Line) → read_guest line from (texts words.now) ≡ guest_reading line result }
{
    Some(from + first_with_nul(words)?)
}

/// The place of the first word that holds a NUL.
fn first_with_nul(words: &[String]) -> Option<usize>
    ensures { result ≡ position (λ word. has_nul (string_bytes word)) words.now }
{
    words.iter().position(|word| holds_nul(word.as_str()))
}

/// The word at an index, and the empty word where there is none.
pub fn word_at(words: &[String], index: usize) -> &str
    ensures { result.now ≡ word_at (texts words.now) index }
{
    match words.get(index) {
        Some(word) => word.as_str(),
        None => "",
    }
}

/// The word at an index, where there is an index.
pub fn word_of(words: &[String], index: Option<usize>) -> Option<&str>
    ensures { option_copied result ≡ option_map (word_at (texts words.now)) index }
{
    Some(word_at(words, index?))
}

/// The later of two words, where they are equal.
fn later_of_equal(words: &[String], one: usize, other: usize) -> Option<usize>
    ensures { result ≡ later_of_equal (texts words.now) one other }
{
    if word_at(words, one) == word_at(words, other) {
        Some(one.max(other))
    } else {
        None
    }
}

/// The lesser of two indices, where there are.
fn first_of(one: Option<usize>, other: Option<usize>) -> Option<usize>
    ensures { result ≡ first_of one other }
{
    match (one, other) {
        (Some(one), Some(other)) => Some(one.min(other)),
        (Some(one), None) => Some(one),
        (None, other) => other,
    }
}

/// The later of the name of a file that is written, which is at index `written`, and that of another option, where they are
/// equal.
fn later_of_named(words: &[String], written: usize, named: Option<usize>) -> Option<usize>
    ensures { result ≡ option_and_then (later_of_equal (texts words.now) written) named }
{
    later_of_equal(words, written, named?)
}

/// The first name that equals an earlier one, where one of the two is that of a file that is written, at index `written`, and
/// the other that of one that is read.
fn equal_to_written(words: &[String], line: &RunLine, written: usize) -> Option<usize>
    ensures { result ≡ equal_to_written (texts words.now) (line_seen line.now) written }
{
    let image = later_of_named(words, written, line.image);
    let schedule = later_of_named(words, written, line.schedule);
    let program = later_of_equal(words, written, line.program);
    first_of(image, first_of(schedule, program))
}

/// The same where the other may be that of `--trace` too.
fn equal_to_native(words: &[String], line: &RunLine, native: usize) -> Option<usize>
    ensures { result ≡ equal_to_native (texts words.now) (line_seen line.now) native }
{
    first_of(
        equal_to_written(words, line, native),
        later_of_named(words, native, line.trace),
    )
}

/// The same where the other may be that of `--native` too.
fn equal_to_journal(words: &[String], line: &RunLine, journal: usize) -> Option<usize>
    ensures { result ≡ equal_to_journal (texts words.now) (line_seen line.now) journal }
{
    first_of(
        equal_to_native(words, line, journal),
        later_of_named(words, journal, line.native),
    )
}

/// The same where the written one is that of `--save`, at index `saved`, and the other any.
fn equal_to_saved(words: &[String], line: &RunLine, saved: usize) -> Option<usize>
    ensures { result ≡ equal_to_saved (texts words.now) (line_seen line.now) saved }
{
    first_of(
        equal_to_journal(words, line, saved),
        later_of_named(words, saved, line.journal),
    )
}

/// The same where the written one is that of `--trace`.
fn equal_to_traced(words: &[String], line: &RunLine) -> Option<usize>
    ensures { result ≡ option_and_then (equal_to_written (texts words.now) (line_seen line.now)) line.now.trace }
{
    equal_to_written(words, line, line.trace?)
}

/// The same where the written one is that of `--native`.
fn equal_to_logged(words: &[String], line: &RunLine) -> Option<usize>
    ensures { result ≡ option_and_then (equal_to_native (texts words.now) (line_seen line.now)) line.now.native }
{
    equal_to_native(words, line, line.native?)
}

/// The same where the written one is that of `--journal`.
fn equal_to_kept(words: &[String], line: &RunLine) -> Option<usize>
    ensures { result ≡ option_and_then (equal_to_journal (texts words.now) (line_seen line.now)) line.now.journal }
{
    equal_to_journal(words, line, line.journal?)
}

/// The same where the written one is that of `--save`, where there is one.
fn equal_to_any_saved(words: &[String], line: &RunLine) -> Option<usize>
    ensures { result ≡ option_and_then (equal_to_saved (texts words.now) (line_seen line.now)) line.now.save }
{
    equal_to_saved(words, line, line.save?)
}

/// The first name of a file that equals an earlier one, where at least one of the two is written.
fn equal_name(words: &[String], line: &RunLine) -> Option<usize>
    ensures { result ≡ equal_name (texts words.now) (line_seen line.now) }
{
    first_of(
        equal_to_traced(words, line),
        first_of(
            equal_to_logged(words, line),
            first_of(equal_to_kept(words, line), equal_to_any_saved(words, line)),
        ),
    )
}

/// The command that the words begin with.
pub fn command_of(words: &[String]) -> Command
    ensures { command_seen result ≡ command_of (texts words.now) }
{
    if word_at(words, 0) == "replay" {
        Command::Replay
    } else if word_at(words, 0) == "soak" {
        Command::Soak
    } else {
        Command::Run
    }
}

/// Reads the words of a replay. The index of the first word that is wrong is given where they are not in the grammar, or the number of
/// words where one is missing. (The grammar is this project's own.)
pub fn read_replay(words: &[String]) -> Result<ReplayLine<'_>, usize>
    ensures { reading_seen result ≡ read_replay (texts words.now) }
{
    let program = word_at(words, 1);
    let journal = word_at(words, 2);
    if !is_name_of_file(program) {
        Err(1)
    } else if !is_name_of_file(journal) {
        Err(2)
    } else if words.len() > 3 {
        Err(3)
    } else {
        Ok(ReplayLine { program, journal })
    }
}

/// Reads the words of a soak. The index of the first word that is wrong is given where they are not in the grammar, or the number of
/// words where one is missing. (The grammar is this project's own.)
pub fn read_soak(words: &[String]) -> Result<u32, usize>
    ensures reading { soak_reading_seen result ≡ read_soak (texts words.now) }
    ensures counted { IfOk result IsCount }
{
    match count(word_at(words, 1)) {
        None => Err(1),
        Some(_) if words.len() > 2 => Err(2),
        Some(count) => Ok(count),
    }
}

/// Reads the words of a run, the emulator's own name left out.
///
/// # Errors
///
/// `Usage` exactly where the words are not in the grammar; `NoMemory` where the environment found no memory.
/// The grammar is this project's own.
pub fn read(alloc: Global, words: &[String]) -> Result<RunLine, WordsError>
    ensures line { IfOk result (λ line. read_words (texts words.now) ≡ Asks (line_seen line)) }
    ensures wrong { IfErr result (λ error. IsReason (read_words (texts words.now)) error) }
    ensures program { IfOk result (λ line. line.program < length words.now) }
{
    let line = read_line(alloc, words)?;
    match equal_name(words, &line) {
        Some(word) => Err(WordsError::Usage { word }),
        None => Ok(line),
    }
}

/// Reads the words, whatever the names of the files.
fn read_line(alloc: Global, words: &[String]) -> Result<RunLine, WordsError>
    ensures line { IfOk result (λ line. read_line (texts words.now) ≡ Asks (line_seen line)) }
    ensures wrong { IfErr result (λ error. IsReason (read_line (texts words.now)) error) }
    ensures program { IfOk result (λ line. line.program < length words.now) }
{
    match words {
        [first, ..] if first.as_str() == "run" => read_options(alloc, words),
        _ => Err(WordsError::Usage { word: 0 }),
    }
}

/// Reads the words from index 1 on.
fn read_options(alloc: Global, words: &[String]) -> Result<RunLine, WordsError>
    requires { 0 < length words.now }
    ensures line { IfOk result (λ line. read_from 1 Option_or_program no_options (texts (drop 1 words.now)) ≡ Asks (line_seen line)) }
    ensures wrong { IfErr result (λ error. IsReason (read_from 1 Option_or_program no_options (texts (drop 1 words.now))) error) }
    ensures program { IfOk result (λ line. line.program < length words.now) }
{
    let mut options = Options::new(alloc);
    let mut expected = Expected::OptionOrProgram;
    let mut at = 1;
    let mut rest = &words[1..];
    while let [word, after @ ..] = rest {
        match options.step(alloc, expected, at, word.as_str())? {
            Step::GoesOn(next) => expected = next,
            Step::IsProgram => return finish(options, at, after),
            Step::IsWrong => return Err(WordsError::Usage { word: at }),
        }
        rest = after;
        at += 1;
    }
    Err(WordsError::Usage { word: at })
}

/// The line of these options with PROGRAM at index `program` and the guest's words after it.
fn finish(options: Options, program: usize, guest: &[String]) -> Result<RunLine, WordsError>
    requires { program + 1 + length guest.now < 2 ^ 64 }
    ensures line { IfOk result (λ line. read_guest (line_of (options_seen options) program) (program + 1) (texts guest.now) ≡ Asks (line_seen line)) }
    ensures wrong { IfErr result (λ error. IsReason (read_guest (line_of (options_seen options) program) (program + 1) (texts guest.now)) error) }
    ensures program { IfOk result (λ line. line.program ≡ program) }
{
    if let Some(word) = guest_error(guest, program + 1) {
        return Err(WordsError::Usage { word });
    }
    Ok(RunLine {
        budget: options.budget.unwrap_or(DEFAULT_BUDGET),
        environment: options.environment,
        program,
        image: options.image,
        schedule: options.schedule,
        trace: options.trace,
        native: options.native,
        journal: options.journal,
        save: options.save,
    })
}
