//! ioctl(2): the requests on a terminal and on descriptors.
ghost use Rattle.std.specs.Prelude.{◌≡◌, length};
ghost use Rattle.kernel_model.specs.Came.{told_as, told_zero};
ghost use Rattle.kernel_model.specs.ContentRows.{bytes_ready, set_terminal_settings, terminal_settings, window_size};
ghost use Rattle.kernel_model.specs.Whole.{on_files};
ghost use Rattle.native_calls.specs.Terminal.{int_bytes, ioctl_row, settings_at, settings_bytes, settings_in, settings_values, switch_at, window_bytes};
ghost use Rattle.native_kernel.specs.inside.Quiet.{Gives, IsQuiet, Stores};

use crate::arguments::low_word;
use crate::kernel::NativeKernel;
use crate::replies::{failure, zero};
use crate::structures::{byte_at, put, store, word_at};
use host_mem::HostMem;
use kernel_core::{Errno, Reply, Request};
use kernel_model::{TerminalCharacters, TerminalSettings, Winsize};
use layouts::NativeStructure;
use number_tables::NativeNumber;

const SETTINGS_SIZE: usize = 36;

const SETTINGS_FIELDS: usize = 24;

const WINDOW_SIZE: usize = 8;

const INT_SIZE: u64 = 4;

impl NativeKernel {
    /// ioctl(2), by its request.
    #[tactic(auto, unfolding(native_calls::specs::Terminal::ioctl_row, kernel_model::specs::DescriptorRows::unlisted_request))]
    pub(crate) fn ioctl(&mut self, fd: u32, request: u32, address: u64, mem: &mut HostMem) -> Reply
        ensures row { IsQuiet (ioctl_row self.old mem.old fd request address) result self.new mem.new }
        ensures clock { self.new.clock ≡ self.old.clock }
    {
        match Request::of_native(u64::from(request)) {
            None => self.unlisted(fd, Errno::ENOTTY),
            Some(Request::Tcgets) => self.settings(fd, address, mem),
            Some(Request::Tcsets) => self.set_settings(fd, address, mem),
            Some(Request::Tcsetsw) => self.set_settings(fd, address, mem),
            Some(Request::Tcsetsf) => self.set_settings(fd, address, mem),
            Some(Request::Tiocgwinsz) => self.window_size(fd, address, mem),
            Some(Request::Fionread) => self.bytes_ready(fd, address, mem),
            Some(Request::Fionbio) => zero(self.files.set_nonblock(fd, switch_at(mem, address))),
            Some(Request::Fioclex) => zero(self.files.set_close_on_exec(fd, true)),
            Some(Request::Fionclex) => zero(self.files.set_close_on_exec(fd, false)),
        }
    }

    /// TCGETS.
    fn settings(&self, fd: u32, address: u64, mem: &mut HostMem) -> Reply
        ensures { Stores (told_as settings_bytes (on_files self.now (terminal_settings self.now.files fd))) address
            result self.now mem.old mem.new }
    {
        match self.files.terminal_settings(fd) {
            Err(error) => failure(error),
            Ok(settings) => store(mem, address, &settings_bytes(settings)),
        }
    }

    /// TCSETS, TCSETSW and TCSETSF.
    fn set_settings(&mut self, fd: u32, address: u64, mem: &HostMem) -> Reply
        ensures row { Gives (told_zero (on_files self.old (set_terminal_settings self.old.files fd (settings_at mem.now address)))) result self.new }
        ensures clock { self.new.clock ≡ self.old.clock }
    {
        zero(
            self.files
                .set_terminal_settings(fd, settings_at(mem, address)),
        )
    }

    /// TIOCGWINSZ.
    fn window_size(&self, fd: u32, address: u64, mem: &mut HostMem) -> Reply
        ensures { Stores (told_as window_bytes (on_files self.now (window_size self.now.files fd))) address
            result self.now mem.old mem.new }
    {
        match self.files.window_size(fd) {
            Err(error) => failure(error),
            Ok(size) => store(mem, address, &window_bytes(size)),
        }
    }

    /// FIONREAD.
    fn bytes_ready(&self, fd: u32, address: u64, mem: &mut HostMem) -> Reply
        ensures { Stores (told_as int_bytes (on_files self.now (bytes_ready self.now.files fd))) address
            result self.now mem.old mem.new }
    {
        match self.files.bytes_ready(fd) {
            Err(error) => failure(error),
            Ok(count) => store(mem, address, &low_word(count).to_le_bytes()),
        }
    }
}

/// The structure of a terminal's settings.
fn settings_bytes(settings: TerminalSettings) -> [u8; SETTINGS_SIZE]
    ensures { result ≡ settings_bytes settings }
{
    let values = settings_values(settings);
    let mut bytes = [0; SETTINGS_SIZE];
    put(NativeStructure::Termios, &values, &mut bytes);
    bytes
}

/// The fields of that structure: four words of flags, the line and the characters, of which the last two
/// have no name.
fn settings_values(settings: TerminalSettings) -> [i128; SETTINGS_FIELDS]
    ensures { result ≡ settings_values settings }
{
    let characters = settings.characters;
    [
        i128::from(settings.input),
        i128::from(settings.output),
        i128::from(settings.control),
        i128::from(settings.local),
        i128::from(settings.line),
        i128::from(characters.intr),
        i128::from(characters.quit),
        i128::from(characters.erase),
        i128::from(characters.kill),
        i128::from(characters.eof),
        i128::from(characters.time),
        i128::from(characters.min),
        i128::from(characters.swtc),
        i128::from(characters.start),
        i128::from(characters.stop),
        i128::from(characters.susp),
        i128::from(characters.eol),
        i128::from(characters.reprint),
        i128::from(characters.discard),
        i128::from(characters.werase),
        i128::from(characters.lnext),
        i128::from(characters.eol2),
        0,
        0,
    ]
}

/// The settings that a structure in memory has, or EFAULT where it is not there.
#[tactic(auto, using(crate::proofs::Read::length_read))]
fn settings_at(mem: &HostMem, address: u64) -> Result<TerminalSettings, Errno>
    ensures { result ≡ settings_at mem.now address }
{
    match mem.read(address, SETTINGS_SIZE as u64) {
        None => Err(Errno::EFAULT),
        Some(bytes) => Ok(settings_in(bytes)),
    }
}

fn settings_in(bytes: &[u8]) -> TerminalSettings
    requires { length bytes.now ≡ 36 }
    ensures { result ≡ settings_in bytes.now }
{
    TerminalSettings {
        input: word_at(bytes, 0),
        output: word_at(bytes, 4),
        control: word_at(bytes, 8),
        local: word_at(bytes, 12),
        line: byte_at(bytes, 16),
        characters: characters_in(bytes),
    }
}

/// The characters, by their places in the structure (VINTR and so on of termbits.h).
fn characters_in(bytes: &[u8]) -> TerminalCharacters
    requires { length bytes.now ≡ 36 }
    ensures { result ≡ (settings_in bytes.now).characters }
{
    TerminalCharacters {
        intr: byte_at(bytes, 17),
        quit: byte_at(bytes, 18),
        erase: byte_at(bytes, 19),
        kill: byte_at(bytes, 20),
        eof: byte_at(bytes, 21),
        time: byte_at(bytes, 22),
        min: byte_at(bytes, 23),
        swtc: byte_at(bytes, 24),
        start: byte_at(bytes, 25),
        stop: byte_at(bytes, 26),
        susp: byte_at(bytes, 27),
        eol: byte_at(bytes, 28),
        reprint: byte_at(bytes, 29),
        discard: byte_at(bytes, 30),
        werase: byte_at(bytes, 31),
        lnext: byte_at(bytes, 32),
        eol2: byte_at(bytes, 33),
    }
}

/// The structure of a window's size.
fn window_bytes(size: Winsize) -> [u8; WINDOW_SIZE]
    ensures { result ≡ window_bytes size }
{
    let values = [i128::from(size.rows), i128::from(size.cols), 0, 0];
    let mut bytes = [0; WINDOW_SIZE];
    put(NativeStructure::Winsize, &values, &mut bytes);
    bytes
}

/// Whether an int in memory stands for on, or EFAULT where it is not there.
fn switch_at(mem: &HostMem, address: u64) -> Result<bool, Errno>
    ensures { result ≡ switch_at mem.now address }
{
    match mem.read(address, INT_SIZE) {
        None => Err(Errno::EFAULT),
        Some(bytes) => Ok(word_at(bytes, 0) != 0),
    }
}
