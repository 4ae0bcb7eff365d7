//! The calls on the interval timer: getitimer(2), setitimer(2).
ghost use Rattle.std.specs.Prelude.{◌≡◌, ℕ, ◌+◌, ◌≤◌, drop, false, length, option_map, true};
ghost use Rattle.kernel_model.specs.Came.{done, told_as, with_given};
ghost use Rattle.kernel_model.specs.Clock.{arm_timer, armed, length_of_val, read_timer, timer_value};
ghost use Rattle.layouts.specs.Number.{unsigned, value_of};
ghost use Rattle.native_calls.specs.Clocks.{setting_at, setting_in, timer_bytes};
ghost use Rattle.native_calls.specs.HostBytes.{read_as, unless_null};
ghost use Rattle.native_timer.specs.Timers.{armed_at};
ghost use Rattle.native_kernel.specs.inside.Quiet.{Stores};
ghost use Rattle.native_kernel.specs.inside.Signals.{Comes, StoresUnlessNull, setting_told};

use crate::kernel::NativeKernel;
use crate::replies::failure;
use crate::sleeping::{is_below, time_after};
use crate::structures::{double_at, put, store, store_unless_null};
use host_mem::HostMem;
use kernel_core::{Errno, Reply};
use kernel_model::{TimeVal, TimerValue};
use layouts::NativeStructure;

/// The timer of real time, which is the only one that is there (ITIMER_REAL).
const ITIMER_REAL: u32 = 0;

const TIMER_SIZE: usize = 32;

const NANOSECONDS_PER_SECOND: u128 = 1_000_000_000;

const NANOSECONDS_PER_MICROSECOND: u64 = 1000;

const MICROSECONDS_PER_SECOND: u32 = 1_000_000;

/// What setitimer(2) is given.
#[derive(Clone, Copy)]
pub(crate) struct TimerSetting {
    pub(crate) value: TimeVal,
    pub(crate) period: TimeVal,
}

impl NativeKernel {
    /// getitimer(2): EINVAL for another timer than that of real time; EFAULT.
    #[tactic(auto, unfolding(kernel_model::specs::Clock::read_timer))]
    pub(crate) fn read_timer(&self, which: u32, address: u64, mem: &mut HostMem) -> Reply
        ensures { Stores (told_as timer_bytes (read_timer self.now which)) address result self.now mem.old mem.new }
    {
        if which != ITIMER_REAL {
            return failure(Errno::EINVAL);
        }
        store(mem, address, &timer_bytes(self.timer_value()))
    }

    /// setitimer(2): EINVAL for another timer than that of real time; EFAULT; EINVAL for a value or a period that
    /// is no time. Without a setting the timer is disarmed. The old value is stored, where its address is not
    /// null; the setting stands also where that is EFAULT.
    pub(crate) fn set_timer(
        &mut self,
        which: u32,
        setting: u64,
        old: u64,
        mem: &mut HostMem,
    ) -> Reply
        ensures row { StoresUnlessNull (told_as timer_bytes (arm_timer self.old which (unless_null setting (setting_at mem.old setting))))
            old result self.new mem.old mem.new }
        ensures clock { self.new.clock ≡ self.old.clock }
    {
        match self.arm_timer(which, setting_unless_null(mem, setting)) {
            Err(error) => failure(error),
            Ok(before) => store_unless_null(mem, old, &timer_bytes(before)),
        }
    }

    /// Gives what the timer shows, and sets it.
    #[tactic(auto, unfolding(kernel_model::specs::Clock::arm_timer))]
    fn arm_timer(
        &mut self,
        which: u32,
        setting: Option<Result<TimerSetting, Errno>>,
    ) -> Result<TimerValue, Errno>
        ensures row { Comes (arm_timer self.old which (option_map (read_as setting_told) setting)) result self.new }
        ensures clock { self.new.clock ≡ self.old.clock }
    {
        if which != ITIMER_REAL {
            return Err(Errno::EINVAL);
        }
        match setting {
            None => {
                let before = self.timer_value();
                self.timers.arm(None, 0);
                Ok(before)
            }
            Some(Err(error)) => Err(error),
            Some(Ok(setting)) => self.arm_to(setting),
        }
    }

    /// Gives what the timer shows, and arms it to a setting.
    fn arm_to(&mut self, setting: TimerSetting) -> Result<TimerValue, Errno>
        ensures row { Comes (with_given self.old (length_of_val setting.value) (λ length. with_given self.old (length_of_val setting.period) (λ period.
            done (record self.old { timer = armed self.old.clock length period }) (timer_value self.old)))) result self.new }
        ensures clock { self.new.clock ≡ self.old.clock }
    {
        let length = length_of(setting.value)?;
        let period = length_of(setting.period)?;
        let before = self.timer_value();
        self.timers
            .arm(first_time(self.clock, length), time_after(0, period));
        Ok(before)
    }

    /// What the timer shows.
    fn timer_value(&self) -> TimerValue
        ensures { result ≡ timer_value self.now }
    {
        TimerValue {
            left: self.timers.left(self.clock),
            period: self.timers.period(),
        }
    }
}

/// When a timer goes off that is set at a time of the clock to a length; None where that is 0, which disarms it.
fn first_time(clock: u64, length: u128) -> Option<u64>
    ensures { (period : ℕ) → armed_at result period ≡ armed clock length period }
{
    if length == 0 {
        None
    } else {
        Some(time_after(clock, length))
    }
}

/// The setting at an address that may be null: nothing is read there.
fn setting_unless_null(mem: &HostMem, address: u64) -> Option<Result<TimerSetting, Errno>>
    ensures { option_map (read_as setting_told) result ≡ unless_null address (setting_at mem.now address) }
{
    if address == 0 {
        None
    } else {
        Some(setting_at(mem, address))
    }
}

/// The setting in memory, or EFAULT where it is not there.
#[tactic(auto, using(crate::proofs::Read::length_read))]
fn setting_at(mem: &HostMem, address: u64) -> Result<TimerSetting, Errno>
    ensures { read_as setting_told result ≡ setting_at mem.now address }
{
    match mem.read(address, TIMER_SIZE as u64) {
        None => Err(Errno::EFAULT),
        Some(bytes) => Ok(setting_in(bytes)),
    }
}

fn setting_in(bytes: &[u8]) -> TimerSetting
    requires { length bytes.now ≡ 32 }
    ensures { setting_told result ≡ setting_in bytes.now }
{
    TimerSetting {
        value: TimeVal {
            seconds: signed_double_at(bytes, 16),
            microseconds: signed_double_at(bytes, 24),
        },
        period: TimeVal {
            seconds: signed_double_at(bytes, 0),
            microseconds: signed_double_at(bytes, 8),
        },
    }
}

/// The number of eight bytes at a place in a structure, which may be below 0.
fn signed_double_at(bytes: &[u8], place: usize) -> i64
    requires { place + 8 ≤ length bytes.now }
    ensures { result ≡ value_of true 8 (unsigned false 8 (drop place bytes.now)) }
{
    double_at(bytes, place).cast_signed()
}

/// The structure of what the timer shows, rounded down to microseconds.
fn timer_bytes(timer: TimerValue) -> [u8; TIMER_SIZE]
    ensures { result ≡ timer_bytes timer }
{
    let period = timer.period / NANOSECONDS_PER_MICROSECOND;
    let left = timer.left / NANOSECONDS_PER_MICROSECOND;
    let values = [
        i128::from(period / u64::from(MICROSECONDS_PER_SECOND)),
        i128::from(period % u64::from(MICROSECONDS_PER_SECOND)),
        i128::from(left / u64::from(MICROSECONDS_PER_SECOND)),
        i128::from(left % u64::from(MICROSECONDS_PER_SECOND)),
    ];
    let mut bytes = [0; TIMER_SIZE];
    put(NativeStructure::Itimerval, &values, &mut bytes);
    bytes
}

/// A length of time in nanoseconds: EINVAL for seconds below 0, and for a part that is no part of a second.
fn length_of(time: TimeVal) -> Result<u128, Errno>
    ensures { result ≡ length_of_val time }
{
    if time.seconds < 0 || !is_below(time.microseconds, MICROSECONDS_PER_SECOND) {
        return Err(Errno::EINVAL);
    }
    let seconds = u128::from(time.seconds.unsigned_abs());
    let microseconds = u128::from(time.microseconds.unsigned_abs());
    Ok(seconds * NANOSECONDS_PER_SECOND + microseconds * u128::from(NANOSECONDS_PER_MICROSECOND))
}
