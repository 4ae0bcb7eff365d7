//! From a set of one world to that of the other.
ghost use Rattle.std.specs.List.{list_all};
ghost use Rattle.std.specs.Prelude.{◌≡◌, ◌+◌, ◌*◌, ◌/◌, ◌%◌, ◌^◌, ◌<◌, nat_lt, IsTrue};
ghost use Rattle.kernel_model.specs.Always.{IsSet};
ghost use Rattle.signal_sets.specs.NativeSets.{AreSame, IsNativeSet, native_of, set_of_native};
ghost use Rattle.signal_sets.specs.inside.Gathered.{gathered};

/// How many standard signals there are; the numbers of the others are the same in both worlds.
const STANDARD_SIGNALS: usize = 31;

/// For each standard signal, in the order of the native numbers, its bit in a set of the o32 world.
static O32_BITS: [u32; STANDARD_SIGNALS] = [
    0, 1, 2, 3, 4, 5, 9, 7, 8, 15, 10, 16, 12, 13, 14, 6, 17, 24, 22, 23, 25, 26, 20, 29, 30, 27,
    28, 19, 21, 18, 11,
];

/// For each standard signal, in the order of the o32 numbers, its bit in a native set.
static NATIVE_BITS: [u32; STANDARD_SIGNALS] = [
    0, 1, 2, 3, 4, 5, 15, 7, 8, 6, 10, 30, 12, 13, 14, 9, 11, 16, 29, 27, 22, 28, 18, 19, 17, 20,
    21, 25, 26, 23, 24,
];

/// The bit of signal 32, the first real-time one, in a word of 32 bits.
const FIRST_REAL_TIME: u32 = 0x8000_0000;

/// The bits of a word at these places, the first of them the lowest.
fn gathered(word: u32, places: &[u32; STANDARD_SIGNALS]) -> u32
    requires { IsTrue (list_all (λ place. nat_lt place 32) places.now) }
    ensures bits { result ≡ gathered word places.now }
    ensures small { result < 2 ^ 31 }
{
    let mut bits = 0;
    for (k, place) in places.iter().enumerate() {
        bits += ((word >> *place) % 2) << k;
    }
    bits
}

/// The set of the native kernel with the signals of this one.
pub fn to_native(set: [u32; 4]) -> [u64; 2]
    ensures value { result ≡ native_of set }
    ensures signals { AreSame set result }
    ensures words { IsNativeSet result }
{
    let first = gathered(set[0], &O32_BITS) + (set[0] & FIRST_REAL_TIME);
    [joined(first, set[1]), joined(set[2], set[3])]
}

/// The set with the signals of this one of the native kernel.
pub fn of_native(native: [u64; 2]) -> [u32; 4]
    ensures value { result ≡ set_of_native native }
    ensures signals { AreSame result native }
    ensures words { IsSet result }
{
    let first = low_word(native[0]);
    [
        gathered(first, &NATIVE_BITS) + (first & FIRST_REAL_TIME),
        high_word(native[0]),
        low_word(native[1]),
        high_word(native[1]),
    ]
}

/// Two words as one of 64 bits.
fn joined(low: u32, high: u32) -> u64
    ensures word { result ≡ high * 2 ^ 32 + low }
    ensures low_half { result % 2 ^ 32 ≡ low }
{
    (u64::from(high) << 32) + u64::from(low)
}

/// The two halves of a word of 64 bits.
fn low_word(word: u64) -> u32
    ensures { result ≡ word % 2 ^ 32 }
{
    (word % 0x1_0000_0000) as u32
}

fn high_word(word: u64) -> u32
    ensures { result ≡ word / 2 ^ 32 }
{
    (word >> 32) as u32
}
