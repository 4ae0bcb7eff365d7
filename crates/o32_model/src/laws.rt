//! Laws over the definitions, each the contract of a function that does nothing. (The rules are this
//! project's own.)

ghost use Rattle.guest_space.specs.Mapping.{mapped_run};
ghost use Rattle.guest_space.specs.Memory.{Pages};
ghost use Rattle.guest_space.specs.Places.{IsGreatestPlace};
ghost use Rattle.guest_space.specs.Remapping.{AreMoved};
ghost use Rattle.kernel_model.specs.State.{Kernel};
ghost use Rattle.o32_model.specs.Laws.{ChangesProtections, IsFailure, MovesNothing, SendsNothing, is_listed_call, is_part_done, mprotect_number, stores_in_parts};
ghost use Rattle.o32_model.specs.Ranges.{greatest_place, moved};
ghost use Rattle.o32_model.specs.Step.{Guest};
ghost use Rattle.o32_model.specs.Table.{call_of, machine_call, o32_call};
ghost use Rattle.o32_model.specs.declared.wait.Seen.{Seen};
ghost use Rattle.std.specs.Prelude.{◌≡◌, ◌≢◌, ℕ, true, false, is_some, List};

/// A call that fails moves nothing: no byte of memory is written, no register is set, none of the input
/// is taken, and none is sent. mprotect(2) may have changed the pages before an absent one, and a call
/// that stores several pieces those before one that can't be stored.
pub fn a_call_that_fails_moves_nothing()
    ensures { (kernel : Kernel) (guest : Guest) (left : List ℕ)
        → guest.words.nr ≢ mprotect_number
        → stores_in_parts guest.words.nr ≡ false
        → IsFailure (o32_call kernel guest left).outcome
        → MovesNothing guest left (o32_call kernel guest left) }
{}

/// A call that stores several pieces sets no register, takes none of the input and sends none, whether it
/// fails or not.
pub fn a_call_that_stores_in_parts_sends_nothing()
    ensures { (kernel : Kernel) (guest : Guest) (left : List ℕ)
        → stores_in_parts guest.words.nr ≡ true
        → SendsNothing guest left (o32_call kernel guest left) }
{}

/// A call of a machine is that of the table, where the table has one of its number.
pub fn a_call_of_a_machine_is_its_row()
    ensures { (seen : Seen) (kernel : Kernel) (guest : Guest) (left : List ℕ)
        → is_some (call_of guest.words.nr) ≡ true
        → machine_call seen kernel guest left ≡ o32_call kernel guest left }
{}

/// A call that sees more of the machine moves nothing where it fails.
pub fn a_seeing_call_that_fails_moves_nothing()
    ensures { (seen : Seen) (kernel : Kernel) (guest : Guest) (left : List ℕ)
        → is_some (call_of guest.words.nr) ≡ false
        → IsFailure (machine_call seen kernel guest left).outcome
        → MovesNothing guest left (machine_call seen kernel guest left) }
{}

/// A call on descriptors or files, or a small one, that fails leaves the kernel as it was. Only write(2),
/// writev(2), lseek(2), _llseek(2), pipe2(2) and prlimit(2) may have changed it.
pub fn a_call_that_fails_leaves_the_kernel()
    ensures { (kernel : Kernel) (guest : Guest) (left : List ℕ)
        → is_listed_call guest.words.nr ≡ true
        → is_part_done guest.words.nr ≡ false
        → IsFailure (o32_call kernel guest left).outcome
        → (o32_call kernel guest left).kernel ≡ kernel }
{}

/// mprotect(2) changes protections alone, whether it fails or not: the pages that are there, their bytes,
/// the break and all else stay.
pub fn mprotect_changes_protections()
    ensures { (kernel : Kernel) (guest : Guest) (left : List ℕ)
        → guest.words.nr ≡ mprotect_number
        → ChangesProtections kernel guest left (o32_call kernel guest left) }
{}

/// The place that a mapping is given is the greatest: none is given exactly where there is none.
pub fn the_place_is_the_greatest()
    ensures { (pages : Pages) (count : ℕ) → IsGreatestPlace pages count (greatest_place pages count) }
{}

/// Of a range that moves each page stands at its new number, as it was, and no page is left at its old one.
pub fn a_range_moves_whole()
    ensures { (pages : Pages) (first to count : ℕ) → mapped_run pages first count ≡ count
        → AreMoved pages (moved pages first to count) first to count }
{}
