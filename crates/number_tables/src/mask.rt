//! The numbers of the changes of a signal mask (sigprocmask(2)).
ghost use Rattle.std.specs.Prelude.{⊤};
ghost use Rattle.number_tables.specs.MaskChanges.{o32_mask_change, native_mask_change, mask_change_of_o32, mask_change_of_native};
ghost use Rattle.number_tables.specs.inside.MaskChangeLaws.{o32_mask_change_number, native_mask_change_number, o32_mask_change_found, native_mask_change_found};

use crate::{NativeNumber, O32Number};
use kernel_core::MaskChange;

impl O32Number for MaskChange {
    ghost listed_in_o32 = { λ _. ⊤ };

    ghost o32 = { o32_mask_change };

    ghost named_by_o32 = { mask_change_of_o32 };

    fn to_o32(self) -> u32 {
        match self {
            MaskChange::Block => 1,
            MaskChange::Unblock => 2,
            MaskChange::Set => 3,
        }
    }

    fn of_o32(number: u32) -> Option<MaskChange> {
        match number {
            1 => Some(MaskChange::Block),
            2 => Some(MaskChange::Unblock),
            3 => Some(MaskChange::Set),
            _ => None,
        }
    }

    ghost number_again = { o32_mask_change_number };

    ghost value_again = { λ value _. o32_mask_change_found value };

    ghost named_listed = { λ _ _ _. tt };
}

impl NativeNumber for MaskChange {
    ghost listed_natively = { λ _. ⊤ };

    ghost native = { native_mask_change };

    ghost named_natively = { mask_change_of_native };

    fn to_native(self) -> u64 {
        match self {
            MaskChange::Block => 0,
            MaskChange::Unblock => 1,
            MaskChange::Set => 2,
        }
    }

    fn of_native(number: u64) -> Option<MaskChange> {
        match number {
            0 => Some(MaskChange::Block),
            1 => Some(MaskChange::Unblock),
            2 => Some(MaskChange::Set),
            _ => None,
        }
    }

    ghost number_again = { native_mask_change_number };

    ghost value_again = { λ value _. native_mask_change_found value };

    ghost named_listed = { λ _ _ _. tt };
}
