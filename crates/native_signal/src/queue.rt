//! What pends of one signal.
ghost use Rattle.std.specs.Prelude.{◌≡◌, [], ◌∷◌, ◌++◌, drop, length, slice_get, OnOk, OnErr};
ghost use Rattle.kernel_core.specs.NameCalls.{is_empty_list};

use kernel_core::{Info, NoMemory};
use std::alloc::Global;
use std::collections::VecDeque;
use std::marker::Model;

/// What pends of one signal, in the order in which it was posted. Contracts see the list.
#[derive(Drop)]
pub struct Queue {
    infos: VecDeque<Info>,
}

impl Model for Queue {
    ghost use Rattle.std.specs.Prelude.{List};
    ghost use Rattle.kernel_core.specs.declared.info.Info.{Info};

    ghost Value = { List Info };

    ghost view = { λ q. q.infos.items };
}

impl Queue {
    /// A queue where nothing pends.
    pub fn new(alloc: Global) -> Queue
        ensures { result ≡ [] }
    {
        Queue {
            infos: VecDeque::new(alloc),
        }
    }

    /// Puts one more behind the others. Where there is no memory it stays as it is.
    pub fn push(&mut self, info: Info) -> Result<(), NoMemory>
        ensures ok { OnOk result (self.new ≡ self.old ++ info ∷ []) }
        ensures err { OnErr result (self.new ≡ self.old) }
    {
        self.infos.push_back(info)?;
        Ok(())
    }

    /// Takes the first out, if one pends.
    pub fn pop(&mut self) -> Option<Info>
        ensures first { result ≡ slice_get self.old 0 }
        ensures rest { self.new ≡ drop 1 self.old }
    {
        self.infos.pop_front()
    }

    /// Takes all out.
    pub fn clear(&mut self)
        ensures { self.new ≡ [] }
    {
        self.infos.clear();
    }

    /// How many pend.
    pub fn len(&self) -> usize
        ensures { result ≡ length self.now }
    {
        self.infos.len()
    }

    /// Whether nothing pends.
    pub fn is_empty(&self) -> bool
        ensures { result ≡ is_empty_list self.now }
    {
        self.infos.is_empty()
    }
}
