// What a store keeps of its calls.
ghost use Rattle.std.specs.Prelude.{◌≡◌, ◌++◌, [], ◌∷◌, OnOk, OnErr, length, take};
ghost use Rattle.outside.specs.Register.{Register};

use crate::errors::LoadError;
use std::alloc::{AllocError, Global};
use std::marker::Model;

// A load that was turned away.
#[derive(Drop)]
struct TurnedAway {
    name: String,
    limit: usize,
    answer: LoadError,
}

impl Model for TurnedAway {
    ghost use Rattle.std.specs.Prelude.{string_bytes};
    ghost use Rattle.outside.specs.Turned.{TurnedLoad};

    ghost Value = { TurnedLoad };

    ghost view = { λ t. record { name = string_bytes t.name; limit = t.limit; answer = t.answer } };
}

/// The names of the loads that were answered, the loads turned away, and the names of the files
/// made.
#[derive(Drop)]
pub struct Register {
    alloc: Global,
    loads: Vec<String>,
    turned_away: Vec<TurnedAway>,
    created: Vec<String>,
}

impl Model for Register {
    ghost use Rattle.std.specs.Prelude.{map, string_bytes};
    ghost use Rattle.outside.specs.Register.{Register};

    ghost Value = { Register };

    ghost view = { λ r. record {
      loads = map (λ name. string_bytes name) r.loads.items;
      turned_away = r.turned_away.items;
      created = map (λ name. string_bytes name) r.created.items;
    } };
}

impl Register {
    /// No load was answered, and no file was made.
    pub fn new(alloc: Global) -> Self
        ensures { result ≡ record { loads = []; turned_away = []; created = [] } }
    {
        Register {
            alloc,
            loads: Vec::new(alloc),
            turned_away: Vec::new(alloc),
            created: Vec::new(alloc),
        }
    }

    /// Lists the name of a load that was answered.
    pub fn list_load(&mut self, name: &str) -> Result<(), AllocError>
        ensures ok { OnOk result (self.new ≡ record self.old { loads = self.old.loads ++ name.now ∷ [] }) }
        ensures err { OnErr result (self.new ≡ self.old) }
    {
        let name = String::from_str(self.alloc, name)?;
        self.loads.push(name)?;
        Ok(())
    }

    /// Lists a load that was turned away.
    pub fn list_turned(
        &mut self,
        name: &str,
        limit: usize,
        answer: LoadError,
    ) -> Result<(), AllocError>
        ensures ok { OnOk result (self.new ≡ record self.old {
          loads = self.old.loads ++ name.now ∷ [];
          turned_away =
              self.old.turned_away ++ record { name = name.now; limit = limit; answer = answer } ∷ [];
        }) }
        ensures err { OnErr result (self.new ≡ self.old) }
    {
        let before = self.count_loads();
        self.list_load(name)?;
        let listed = self.list_answer(name, limit, answer);
        if listed.is_err() {
            self.keep_loads(before);
        }
        listed
    }

    // How many loads are listed as answered.
    fn count_loads(&self) -> usize
        ensures { result ≡ length self.now.loads }
    {
        self.loads.len()
    }

    // Takes all of them out but the first so many.
    fn keep_loads(&mut self, count: usize)
        ensures { self.new ≡ record self.old { loads = take count self.old.loads } }
    {
        self.loads.truncate(count);
    }

    // Lists the answer of a load that was turned away.
    fn list_answer(&mut self, name: &str, limit: usize, answer: LoadError) -> Result<(), AllocError>
        ensures ok { OnOk result (self.new ≡ record self.old {
          turned_away =
              self.old.turned_away ++ record { name = name.now; limit = limit; answer = answer } ∷ [];
        }) }
        ensures err { OnErr result (self.new ≡ self.old) }
    {
        let name = String::from_str(self.alloc, name)?;
        self.turned_away.push(TurnedAway {
            name,
            limit,
            answer,
        })?;
        Ok(())
    }

    /// Lists the name of a file that was made.
    pub fn list_created(&mut self, name: &str) -> Result<(), AllocError>
        ensures ok { OnOk result (self.new ≡ record self.old { created = self.old.created ++ name.now ∷ [] }) }
        ensures err { OnErr result (self.new ≡ self.old) }
    {
        let name = String::from_str(self.alloc, name)?;
        self.created.push(name)?;
        Ok(())
    }
}
