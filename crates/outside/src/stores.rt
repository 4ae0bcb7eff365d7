// Stores of files in memory, which tell their content.
ghost use Rattle.std.specs.Prelude.{◌≡◌, ◌≤◌, ◌++◌, ◌↔◌, [], ◌∷◌, Some, Contains, OnOk, OnErr};
ghost use Rattle.std.specs.Option.{option_copied};
ghost use Rattle.outside.specs.Calls.{NextFails, after_call};
ghost use Rattle.outside.specs.Causes.{FailsOnlyIfRose, LoadFailsOnlyIfRose, faults_after, load_faults_after};
ghost use Rattle.outside.specs.Content.{content_of};
ghost use Rattle.outside.specs.Count.{last_count};
ghost use Rattle.outside.specs.Files.{AnswersLoad, ChangesFile, IsEmptied, IsUnchangedOrEmptied, Gains, GainsPart};
ghost use Rattle.outside.specs.Loads.{answered_by};
ghost use Rattle.outside.specs.Turned.{turned_by};

use crate::errors::{DevError, LoadError};
use crate::failing::FailingCalls;
use crate::named::{NamedFile, create_file, extend_file, file_bytes, load_file};
use crate::register::Register;
use crate::traits::Store;
use std::alloc::Global;
use std::marker::Model;

/// A store of files in memory that never fails.
#[derive(Drop)]
pub struct SureStore {
    alloc: Global,
    files: Vec<NamedFile>,
    register: Register,
}

impl Model for SureStore {
    ghost use Rattle.outside.specs.inside.Present.{AreThere};
    ghost use Rattle.outside.specs.Memory.{SureFiles};

    ghost Value = { SureFiles };

    ghost view = { λ s. record { files = s.files.items; register = s.register } };

    ghost invariant = { λ s. AreThere s.files.items s.register.created };
}

impl SureStore {
    /// A store of these files. Of two of one name the first counts.
    pub fn new(alloc: Global, files: Vec<NamedFile>) -> Self
        ensures { result ≡ record { files = files.items; register = record { loads = []; turned_away = []; created = [] } } }
    {
        SureStore {
            alloc,
            files,
            register: Register::new(alloc),
        }
    }

    /// The bytes of a file, None where there is no file of that name.
    pub fn file(&self, name: &str) -> Option<&[u8]>
        ensures { option_copied result ≡ content_of self.now.files name.now }
    {
        file_bytes(self.files.as_slice(), name)
    }
}

impl Store for SureStore {
    ghost files = { λ s. Some (content_of s.files) };

    ghost load_faults = { λ _. 0 };

    ghost write_faults = { λ _. 0 };

    ghost loads = { λ s. s.register.loads };

    ghost turned_away = { λ s. s.register.turned_away };

    ghost created = { λ s. s.register.created };

    fn load(&mut self, name: &str, limit: usize, into: &mut Vec<u8>) -> Result<(), LoadError> {
        load_file(self.files.as_slice(), &mut self.register, name, limit, into)
    }

    fn create(&mut self, name: &str) -> Result<(), DevError> {
        create_file(self.alloc, &mut self.files, &mut self.register, name)?;
        Ok(())
    }

    fn append(&mut self, name: &str, bytes: &[u8]) -> Result<(), DevError> {
        extend_file(&mut self.files, name, bytes)?;
        Ok(())
    }
}

/// A store of files in memory.
#[derive(Drop)]
pub struct MemStore {
    alloc: Global,
    files: Vec<NamedFile>,
    register: Register,
    calls: FailingCalls,
    load_faults: u64,
    write_faults: u64,
}

impl Model for MemStore {
    ghost use Rattle.std.specs.Prelude.{◌≤◌};
    ghost use Rattle.outside.specs.inside.Present.{AreThere};
    ghost use Rattle.outside.specs.Count.{last_count};
    ghost use Rattle.outside.specs.Memory.{MemFiles};

    ghost Value = { MemFiles };

    ghost view = { λ s. record {
      files = s.files.items;
      register = s.register;
      calls = s.calls;
      load_faults = s.load_faults;
      write_faults = s.write_faults;
    } };

    ghost invariant = { λ s. (s.load_faults ≤ last_count)
        × (s.write_faults ≤ last_count)
        × AreThere s.files.items s.register.created };
}

impl MemStore {
    /// A store of these files. Of two of one name the first counts. The calls whose numbers are in
    /// `fail` fail, where the first call of `load`, `create` or `append` has number 1 and a number
    /// stops at 2^64 - 1.
    pub fn new(alloc: Global, files: Vec<NamedFile>, fail: Vec<u64>) -> Self
        ensures { result ≡ record {
          files = files.items;
          register = record { loads = []; turned_away = []; created = [] };
          calls = record { made = 0; failing = fail.items };
          load_faults = 0;
          write_faults = 0;
        } }
    {
        MemStore {
            alloc,
            files,
            register: Register::new(alloc),
            calls: FailingCalls::new(fail),
            load_faults: 0,
            write_faults: 0,
        }
    }

    /// The bytes of a file, None where there is no file of that name.
    pub fn file(&self, name: &str) -> Option<&[u8]>
        ensures { option_copied result ≡ content_of self.now.files name.now }
    {
        file_bytes(self.files.as_slice(), name)
    }
}

impl Store for MemStore {
    ghost files = { λ s. Some (content_of s.files) };

    ghost load_faults = { λ s. s.load_faults };

    ghost write_faults = { λ s. s.write_faults };

    ghost loads = { λ s. s.register.loads };

    ghost turned_away = { λ s. s.register.turned_away };

    ghost created = { λ s. s.register.created };

    fn load(&mut self, name: &str, limit: usize, into: &mut Vec<u8>) -> Result<(), LoadError>
        requires { into.old.items ≡ [] }

        ensures failing { (result ≡ Err LoadError.Failed) ↔ NextFails self.old.calls }
        ensures counted { self.new.calls ≡ after_call self.old.calls }

        ensures answer { AnswersLoad (Some (content_of self.old.files)) name.now limit into.new.items result }
        ensures register { self.new.register ≡ record self.old.register {
          loads = self.old.register.loads ++ answered_by name.now result;
          turned_away =
              self.old.register.turned_away ++ turned_by name.now limit result;
        } }
        ensures files { self.new.files ≡ self.old.files }

        ensures faults { self.new.load_faults ≡ load_faults_after result self.old.load_faults }
        ensures cause { LoadFailsOnlyIfRose result self.old.load_faults self.new.load_faults }
        ensures later { self.old.load_faults ≤ self.new.load_faults }
        ensures bounded { self.new.load_faults ≤ last_count }
        ensures write_faults { self.new.write_faults ≡ self.old.write_faults }
        ensures write_bounded { self.new.write_faults ≤ last_count }
    {
        if self.calls.count_call() {
            self.load_faults = self.load_faults.saturating_add(1);
            return Err(LoadError::Failed);
        }
        load_file(self.files.as_slice(), &mut self.register, name, limit, into)
    }

    fn create(&mut self, name: &str) -> Result<(), DevError>
        ensures failing { (result ≡ Err DevError.Failed) ↔ NextFails self.old.calls }
        ensures counted { self.new.calls ≡ after_call self.old.calls }

        ensures emptied { OnOk result (ChangesFile (Some (content_of self.old.files)) (Some (content_of self.new.files)) name.now IsEmptied) }
        ensures part { OnErr result (ChangesFile (Some (content_of self.old.files)) (Some (content_of self.new.files)) name.now IsUnchangedOrEmptied) }
        ensures failed { result ≡ Err DevError.Failed → self.new.files ≡ self.old.files }
        ensures created { OnOk result (self.new.register ≡ record self.old.register {
          created =
              self.old.register.created ++ name.now ∷ [];
        }) }
        ensures not_created { OnErr result (self.new.register ≡ self.old.register) }

        ensures faults { self.new.write_faults ≡ faults_after result self.old.write_faults }
        ensures cause { FailsOnlyIfRose result self.old.write_faults self.new.write_faults }
        ensures later { self.old.write_faults ≤ self.new.write_faults }
        ensures bounded { self.new.write_faults ≤ last_count }
        ensures load_faults { self.new.load_faults ≡ self.old.load_faults }
        ensures load_bounded { self.new.load_faults ≤ last_count }
    {
        if self.calls.count_call() {
            self.write_faults = self.write_faults.saturating_add(1);
            return Err(DevError::Failed);
        }
        create_file(self.alloc, &mut self.files, &mut self.register, name)?;
        Ok(())
    }

    fn append(&mut self, name: &str, bytes: &[u8]) -> Result<(), DevError>
        requires { Contains self.old.register.created name.now }

        ensures failing { (result ≡ Err DevError.Failed) ↔ NextFails self.old.calls }
        ensures counted { self.new.calls ≡ after_call self.old.calls }

        ensures added { OnOk result (ChangesFile (Some (content_of self.old.files)) (Some (content_of self.new.files)) name.now (Gains bytes.now)) }
        ensures part { OnErr result (ChangesFile (Some (content_of self.old.files)) (Some (content_of self.new.files)) name.now (GainsPart bytes.now)) }
        ensures nothing { OnErr result (self.new.files ≡ self.old.files) }
        ensures register { self.new.register ≡ self.old.register }

        ensures faults { self.new.write_faults ≡ faults_after result self.old.write_faults }
        ensures cause { FailsOnlyIfRose result self.old.write_faults self.new.write_faults }
        ensures later { self.old.write_faults ≤ self.new.write_faults }
        ensures bounded { self.new.write_faults ≤ last_count }
        ensures load_faults { self.new.load_faults ≡ self.old.load_faults }
        ensures load_bounded { self.new.load_faults ≤ last_count }
    {
        if self.calls.count_call() {
            self.write_faults = self.write_faults.saturating_add(1);
            return Err(DevError::Failed);
        }
        extend_file(&mut self.files, name, bytes)?;
        Ok(())
    }
}
