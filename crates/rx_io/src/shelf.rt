// Named files in memory.
ghost use Rattle.std.specs.Prelude.{◌≡◌, ◌<◌, vec_len, [], Some, None, option_copied, unwrap_or, IfNone, IfSome, OnOk, OnErr, ◌++◌};
ghost use Rattle.rx_io.specs.Shelves.{found, IsPlace};
ghost use Rattle.rx_io.specs.Named.{Holds};

use std::alloc::{AllocError, Global};

/// Files by their names. Of two files with one name the first counts.
#[derive(Drop)]
pub struct Shelf {
    alloc: Global,
    files: Vec<(String, Vec<u8>)>,
}

impl Shelf {
    pub fn make(alloc: Global, files: Vec<(String, Vec<u8>)>) -> Shelf
        ensures { result.files.items ≡ files.items }
    {
        Shelf { alloc, files }
    }

    fn place_of(&self, name: &str) -> Option<usize>
        ensures inside { IfSome result (λ i. i < vec_len self.now.files) }
        ensures some { IfSome result (λ i. IsPlace self.now.files.items name.now i) }
        ensures none { IfNone result (found self.now.files.items name.now ≡ None) }
    {
        for (i, file) in self.files.iter().enumerate() {
            if file.0.as_str() == name {
                return Some(i);
            }
        }
        None
    }

    /// The bytes of a name, if it is there.
    pub fn bytes_of(&self, name: &str) -> Option<&[u8]>
        ensures { option_copied result ≡ found self.now.files.items name.now }
    {
        let i = self.place_of(name)?;
        Some(self.files[i].1.as_slice())
    }

    // Puts a new file behind the others.
    fn push(&mut self, name: &str, bytes: &[u8]) -> Result<(), AllocError>
        requires { found self.old.files.items name.now ≡ None }
        ensures held { OnOk result (Holds (found self.old.files.items) (found self.new.files.items) name.now (Some bytes.now)) }
        ensures same { OnErr result (Holds (found self.old.files.items) (found self.new.files.items) name.now (found self.old.files.items name.now)) }
    {
        let bytes = bytes.to_vec(self.alloc)?;
        let name = String::from_str(self.alloc, name)?;
        self.files.push((name, bytes))?;
        Ok(())
    }

    /// Makes the file, empty. After an `Err` nothing has changed.
    pub fn start(&mut self, name: &str) -> Result<(), AllocError>
        ensures held { OnOk result (Holds (found self.old.files.items) (found self.new.files.items) name.now (Some [])) }
        ensures same { OnErr result (Holds (found self.old.files.items) (found self.new.files.items) name.now (found self.old.files.items name.now)) }
    {
        match self.place_of(name) {
            None => self.push(name, &[]),
            Some(i) => {
                self.files[i].1.clear();
                Ok(())
            }
        }
    }

    /// Adds bytes at the file's end, or makes it of them. After an `Err` nothing has changed.
    pub fn add(&mut self, name: &str, bytes: &[u8]) -> Result<(), AllocError>
        ensures held { OnOk result (Holds (found self.old.files.items) (found self.new.files.items) name.now
            (Some (unwrap_or (found self.old.files.items name.now) [] ++ bytes.now))) }
        ensures same { OnErr result (Holds (found self.old.files.items) (found self.new.files.items) name.now (found self.old.files.items name.now)) }
    {
        match self.place_of(name) {
            None => self.push(name, bytes),
            Some(i) => self.files[i].1.extend_from_slice(bytes),
        }
    }
}
