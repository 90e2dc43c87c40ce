//! The files that are open, by the numbers that the partner gives them.

ghost use Rattle.std.specs.Prelude.{◌≡◌, ◌<◌, ◌≤◌, [], IfSome, vec_len};
ghost use Rattle.uring_std.specs.Numbers.{IsLeastFree, place_in};
ghost use Rattle.uring_model.specs.declared.files.TheConstants.{MAX_FILE_NUMBER};

use std::alloc::{AllocError, Global};
use uring_model::MAX_FILE_NUMBER;

/// A file, and its number.
#[derive(Drop)]
pub struct OpenFile<F> {
    pub number: u32,
    pub file: F,
}

/// The files that are open, in the order of their opening.
#[derive(Drop)]
pub struct OpenFiles<F> {
    files: Vec<OpenFile<F>>,
}

impl<F: Drop> OpenFiles<F> {
    /// No file is open.
    pub fn new(alloc: Global) -> OpenFiles<F>
        ensures { result.files.items ≡ [] }
    {
        OpenFiles {
            files: Vec::new(alloc),
        }
    }

    /// Where the file of this number stands.
    fn place_of(&self, number: u32) -> Option<usize>
        ensures place { result ≡ place_in number self.now.files.items }
        ensures inside { IfSome result (λ place. place < vec_len self.now.files) }
    {
        self.files.iter().position(|open| open.number == number)
    }

    /// The file of this number.
    pub fn get_mut(&mut self, number: u32) -> Option<&mut F> {
        let place = self.place_of(number)?;
        Some(&mut self.files[place].file)
    }

    /// The least number that no open file has, up to the last that can be answered.
    pub fn least_free(&self) -> Option<u32>
        ensures free { IfSome result (λ number. IsLeastFree number self.now.files.items) }
        ensures fits { IfSome result (λ number. number ≤ MAX_FILE_NUMBER) }
    {
        for number in 0..=MAX_FILE_NUMBER {
            if self.place_of(number).is_none() {
                return Some(number);
            }
        }
        None
    }

    /// Makes room for one more.
    pub fn reserve_one(&mut self) -> Result<(), AllocError> {
        self.files.try_reserve(1)
    }

    /// Closes the file of this number, if there is one.
    pub fn close(&mut self, number: u32) -> bool {
        match self.place_of(number) {
            None => false,
            Some(place) => {
                let _closed = self.files.remove(place);
                true
            }
        }
    }

    /// Opens a file under a number, in place of the one that it has.
    pub fn put(&mut self, number: u32, file: F) -> Result<(), AllocError> {
        self.reserve_one()?;
        let _closed = self.close(number);
        self.files.push(OpenFile { number, file })?;
        Ok(())
    }
}
