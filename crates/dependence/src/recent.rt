//! The newest of what was found.

/// The two newest of things that were found one after another.
#[derive(Clone, Copy)]
pub struct Recent<T: Copy> {
    pub newest: Option<T>,
    pub older: Option<T>,
}

impl<T: Copy> Recent<T> {
    ghost use Rattle.std.specs.Prelude.{◌≡◌, None, Some};

    /// Of nothing that was found.
    pub fn none() -> Recent<T>
        ensures newest { result.newest ≡ None }
        ensures older { result.older ≡ None }
    {
        Recent {
            newest: None,
            older: None,
        }
    }

    /// Adds what was found now.
    pub fn add(&mut self, found: T)
        ensures newest { self.new.newest ≡ Some found }
        ensures older { self.new.older ≡ self.old.newest }
    {
        self.older = self.newest;
        self.newest = Some(found);
    }
}
