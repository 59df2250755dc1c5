//! A link of the core: what was put, and how much of it was taken.
#![tactic(auto, using(std::proofs::lemmas::Grind::elements))]

ghost use Rattle.std.specs.Prelude.{◌≡◌, ℕ, ◌+◌, ◌<◌, ◌≤◌, ◌++◌, ◌∷◌, [], length, take, drop, slice_get, vec_capacity, Some};

use luflow::Msg;

/// The messages of a link: those taken, and behind them those that wait.
pub struct LinkQueue {
    pub put: Vec<Msg>,
    pub taken: usize,
}

// By hand, so that it is proved here alone, and not in each crate that owns one.
impl Drop for LinkQueue {
    fn drop(self) {
        let Self { put: _, taken: _ } = self;
    }
}

impl LinkQueue {
    /// What was taken, in order.
    pub fn taken(&self) -> &[Msg]
        requires { self.now.taken ≤ length self.now.put.items }
        ensures { result.now ≡ take self.now.taken self.now.put.items }
    {
        &self.put[..self.taken]
    }

    /// What waits, in order.
    pub fn queued(&self) -> &[Msg]
        requires { self.now.taken ≤ length self.now.put.items }
        ensures { result.now ≡ drop self.now.taken self.now.put.items }
    {
        &self.put[self.taken..]
    }

    /// Puts a message behind those that wait.
    pub fn put(&mut self, msg: Msg)
        requires { length self.old.put.items < vec_capacity self.old.put }
        ensures items { self.new.put.items ≡ self.old.put.items ++ msg ∷ [] }
        ensures taken { self.new.taken ≡ self.old.taken }
        ensures capacity { vec_capacity self.new.put ≡ vec_capacity self.old.put }
    {
        self.put.push_reserved(msg);
    }

    /// The first message that waits is taken.
    pub fn take(&mut self) -> Msg
        requires { self.old.taken < length self.old.put.items }
        ensures item { slice_get self.old.put.items self.old.taken ≡ Some result }
        ensures put { self.new.put ≡ self.old.put }
        ensures taken { self.new.taken ≡ self.old.taken + 1 }
    {
        let msg = self.put[self.taken];
        self.taken += 1;
        msg
    }
}
