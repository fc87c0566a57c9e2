// The next states of a machine that keeps to the rules.
ghost use Rattle.std.specs.Prelude.{◌≡◌, ◌<◌};
ghost use Rattle.needs.specs.Tables.{step_in, Steps};

// Actions lead from states to states.
#[derive(Clone, Copy)]
pub(crate) struct Walk<'a> {
    pub(crate) next: &'a [u16],
    pub(crate) states: usize,
    pub(crate) actions: usize,
    pub(crate) ghost steps: { Steps states actions next.now },
}

impl<'a> Walk<'a> {
    // The state that an action leads to.
    pub(crate) fn step(&self, s: usize, a: usize) -> usize
        requires { (s < self.now.states) × (a < self.now.actions) }
        ensures value { result ≡ step_in self.now.actions self.now.next.now s a }
        ensures a_state { result < self.now.states }
    {
        usize::from(self.next[s * self.actions + a])
    }
}
