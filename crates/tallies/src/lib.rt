// What one pass finds of the threads, and the rules of soundness that speak of it, each by itself.
#![tactic(auto)]

ghost use Rattle.std.specs.Prelude.{◌≡◌};
ghost use Rattle.tallies.specs.Rules.{mutex_agrees, some_elsewhere, aim_fits, rest_fits};

use definitions::Task;

// What one pass finds of threads that pass the rules on one thread by itself.
#[derive(Clone, Copy)]
pub struct Tally {
    // The sum of the phases of the threads that hold the mutex: the holder's phase, 0 where there is none, and past the
    // last phase where they are two or more.
    pub holder: usize,
    // How many forbidden are 1.
    pub forbidden: usize,
    // How many of their threads are in 5 to 7.
    pub readers: usize,
    // How many threads are in 3, 4 and 18.
    pub backed_off: usize,
}

impl Tally {
    // "the mutex is 1 exactly if there is one"
    pub fn mutex_agrees(self, mutex: u8) -> bool
        ensures { result ≡ mutex_agrees self mutex }
    {
        let taken = self.holder != 0;
        mutex == taken as u8
    }

    // "not every thread is in phases 3, 4 and 18" (02 §6)
    pub fn some_elsewhere(self, threads: usize) -> bool
        ensures { result ≡ some_elsewhere self threads }
    {
        self.backed_off < threads
    }

    // The rules for a holder in 11 or 12, from the target's task, whose phase is read by number from any bytes.
    #[tactic(auto, unfolding(definitions::specs::Phases::rows, definitions::specs::Threads::every, crate::specs::Rules::aim_fits))]
    pub fn aim_fits(self, aim: Task) -> bool
        ensures { result ≡ aim_fits self aim }
    {
        let reading = matches!(aim.phase, 5..=7);
        aim.forbidden == 1 && self.readers == reading as usize
    }

    // The rules for no holder, or one in another phase. Phases stand by number, as the definitions have them (Phases), and the
    // holder's is a sum, which may be no phase.
    #[tactic(auto, unfolding(crate::specs::Rules::rest_fits))]
    pub fn rest_fits(self, threads: usize) -> bool
        ensures { result ≡ rest_fits self threads }
    {
        match self.holder {
            0 | 16 | 18 => self.forbidden == 0,
            10 => self.forbidden < threads && self.readers == 0,
            13 | 14 => self.forbidden == threads && self.readers == 0,
            15 => 0 < self.forbidden,
            _ => false,
        }
    }
}
