// How often each number was answered, opens included, how many calls were played, and of how many cases.
#[derive(Clone, Copy, Default)]
pub struct Tally {
    pub numbers: [u64; 12],
    pub calls: u64,
    pub cases: u32,
}

impl Tally {
    // The number that an open or a call answered; the greatest count stays.
    pub fn count(&mut self, number: u32) {
        if let Some(times) = self.numbers.get_mut(number as usize) {
            *times = times.saturating_add(1);
        }
    }

    // The numbers of the calls that were played.
    pub fn count_calls(&mut self, answers: &[u32]) {
        for number in answers {
            self.count(*number);
        }
        self.calls = self.calls.saturating_add(answers.len() as u64);
    }
}
