// Counts of what was tried and of what went well.

// How often a test held.
#[derive(Clone, Copy)]
pub(crate) struct Count {
    name: &'static str,
    held: u64,
}

impl Count {
    pub(crate) fn of(name: &'static str) -> Count {
        Count { name, held: 0 }
    }

    pub(crate) fn add(&mut self, test: bool) {
        self.held = self.held.wrapping_add(u64::from(test));
    }

    pub(crate) fn write(self, rt: &impl Print) {
        let _ = println!(rt; "{}: {}", self.name, self.held);
    }
}

// What was tried, and how often it went well.
#[derive(Clone, Copy)]
pub(crate) struct Tally {
    name: &'static str,
    tried: u64,
    well: u64,
}

impl Tally {
    pub(crate) fn of(name: &'static str) -> Tally {
        Tally {
            name,
            tried: 0,
            well: 0,
        }
    }

    pub(crate) fn add(&mut self, well: bool) {
        self.tried = self.tried.wrapping_add(1);
        self.well = self.well.wrapping_add(u64::from(well));
    }

    pub(crate) fn write(self, rt: &impl Print, verdict: &str) {
        let _ = println!(rt; "{}: {}, {verdict} {}", self.name, self.tried, self.well);
    }
}
