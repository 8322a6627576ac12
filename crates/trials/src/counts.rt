// What the trials saw.
use crate::setting::Filters;
use anyhow::{Result, ensure};
use links::Refused;
use reference::claims::Finding;
use reference::repairs::RepairCounts;

// How often the audit found what.
#[derive(Clone, Copy)]
pub struct FindingCounts {
    sound: u64,
    not_returned: u64,
    not_linked: u64,
    path_of_one: u64,
    path_of_three: u64,
}

#[derive(Clone, Copy)]
pub struct Counts {
    boards: u64,
    over_one_filter: u64,
    over_two_filters: u64,
    calls: u64,
    repairs: RepairCounts,
    findings: FindingCounts,
    // at the number of each refusal
    refusals: [u64; 16],
}

// Counts one more.
fn count(n: &mut u64) {
    *n = n.saturating_add(1);
}

impl Counts {
    pub fn new() -> Counts {
        Counts {
            boards: 0,
            over_one_filter: 0,
            over_two_filters: 0,
            calls: 0,
            repairs: RepairCounts::NONE,
            findings: FindingCounts {
                sound: 0,
                not_returned: 0,
                not_linked: 0,
                path_of_one: 0,
                path_of_three: 0,
            },
            refusals: [0; 16],
        }
    }

    pub fn call(&mut self) {
        count(&mut self.calls);
    }

    // On how many filters a board stands.
    pub fn filters(&mut self, filters: Filters) {
        match filters {
            Filters::None => {}
            Filters::One => count(&mut self.over_one_filter),
            Filters::Two => count(&mut self.over_two_filters),
        }
    }

    // A board that was played to its end, and what its repairs did.
    pub fn board(&mut self, repairs: RepairCounts) {
        count(&mut self.boards);
        self.repairs = self.repairs.plus(repairs);
    }

    // What an answer was refused for, if it was.
    pub fn answer<T>(&mut self, answer: &Result<T, Refused>) {
        if let Err(refused) = answer
            && let Some(n) = self.refusals.get_mut(usize::from(refused.refusal.number()))
        {
            count(n);
        }
    }

    // What an audit answered.
    pub fn audit(&mut self, answer: Result<Finding, Refused>) {
        self.answer(&answer);
        let findings = &mut self.findings;
        match answer {
            Ok(Finding::Sound) => count(&mut findings.sound),
            Ok(Finding::NotReturned(_)) => count(&mut findings.not_returned),
            Ok(Finding::NotLinked(_)) => count(&mut findings.not_linked),
            Ok(Finding::PathOfOne(..)) => count(&mut findings.path_of_one),
            Ok(Finding::PathOfThree(..)) => count(&mut findings.path_of_three),
            Err(_) => {}
        }
    }

    // Prints how often each kind came, and fails where one never did.
    pub fn report(&self, rt: &impl Print) -> Result<()> {
        report_line(rt, "boards", self.boards)?;
        report_line(rt, "boards over a filter", self.over_one_filter)?;
        report_line(
            rt,
            "boards over a filter over a filter",
            self.over_two_filters,
        )?;
        report_line(rt, "calls", self.calls)?;
        report_line(rt, "pairs matched", self.repairs.matched)?;
        report_line(rt, "paths augmented", self.repairs.augmented)?;
        report_line(rt, "loads displaced", self.repairs.displaced)?;
        report_line(
            rt,
            "loads displaced, then paths augmented",
            self.repairs.displaced_augmented,
        )?;
        self.findings.report(rt)?;
        for number in 1..16 {
            let times = self.refusals[number];
            println!(rt; "refused with {number}: {times}")?;
            ensure!(times > 0, "no refusal with {number} came");
        }
        Ok(())
    }
}

impl FindingCounts {
    fn report(&self, rt: &impl Print) -> Result<()> {
        report_line(rt, "audits: sound", self.sound)?;
        report_line(rt, "audits: not returned", self.not_returned)?;
        report_line(rt, "audits: not linked", self.not_linked)?;
        report_line(rt, "audits: path of one", self.path_of_one)?;
        report_line(rt, "audits: path of three", self.path_of_three)
    }
}

fn report_line(rt: &impl Print, what: &str, times: u64) -> Result<()> {
    println!(rt; "{what}: {times}")?;
    ensure!(times > 0, "none came: {what}");
    Ok(())
}
