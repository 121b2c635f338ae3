// What is printed, and the exit code.
use std::alloc::{AllocError, Global};

#[derive(Drop)]
pub(crate) struct Report {
    pub(crate) text: String,
    pub(crate) code: u8,
}

impl Report {
    // The same with a line feed behind the text.
    pub(crate) fn line(self) -> Result<Report, AllocError> {
        let Report { mut text, code } = self;
        text.push('\n')?;
        Ok(Report { text, code })
    }
}

// How many cases came out as wanted.
#[derive(Drop)]
pub(crate) struct Tally {
    text: String,
    passed: u64,
    failed: u64,
}

impl Tally {
    pub(crate) fn new(alloc: Global) -> Tally {
        Tally {
            text: String::new(alloc),
            passed: 0,
            failed: 0,
        }
    }

    // Counts a case, and reports it where what came is not what is wanted.
    pub(crate) fn count(
        &mut self,
        case: usize,
        wanted: &str,
        came: &str,
    ) -> Result<(), AllocError> {
        if wanted == came {
            self.passed = self.passed.saturating_add(1);
            return Ok(());
        }
        self.failed = self.failed.saturating_add(1);
        writeln!(self.text, "case {case}: wanted {wanted:?}, came {came:?}")
    }

    pub(crate) fn report(self) -> Result<Report, AllocError> {
        let Tally {
            mut text,
            passed,
            failed,
        } = self;
        writeln!(text, "{passed} passed, {failed} failed")?;
        let code = if failed == 0 { 0 } else { 1 };
        Ok(Report { text, code })
    }
}
