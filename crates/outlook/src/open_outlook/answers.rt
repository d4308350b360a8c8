ghost use Rattle.std.specs.Prelude.{◌≡◌};
ghost use Rattle.problem.specs.Problems.{task_of};
ghost use Rattle.outlook.specs.OpenViews.{open_task, open_fits, open_view, open_lawful};

use crate::open_outlook::OpenOutlook;
use crate::outlook::Outlook;
use graph::check_question;
use problem::{Problem, Refusal};

impl<'a> OpenOutlook<'a> {
    // The open outlook on a problem.
    pub fn new(problem: Problem<'a>) -> OpenOutlook<'a>
        ensures { open_task result ≡ task_of problem.entry }
    {
        OpenOutlook { problem }
    }
}

impl<'a> Outlook for OpenOutlook<'a> {
    ghost task = { open_task };

    ghost fits = { open_fits };

    ghost view = { open_view };

    ghost lawful = { open_lawful };

    fn problem(&self) -> &Problem<'_> {
        &self.problem
    }

    fn bars(&self, level: u8, a: u8, b: u8) -> Result<bool, Refusal> {
        check_question(level, a < self.problem.atoms && b < self.problem.atoms)?;
        Ok(false)
    }

    fn barred_with(&self, level: u8, atom: u8) -> Result<u64, Refusal> {
        check_question(level, atom < self.problem.atoms)?;
        Ok(0)
    }

    fn closing(&self) -> Option<u8> {
        None
    }
}
