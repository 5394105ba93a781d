// Answers as one number.
ghost use Rattle.std.specs.Prelude.{◌≡◌};
ghost use Rattle.checker.specs.Steps.{verdict_outcome};
ghost use Rattle.walks.specs.Walk.{progress_outcome};
ghost use Rattle.bulk.specs.Numbers.{breach_number, check_number, walk_number};

use basics::Refusal;
use checker::Breach;
use walks::Progress;

pub(crate) fn of_breach(breach: Breach) -> u64
    ensures { result ≡ breach_number breach.clock breach.number }
{
    1099511627776 + u64::from(breach.clock) * 64 + u64::from(breach.number)
}

pub(crate) fn of_verdict(verdict: Result<Option<Breach>, Refusal>) -> u64
    ensures { result ≡ check_number (verdict_outcome verdict) }
{
    match verdict {
        Ok(None) => 0,
        Ok(Some(breach)) => of_breach(breach),
        Err(why) => u64::from(why.number()),
    }
}

pub(crate) fn of_progress(progress: Result<Progress, Refusal>) -> u64
    ensures { result ≡ walk_number (progress_outcome progress) }
{
    match progress {
        Ok(Progress::Passed) => 1,
        Ok(Progress::InBreach(breach)) => of_breach(breach),
        Ok(Progress::End) => 0,
        Err(why) => u64::from(why.number()),
    }
}
