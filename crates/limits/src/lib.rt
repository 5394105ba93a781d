// Sheets known within limits: a trace on every sheet from a least one to a greatest.
#![tactic(auto)]

ghost use Rattle.std.specs.Prelude.{◌≡◌};
ghost use Rattle.basics.specs.Outcome.{value, given};
ghost use Rattle.rules.specs.Verdict.{check_of};
ghost use Rattle.limits.specs.Limits.{alike, nowhere_above, always, shown, within_of};
ghost use Rattle.limits.specs.Answers.{finding_outcome};

use basics::Refusal;
use checker::Breach;
use config::Config;
use wordcheck::check;

// A sheet on which a trace is in breach, with that breach.
#[derive(Clone, Copy)]
pub struct BreachOn {
    pub sheet: Config,
    pub breach: Breach,
}

fn alike(least: Config, greatest: Config) -> bool
    ensures { result ≡ alike least greatest }
{
    (least.grade == greatest.grade)
        & (least.cl == greatest.cl)
        & (least.bl == greatest.bl)
        & (least.organisation == greatest.organisation)
        & (least.wiring == greatest.wiring)
}

fn nowhere_above(least: Config, greatest: Config) -> bool
    ensures { result ≡ nowhere_above least greatest }
{
    (least.period.0 <= greatest.period.0)
        & (least.rbd.0 <= greatest.rbd.0)
        & (least.rwd.0 <= greatest.rwd.0)
        & (least.wrd.0 <= greatest.wrd.0)
        & (least.rsc.0 <= greatest.rsc.0)
        & (least.refc.0 <= greatest.refc.0)
}

// The trace on one sheet.
fn on_sheet(sheet: Config, words: &[u32]) -> Result<Option<BreachOn>, Refusal>
    ensures { finding_outcome result ≡ given (check_of sheet words.now) (λ j. value (shown sheet j always)) }
{
    let breach = check(sheet, words)?;
    Ok(breach.map(|breach| BreachOn { sheet, breach }))
}

// None if the trace is accepted on every sheet in the limits; or a sheet there on which it is in breach: the one, and where it is accepted
// on that, the other. These two decide for all between them. Refuses by the first sheet's numbers, the second's, 35 and 24, in this order.
pub fn check_within(
    least: Config,
    greatest: Config,
    words: &[u32],
) -> Result<Option<BreachOn>, Refusal>
    ensures { finding_outcome result ≡ within_of least greatest words.now }
{
    least.timing()?;
    greatest.timing()?;
    if !(alike(least, greatest) & nowhere_above(least, greatest)) {
        return Err(Refusal::Limits);
    }
    match on_sheet(least, words)? {
        Some(found) => Ok(Some(found)),
        None => on_sheet(greatest, words),
    }
}
