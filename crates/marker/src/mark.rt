// The line that a trace is marked with.
ghost use Rattle.std.specs.Prelude.{◌≡◌, ◌≤◌};
ghost use Rattle.line.specs.Text.{text};
ghost use Rattle.basics.specs.Outcome.{value, refused};
ghost use Rattle.rules.specs.Verdict.{accepted, breach};
ghost use Rattle.checker.specs.Steps.{verdict_outcome};
ghost use Rattle.marker.specs.Mark.{line_by, line_of};

use basics::Refusal;
use checker::Breach;
use config::Config;
use line::Line;

fn accepted(count: u32) -> Line
    ensures { (text result ≡ line_by count (value accepted)) × (result.len ≤ 40) }
{
    Line::empty().piece(b"accepted ").number(count).push(b'\n')
}

fn in_breach(clock: u32, number: u32) -> Line
    ensures { (text result ≡ line_by 0 (value (breach clock number))) × (result.len ≤ 40) }
{
    Line::empty()
        .piece(b"breach ")
        .number(clock)
        .push(b' ')
        .number(number)
        .push(b'\n')
}

fn refused(why: u32) -> Line
    ensures { (text result ≡ line_by 0 (refused why)) × (result.len ≤ 40) }
{
    Line::empty().piece(b"refused ").number(why).push(b'\n')
}

// The line for a verdict on so many words.
fn line_by(count: u32, verdict: Result<Option<Breach>, Refusal>) -> Line
    ensures { (text result ≡ line_by count (verdict_outcome verdict)) × (result.len ≤ 40) }
{
    match verdict {
        Ok(None) => accepted(count),
        Ok(Some(breach)) => in_breach(breach.clock, breach.number),
        Err(why) => refused(why.number()),
    }
}

// The line for what was read: refused 25 for more than 65,536 bytes, otherwise the verdict on the institute's own configuration.
pub(crate) fn line_of(bytes: &[u8]) -> Line
    ensures { (text result ≡ line_of bytes.now) × (result.len ≤ 40) }
{
    if 65536 < bytes.len() {
        return refused(Refusal::InputSize.number());
    }
    line_by(
        (bytes.len() / 4) as u32,
        bytecheck::check_bytes(Config::institute(), bytes),
    )
}
