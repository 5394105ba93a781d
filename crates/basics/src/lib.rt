// What most crates use: the refusals of the whole product, the clock limit, and a choice between two values.
#![tactic(auto)]

mod refusal;

ghost use Rattle.std.specs.Prelude.{◌≡◌, cond};

pub use refusal::Refusal;

// The traces that are judged or timed have at most this many words; no state goes past this clock.
pub const LIMIT: u32 = 16777216;

// x where the test holds, and otherwise y.
pub fn choose<T: Copy>(test: bool, x: T, y: T) -> T
    ensures { result ≡ cond test x y }
{
    if test { x } else { y }
}
