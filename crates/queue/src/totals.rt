// How many requests wait for each bank.
ghost use Rattle.std.specs.Prelude.{◌≡◌, take};
ghost use Rattle.queue.specs.Totals.{totals_of, same_totals};

use command::Request;

// How many of the first so many waiting requests are for each bank. One for a bank past the eighth is in no total.
pub fn totals_of(waiting: [Request; 16], count: u32) -> [u32; 8]
    ensures { result ≡ totals_of (take count waiting) }
{
    let mut totals = [0; 8];
    for request in &waiting[..count.min(16) as usize] {
        let bank = request.bank as usize;
        if bank < 8 {
            totals[bank] += 1;
        }
    }
    totals
}

// The totals are the same for each of the eight banks.
pub fn same_totals(a: [u32; 8], b: [u32; 8]) -> bool
    ensures { result ≡ same_totals a b }
{
    a == b
}
