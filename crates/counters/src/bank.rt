// A bank of counters.
ghost use Rattle.std.specs.Prelude.{◌≡◌};
ghost use Rattle.objects.specs.Kinds.{PlainWithdrawals};
ghost use Rattle.counters.specs.Counts.{Counts, ceiling, in_range, zeros};
ghost use Rattle.counters.specs.Kind.{bank};

// How many counters a bank has.
pub const COUNTERS: usize = 32;

// What a counter holds at most.
pub const CEILING: i64 = 1_000_000;

// As many counters as there are, and no heap: the memory of a controller is a stated budget.
#[derive(Drop)]
pub struct CounterBank {
    pub(crate) counts: [i64; COUNTERS],
    ghost lawful: { Counts ceiling counts },
}

impl CounterBank {
    // All counters at 0. The second clause is of the kind, and stands here since every bank comes from here.
    pub fn new() -> CounterBank
        ensures zero { result.counts ≡ zeros }
        ensures withdrawals { PlainWithdrawals (bank ceiling) }
    {
        CounterBank {
            counts: [0; COUNTERS],
        }
    }
}

// Whether a counter can hold this. The map's test has other bounds: what the two share is `contains`.
pub fn in_range(count: i64) -> bool
    ensures { result ≡ in_range ceiling count }
{
    (0..=CEILING).contains(&count)
}
