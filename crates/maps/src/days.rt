// A map from days to values.
ghost use Rattle.std.specs.Prelude.{◌≡◌};
ghost use Rattle.objects.specs.Kinds.{PlainWithdrawals};
ghost use Rattle.maps.specs.Days.{Days, empty};
ghost use Rattle.maps.specs.Kind.{dated_map};
ghost use Rattle.maps.specs.Latest.{FindsTheLatest};

// How many days there are: 0 to 511.
pub const DAYS: usize = 512;

// Values go from minus this to this.
pub const LARGEST: i64 = 1_000_000_000;

// A place for each day and no heap: the memory of a controller is a stated budget.
#[derive(Drop)]
pub struct DatedMap {
    pub(crate) days: [Option<i64>; DAYS],
    ghost lawful: { Days days },
}

impl DatedMap {
    // No day is filled. The other clauses are of the kind, and stand here since every map comes from here.
    pub fn new() -> DatedMap
        ensures empty { result.days ≡ empty }
        ensures withdrawals { PlainWithdrawals dated_map }
        ensures latest { FindsTheLatest }
    {
        DatedMap { days: [None; DAYS] }
    }
}
